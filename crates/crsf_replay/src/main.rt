// Document 02, Wish 1: a log, in a file or on standard input, replayed to standard output.
//
// No contract of std says which bytes reach standard output. So the functions that hand a text to be written have a `requires` that says
// which text it is.
#![tactic(auto)]

ghost use Rattle.std.specs.Prelude.{◌≡◌, ◌≤◌, length};
ghost use Rattle.text.specs.Putting.{Front};
ghost use Rattle.replay_lines.specs.Lines.{most_text};
ghost use Rattle.replay_lines.specs.Replays.{After, block_text, behind_block};
ghost use Rattle.replay_lines.specs.Text.{end_text};
ghost use Rattle.crsf_replay.specs.Filled.{Holds};

use blocks::BLOCK_SIZE;
use console::{Said, Source};
use replay::Replay;

// `crsf_replay: `, 13 bytes, and the longest path of Linux, 4096, behind it.
const NAME_ROOM: usize = 4109;

// More than the lines of a block and the closing line.
const TEXT_ROOM: usize = 65536;

// What failed is said on standard error, and no closing line is written. The exit status is 0 all the same.
fn write_out(rt: &HostRuntime, text: &[u8]) -> Result<(), Said> {
    console::write_out(rt, text, b"crsf_replay: standard output")
}

// The lines of a block, after so many.
fn write_block(
    rt: &HostRuntime,
    position: u32,
    state: Replay,
    block: &[u8],
    text: &[u8],
) -> Result<(), Said>
    requires { After position state × (text.now ≡ block_text state position block.now) }
{
    write_out(rt, text)
}

// The closing line, after so many blocks.
fn write_closing(rt: &HostRuntime, blocks: u32, state: Replay, text: &[u8]) -> Result<(), Said>
    requires { After blocks state × (text.now ≡ end_text blocks) }
{
    write_out(rt, text)
}

// A block after so many: nothing waits for the next one. The state goes behind it, also where its lines could not be written.
fn replay_block(
    rt: &HostRuntime,
    position: u32,
    state: &mut Replay,
    block: &[u8],
    text: &mut [u8],
) -> Result<(), Said>
    requires { (most_text ≤ length text.old) × After position state.old }
    ensures { state.new ≡ behind_block state.old position block.now }
{
    let before = *state;
    match replay_lines::list_block(before, position, block, text) {
        Ok(lines) => {
            *state = lines.state;
            write_block(rt, position, before, block, &text[..lines.len])
        }
        // no lines, and the state as it was
        Err(_) => Ok(()),
    }
}

// The text of the closing line, which has room. (crsf_list has its own, here and below: no plainer, the contracts name other texts.)
fn put_closing(blocks: u32, text: &mut [u8]) -> usize
    requires { most_text ≤ length text.old }
    ensures { Front result text.new (end_text blocks) }
{
    match replay_lines::put_end(blocks as u64, text) {
        Ok(len) => len,
        Err(_) => 0,
    }
}

// The input has ended, after so many blocks.
fn close(rt: &HostRuntime, blocks: u32, state: Replay, text: &mut [u8]) -> Result<(), Said>
    requires { (most_text ≤ length text.old) × After blocks state }
{
    let len = put_closing(blocks, text);
    write_closing(rt, blocks, state, &text[..len])
}

// A block, or what is left over at the input's end: how many bytes. A pipe hands it out in pieces.
fn read_block(
    rt: &HostRuntime,
    source: &mut Source,
    name: &[u8],
    block: &mut [u8],
) -> Result<usize, Said>
    ensures { Holds result block.new }
{
    let mut len: usize = 0;
    // no plainer: `len` counts what reads gave, and no read of std says how much there was
    while len < block.len() {
        let Some(count) = console::read(rt, source, name, &mut block[len..])? else {
            break;
        };
        len += count;
    }
    Ok(len)
}

// Positions are 32 bits wide; a log that goes beyond them is told and not closed.
fn replay_all(
    rt: &HostRuntime,
    source: &mut Source,
    name: &[u8],
    block: &mut [u8],
    text: &mut [u8],
) -> Result<(), Said>
    requires { most_text ≤ length text.old }
{
    let mut state = Replay::new();
    for position in 0..u32::MAX {
        let len = read_block(rt, source, name, block)?;
        if len == 0 {
            return close(rt, position, state, text);
        }
        replay_block(rt, position, &mut state, &block[..len], text)?;
        if len < BLOCK_SIZE {
            return close(rt, position + 1, state, text);
        }
    }
    let _ = rt
        .stderr()
        .write_all(b"crsf_replay: more than 4294967294 blocks\n");
    Err(Said)
}

// What is read, with its name in an error.
fn replay(rt: &HostRuntime, source: &mut Source, name: &[u8]) -> Result<(), Said> {
    let mut block = [0u8; BLOCK_SIZE];
    let mut text = [0u8; TEXT_ROOM];
    replay_all(rt, source, name, &mut block, &mut text)
}

// The input that the argument names.
fn run(rt: &HostRuntime) -> Result<(), Said> {
    let mut name = [0u8; NAME_ROOM];
    let mut opened = console::open_input(
        rt,
        b"crsf_replay",
        b"usage: crsf_replay [FILE]\nReplays the log FILE; standard input without FILE, or where it is -.\n",
        &mut name,
    )?;
    replay(rt, &mut opened.source, &name[..opened.len])
}

fn main(rt: HostRuntime) {
    let _ = run(&rt);
}
