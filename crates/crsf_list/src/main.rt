// Document 01, "The listing": of a file or of standard input, to standard output.
//
// No contract of std says which bytes reach standard output. So the functions that hand a text to be written have a `requires` that says
// which text it is.
#![tactic(auto)]

ghost use Rattle.std.specs.Prelude.{◌≡◌, ◌≤◌, length};
ghost use Rattle.listing.specs.Chunks.{After};
ghost use Rattle.listing.specs.Parts.{text_of_closing};
ghost use Rattle.listing.specs.Text.{longest_text};
ghost use Rattle.text.specs.Putting.{Front};
ghost use Rattle.crsf_list.specs.Handed.{part_text, Whole};

use console::{Said, Source};
use listing::{Listing, Stop};

// `crsf_list: `, 11 bytes, and the longest path of Linux, 4096, behind it.
const NAME_ROOM: usize = 4107;

// So much is read at once, and so much text is written at once.
const LARGE: usize = 65536;

// What was listed of a chunk: the state behind it, and the number of its last part.
#[derive(Clone, Copy)]
struct Progress {
    state: Listing,
    last: u64,
}

// What failed is said on standard error, and no closing line is written. The exit status is 0 all the same.
fn write_out(rt: &HostRuntime, text: &[u8]) -> Result<(), Said> {
    console::write_out(rt, text, b"crsf_list: standard output")
}

// Part `turn` of the chunk `input`. (`text` whole, with a length: which part it is depends on all the room.)
fn write_part(
    rt: &HostRuntime,
    first: Listing,
    input: &[u8],
    turn: u64,
    text: &[u8],
    len: usize,
) -> Result<(), Said>
    requires { Front len text.now (part_text (length text.now) first input.now turn) }
{
    write_out(rt, &text[..len])
}

// The closing line.
fn write_closing(rt: &HostRuntime, state: Listing, text: &[u8]) -> Result<(), Said>
    requires { text.now ≡ text_of_closing state }
{
    write_out(rt, text)
}

// All lines of a chunk, after so many chunks: nothing waits for the next one.
fn list_chunk(
    rt: &HostRuntime,
    chunks: u64,
    first: Listing,
    input: &[u8],
    text: &mut [u8],
) -> Result<Progress, Said>
    requires { (longest_text ≤ length text.old) × After chunks first }
    ensures { Whole (length text.old) first input.now result }
{
    let mut state = first;
    let mut at: usize = 0;
    let mut turn: u64 = 0;
    // no plainer: a range of turns would need an answer behind it, and there is a last part
    loop {
        let part = state.fill(input, at, text);
        write_part(rt, first, input, turn, text, part.len)?;
        let listed = Progress {
            state: part.state,
            last: turn,
        };
        match part.stop {
            Ok(stop) => match stop {
                Stop::Full => {
                    state = part.state;
                    at = part.at;
                    turn += 1;
                }
                Stop::Used => return Ok(listed),
            },
            Err(_) => return Ok(listed),
        }
    }
}

// The text of the closing line, which has room. A state beyond its limits has none.
fn put_closing(state: Listing, text: &mut [u8]) -> usize
    requires { longest_text ≤ length text.old }
    ensures { Front result text.new (text_of_closing state) }
{
    match state.finish() {
        Ok(line) => match listing::line::render(line, text) {
            Ok(len) => len,
            Err(_) => 0,
        },
        Err(_) => 0,
    }
}

// The input has ended, after so many chunks.
fn close(rt: &HostRuntime, chunks: u64, state: Listing, text: &mut [u8]) -> Result<(), Said>
    requires { (longest_text ≤ length text.old) × After chunks state }
{
    let len = put_closing(state, text);
    write_closing(rt, state, &text[..len])
}

// A proved loop has to end, and nothing says that the input does: no input has as many chunks as this loop has turns.
fn list_all(
    rt: &HostRuntime,
    source: &mut Source,
    name: &[u8],
    input: &mut [u8],
    text: &mut [u8],
) -> Result<(), Said>
    requires { longest_text ≤ length text.old }
{
    let mut state = Listing::new();
    for chunks in 0..u64::MAX {
        let Some(count) = console::read(rt, source, name, input)? else {
            return close(rt, chunks, state, text);
        };
        state = list_chunk(rt, chunks, state, &input[..count], text)?.state;
    }
    Ok(())
}

// What is read, with its name in an error.
fn list(rt: &HostRuntime, source: &mut Source, name: &[u8]) -> Result<(), Said> {
    let mut input = [0u8; LARGE];
    let mut text = [0u8; LARGE];
    list_all(rt, source, name, &mut input, &mut text)
}

// The input that the argument names.
fn run(rt: &HostRuntime) -> Result<(), Said> {
    let mut name = [0u8; NAME_ROOM];
    let mut opened = console::open_input(
        rt,
        b"crsf_list",
        b"usage: crsf_list [FILE]\nLists the recording FILE; standard input without FILE, or where it is -.\n",
        &mut name,
    )?;
    list(rt, &mut opened.source, &name[..opened.len])
}

fn main(rt: HostRuntime) {
    let _ = run(&rt);
}
