// The replay of a log as text: the lines of a block's events, and the line that closes it. Nothing here reads or writes.
#![tactic(auto)]

ghost use Rattle.std.specs.Prelude.{◌≡◌, ◌≤◌, length};
ghost use Rattle.codec.specs.Refusals.{outcome_number, number_in};
ghost use Rattle.codec.specs.Told.{WritesAll};
ghost use Rattle.replay_lines.specs.Text.{end_text};
ghost use Rattle.replay_lines.specs.Lines.{most_text, Lists, ListsBlock, PutsStep, OnceOn};
ghost use Rattle.replay.specs.Step.{step_of};
ghost use Rattle.replay.specs.Through.{through};

use codec::refusal::Refusal;
use line::LONGEST;
use replay::Replay;
use text::{put_behind, put_numbered};

mod line;

// A block has at most 101 records, of 5 bytes each in 505, and one line before them.
const MOST_LINES: usize = 102;

const MOST_TEXT: usize = LONGEST * MOST_LINES;

// The state after the lines, and how many bytes of text there are. Where listing is refused the caller's own state stays as it was, and there
// is no text.
#[derive(Clone, Copy)]
pub struct Lines {
    pub state: Replay,
    pub len: usize,
}

// The steps of a block without their text: the number of the one that refuses.
fn try_steps(state: Replay, position: u32, block: &[u8]) -> Result<(), Refusal>
    ensures { outcome_number result ≡ number_in (through state position block.now) }
{
    // Each step goes on from the state that the one before it left: nothing is counted.
    let mut at = state;
    loop {
        let step = at.next(position, block)?;
        at = step.state;
        if at.place == 0 {
            return Ok(());
        }
    }
}

// The next event's text behind the text that waits.
fn put_step(
    state: Replay,
    position: u32,
    block: &[u8],
    text: &mut [u8],
    at: usize,
) -> Result<Lines, Refusal>
    requires { at ≤ length text.old }
    ensures { PutsStep (step_of state position block.now) at result text.old text.new }
{
    let step = state.next(position, block)?;
    let put = line::put_text(step.event, text, at);
    Ok(Lines {
        state: step.state,
        len: at + put,
    })
}

// From a state that is refused at once, or from which no step refuses.
fn list_steps(state: Replay, position: u32, block: &[u8], text: &mut [u8]) -> Result<Lines, Refusal>
    requires { (most_text ≤ length text.old) × OnceOn state position block.now }
    ensures { Lists state (through state position block.now) result text.old text.new }
{
    let mut lines = Lines { state, len: 0 };
    // each step goes on behind the one before it: nothing is counted
    loop {
        lines = put_step(lines.state, position, block, text, lines.len)?;
        if lines.state.place == 0 {
            return Ok(lines);
        }
    }
}

// The text of a block's events, from a state on: between blocks it opens the block, within one it goes on. Within one the block is not
// judged again, and a step behind others may refuse: so it is tried first.
pub fn list_block(
    state: Replay,
    position: u32,
    block: &[u8],
    text: &mut [u8],
) -> Result<Lines, Refusal>
    ensures { ListsBlock state position block.now result text.old text.new }
{
    if text.len() < MOST_TEXT {
        return Err(Refusal::BufferOverflow);
    }
    if state.place != 0 {
        try_steps(state, position, block)?;
    }
    list_steps(state, position, block, text)
}

// The line that closes a replay, after so many blocks, at the front of `text`, where all of it has room; else 3.
pub fn put_end(blocks: u64, text: &mut [u8]) -> Result<usize, Refusal>
    ensures { WritesAll (end_text blocks) result text.old text.new }
{
    let mut line = [0u8; LONGEST];
    let start = put_numbered(&mut line, LONGEST, b"end ", blocks);
    let len = put_behind(text, 0, &line[start..]);
    if len == 0 {
        return Err(Refusal::BufferOverflow);
    }
    Ok(len)
}
