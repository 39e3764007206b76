// Cases of the replay. Standard input: for each case the length of a log, two bytes, big-endian, and that log. The lines of each are written,
// and `end` with the number of its blocks.
#![tactic(auto)]

use blocks::BLOCK_SIZE;
use replay::Replay;

// For a case's log, and for the lines of one of its blocks.
const ROOM: usize = 65536;

// The first bytes of a text; what would be missing is told by the comparison.
fn write(rt: &HostRuntime, text: &[u8], len: usize) {
    if let Some(lines) = text.get(..len) {
        let _ = rt.write_all(lines);
    }
}

fn replay_block(
    rt: &HostRuntime,
    state: Replay,
    position: u32,
    block: &[u8],
    text: &mut [u8],
) -> Replay {
    match replay_lines::list_block(state, position, block, text) {
        Ok(lines) => {
            write(rt, text, lines.len);
            lines.state
        }
        Err(_) => state,
    }
}

fn close(rt: &HostRuntime, blocks: usize, text: &mut [u8]) {
    if let Ok(len) = replay_lines::put_end(blocks as u64, text) {
        write(rt, text, len);
    }
}

fn replay_log(rt: &HostRuntime, log: &[u8], text: &mut [u8]) {
    let mut state = Replay::new();
    for (position, block) in (0u32..).zip(log.chunks(BLOCK_SIZE)) {
        state = replay_block(rt, state, position, block, text);
    }
    close(rt, log.len().div_ceil(BLOCK_SIZE), text);
}

// A proved loop has to end, and nothing says that the input does: no list has as many cases as this loop has turns.
fn replay_cases(rt: &HostRuntime, space: &mut [u8], text: &mut [u8]) {
    for _ in 0..u64::MAX {
        let Some(log) = console::next_case(rt, space) else {
            return;
        };
        replay_log(rt, log, text);
    }
}

fn main(rt: HostRuntime) {
    let mut space = [0u8; ROOM];
    let mut text = [0u8; ROOM];
    replay_cases(&rt, &mut space, &mut text);
}
