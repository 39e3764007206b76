// Cases of the listing. Standard input: for each case the length of a listing's input, two bytes, big-endian, and that input. The lines of
// each are written as it gives them when fed whole; where it gives others in chunks of 1, 2, 3 or 7 bytes, `differs` follows.
#![tactic(auto)]

ghost use Rattle.std.specs.Prelude.{◌<◌, ◌≤◌, length};

use listing::Listing;
use listing::line::Line;

// More than the two length bytes of a case can say.
const WHOLE: usize = 65536;

// For a case's input, for its listing, and for the same in chunks.
const ROOM: usize = 65536;

// A line's text behind the bytes that are there; a line without room is left out. (`text` with a length: no heap, fixed memory.)
fn put(line: Line, text: &mut [u8], len: usize) -> usize
    requires { len ≤ length text.old }
    ensures { result ≤ length text.old }
{
    match listing::line::render(line, &mut text[len..]) {
        Ok(more) => len + more,
        Err(_) => len,
    }
}

// The whole listing of an input that is fed in chunks of so many bytes: its text, at the front. A stored listing is shorter than the text;
// what had no room would be missing from it, and be told by the comparison.
fn feed(input: &[u8], size: usize, text: &mut [u8]) -> usize
    requires { 0 < size }
    ensures { result ≤ length text.old }
{
    let mut state = Listing::new();
    let mut len: usize = 0;
    for chunk in input.chunks(size) {
        let part = state.fill(chunk, 0, &mut text[len..]);
        state = part.state;
        len += part.len;
    }
    let Ok(line) = state.finish() else {
        return len;
    };
    put(line, text, len)
}

// Whether chunks of so many bytes give the same listing.
fn agrees(input: &[u8], size: usize, listing: &[u8], text: &mut [u8]) -> bool
    requires { 0 < size }
{
    let len = feed(input, size, text);
    listing == &text[..len]
}

fn list_case(rt: &HostRuntime, input: &[u8], whole: &mut [u8], text: &mut [u8]) {
    let len = feed(input, WHOLE, whole);
    let listing = &whole[..len];
    let _ = rt.write_all(listing);
    for size in [1, 2, 3, 7] {
        if !agrees(input, size, listing, text) {
            let _ = rt.write_all(b"differs\n");
            return;
        }
    }
}

// A proved loop has to end, and nothing says that the input does: no list has as many cases as this loop has turns.
fn list_cases(rt: &HostRuntime, space: &mut [u8], whole: &mut [u8], text: &mut [u8]) {
    for _ in 0..u64::MAX {
        let Some(input) = console::next_case(rt, space) else {
            return;
        };
        list_case(rt, input, whole, text);
    }
}

fn main(rt: HostRuntime) {
    let mut space = [0u8; ROOM];
    let mut whole = [0u8; ROOM];
    let mut text = [0u8; ROOM];
    list_cases(&rt, &mut space, &mut whole, &mut text);
}
