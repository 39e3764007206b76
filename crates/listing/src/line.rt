// A line of the listing, and its text.
ghost use Rattle.codec.specs.Told.{WritesAll};
ghost use Rattle.text.specs.Putting.{EndsWith};
ghost use Rattle.listing.specs.Text.{text_of, PutsText};

use codec::refusal::Refusal;
use text::{put_behind, put_decimal, put_hex, put_numbered, put_word};

// The records' numbers count from 0; the last number of a read line is the written length.
#[derive(Clone, Copy, Debug, PartialEq, Eq)]
pub enum Line {
    Read(u64, u8, usize),
    Refused(u64, u8),
    Cut(u64),
    End(u64),
}

// No text of a line is longer.
const LONGEST: usize = 64;

// All of a line's text.
fn put_read(text: &mut [u8; LONGEST], count: u64, family: u8, written: usize) -> usize
    ensures { EndsWith (text_of (Line.Read count family written)) result text.new }
{
    let space = put_numbered(text, LONGEST, b" ", written as u64);
    let id = put_hex(text, space, family);
    let word = put_word(text, id, b" read ");
    put_decimal(text, word, count)
}

fn put_refused(text: &mut [u8; LONGEST], count: u64, why: u8) -> usize
    ensures { EndsWith (text_of (Line.Refused count why)) result text.new }
{
    let word = put_numbered(text, LONGEST, b" refused ", why as u64);
    put_decimal(text, word, count)
}

fn put_line(text: &mut [u8; LONGEST], line: Line) -> usize
    ensures { EndsWith (text_of line) result text.new }
{
    match line {
        Line::Read(count, family, written) => put_read(text, count, family, written),
        Line::Refused(count, why) => put_refused(text, count, why),
        Line::Cut(count) => put_numbered(text, LONGEST, b"cut ", count),
        Line::End(count) => put_numbered(text, LONGEST, b"end ", count),
    }
}

// The text at a place of `out`, where all of it has room there: the answer is its length, else 0, as `put_behind` answers.
pub(crate) fn put_text(line: Line, out: &mut [u8], at: usize) -> usize
    ensures { PutsText line at result out.old out.new }
{
    let mut text = [0u8; LONGEST];
    let start = put_line(&mut text, line);
    put_behind(out, at, &text[start..])
}

// The text at the front of `out`, where all of it has room; else 3.
pub fn render(line: Line, out: &mut [u8]) -> Result<usize, Refusal>
    ensures { WritesAll (text_of line) result out.old out.new }
{
    let len = put_text(line, out, 0);
    if len == 0 {
        return Err(Refusal::BufferOverflow);
    }
    Ok(len)
}
