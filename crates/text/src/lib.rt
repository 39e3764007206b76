// The pieces of a line's text, in ASCII. A text is made from its end to its start: each piece is put in front of what stands from a place
// on, and the answer is where it starts. Nothing here reads or writes.
#![tactic(auto)]

ghost use Rattle.std.specs.Prelude.{◌≡◌, ◌<◌};
ghost use Rattle.text.specs.Pieces.{hex_digit, hex_of, decimal, numbered_text};
ghost use Rattle.text.specs.Putting.{PutsBefore, PutsBehind};

use itoa::write_digits;

// A number below 2^64 has no more.
const MOST_DIGITS: usize = 20;

// With a line's end behind them.
const LONGEST_END: usize = 21;

// (By hand: std writes all digits of a number, and no zero in front.)
fn hex_digit(value: u8) -> u8
    requires { value < 16 }
    ensures { result ≡ hex_digit value }
{
    if value < 10 {
        b'0' + value
    } else {
        b'A' + (value - 10)
    }
}

// These bytes in front of what stands from `at` on. Where they have no room there, nothing changes and the answer is `at`.
pub fn put_word(text: &mut [u8], at: usize, word: &[u8]) -> usize
    ensures { PutsBefore word.now at result text.old text.new }
{
    if at < word.len() {
        return at;
    }
    if text.len() < at {
        return at;
    }
    let start = at - word.len();
    codec::writer::put_bytes(text, start, word);
    start
}

// The same of a number's decimal digits.
pub fn put_decimal(text: &mut [u8], at: usize, number: u64) -> usize
    ensures { PutsBefore (decimal number) at result text.old text.new }
{
    let mut digits = [0u8; MOST_DIGITS];
    let start = write_digits(number, &mut digits, MOST_DIGITS);
    put_word(text, at, &digits[start..])
}

// The same of a byte's two upper-case hexadecimal digits.
pub fn put_hex(text: &mut [u8], at: usize, byte: u8) -> usize
    ensures { PutsBefore (hex_of byte) at result text.old text.new }
{
    let digits = [hex_digit(byte / 16), hex_digit(byte % 16)];
    put_word(text, at, &digits)
}

// The same of a word, a line's last number and its end, together.
pub fn put_numbered(text: &mut [u8], at: usize, word: &[u8], number: u64) -> usize
    ensures { PutsBefore (numbered_text word.now number) at result text.old text.new }
{
    let mut end = [b'\n'; LONGEST_END];
    let digits = write_digits(number, &mut end, MOST_DIGITS);
    if at < word.len() + (LONGEST_END - digits) {
        return at;
    }
    let place = put_word(text, at, &end[digits..]);
    put_word(text, place, word)
}

// A whole text behind the text that waits, at a place of `out`, where all of it has room there: the answer is its length, else 0.
// (A number and no Option: what may not change, `PutsBehind` says 0.)
pub fn put_behind(out: &mut [u8], at: usize, line: &[u8]) -> usize
    ensures { PutsBehind line.now at result out.old out.new }
{
    if out.len() < at {
        return 0;
    }
    if out.len() - at < line.len() {
        return 0;
    }
    codec::writer::put_bytes(out, at, line);
    line.len()
}
