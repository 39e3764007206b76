// Items read from a slice and a position, a position past the end being a missing byte; or taken from the front by a Reader.
ghost use Rattle.std.specs.Prelude.{◌≡◌, ◌≤◌, ◌<◌, ◌+◌, ◌*◌, ◌^◌, length, take, drop, ltb, Some, None};
ghost use Rattle.codec.specs.Pick.{pick};
ghost use Rattle.codec.specs.Digits.{number_of};
ghost use Rattle.codec.specs.Sheet.{number, byte, word, long};
ghost use Rattle.codec.specs.Told.{width_of, told_number};
ghost use Rattle.codec.specs.Reading.{before0};
ghost use Rattle.codec.specs.Taking.{ReadsNumber, ReadsText, TakesNumber, TakesFlag, TakesText, BehindNumber, BehindText};

use crate::refusal::Refusal;

#[derive(Clone, Copy)]
pub enum Width {
    One,
    Two,
    Three,
    Four,
}

// "A text is up to 51 nonzero bytes, then 00."
pub const MAX_COMMAND_STRING_LEN: usize = 51;

// A text: how many bytes stand before its 00, and the place after it.
#[derive(Clone, Copy)]
pub struct TextRead {
    pub len: usize,
    pub next: usize,
}

// How many bytes.
pub(crate) fn bytes_of(w: Width) -> usize
    ensures { (result ≡ width_of w) × ((0 < result) × (result ≤ 4)) }
{
    match w {
        Width::One => 1,
        Width::Two => 2,
        Width::Three => 3,
        Width::Four => 4,
    }
}

// Whether n bytes at a place go beyond a length; the sum could be too large for a machine number.
pub(crate) fn beyond(len: usize, at: usize, n: usize) -> bool
    ensures { result ≡ ltb len (at + n) }
{
    if len < n { true } else { len - n < at }
}

// The number in w bytes at a place.
fn number_at(s: &[u8], at: usize, w: usize) -> u32
    requires { (at + w ≤ length s.now) × (w ≤ 4) }
    ensures { (result ≡ number_of (take w (drop at s.now))) × (result < 2 ^ (8 * w)) }
{
    let end = at + w;
    let mut n: u64 = 0;
    for byte in &s[at..end] {
        n = n * 256 + *byte as u64;
    }
    n as u32
}

// A number of a width, within low and high.
pub fn read_number(
    bytes: &[u8],
    at: usize,
    width: Width,
    low: u32,
    high: u32,
) -> Result<u32, Refusal>
    ensures { ReadsNumber (number (width_of width) low high) high result (drop at bytes.now) }
{
    let count = bytes_of(width);
    if beyond(bytes.len(), at, count) {
        return Err(Refusal::InvalidPayloadLength);
    }
    let n = number_at(bytes, at, count);
    if n < low {
        return Err(Refusal::InvalidPayload);
    }
    if high < n {
        return Err(Refusal::InvalidPayload);
    }
    Ok(n)
}

// A byte and a word, as the sheets call them.
pub fn read_byte(bytes: &[u8], at: usize) -> Result<u8, Refusal>
    ensures { ReadsNumber byte 255 result (drop at bytes.now) }
{
    Ok(read_number(bytes, at, Width::One, 0, 255)? as u8)
}

pub fn read_word(bytes: &[u8], at: usize) -> Result<u16, Refusal>
    ensures { ReadsNumber word 65535 result (drop at bytes.now) }
{
    Ok(read_number(bytes, at, Width::Two, 0, 65535)? as u16)
}

// All but the first n bytes; none where there are fewer.
fn all_but(s: &[u8], n: usize) -> &[u8]
    ensures { result.now ≡ drop n s.now }
{
    let len = s.len();
    if len < n {
        return &s[len..];
    }
    &s[n..]
}

// The place of the first 00.
fn zero_in(s: &[u8]) -> Option<usize>
    ensures { result ≡ pick (ltb (length (before0 s.now)) (length s.now)) (Some (length (before0 s.now))) None }
{
    s.iter().position(|byte| *byte == 0)
}

// A text of at most so many bytes.
pub fn read_text(bytes: &[u8], at: usize, most: usize) -> Result<TextRead, Refusal>
    ensures { ReadsText most result bytes.now at }
{
    let Some(len) = zero_in(all_but(bytes, at)) else {
        return Err(Refusal::InvalidPayloadLength);
    };
    if most < len {
        return Err(Refusal::InvalidPayloadLength);
    }
    Ok(TextRead {
        len,
        next: at + len + 1,
    })
}

// The bytes behind a number of n bytes that was read at the front. After a refusal nothing is left to come.
fn behind_number(s: &[u8], got: Result<u32, Refusal>, n: usize) -> &[u8]
    ensures { BehindNumber n (told_number got) s.now result.now }
{
    match got {
        Ok(_) => all_but(s, n),
        Err(_) => all_but(s, s.len()),
    }
}

fn behind_text(s: &[u8], got: Result<TextRead, Refusal>) -> &[u8]
    ensures { BehindText got s.now result.now }
{
    match got {
        Ok(text) => all_but(s, text.next),
        Err(_) => &s[s.len()..],
    }
}

// The Rust's Reader: it holds the bytes still to come, and an item is taken from their front. After a refusal none are left to come, while
// the Rust's keeps those there were; no caller looks at what is read after a refusal.
#[derive(Drop)]
pub struct Reader<'a> {
    pub remaining: &'a [u8],
}

impl<'a> Reader<'a> {
    pub fn new(bytes: &'a [u8]) -> Reader<'a>
        ensures { result.remaining ≡ bytes.entry }
    {
        Reader { remaining: bytes }
    }

    // A number of a width, up to high.
    fn number(&mut self, width: Width, high: u32) -> Result<u32, Refusal>
        ensures { TakesNumber (number (width_of width) 0 high) high result self.old.remaining.now self.new.remaining.now }
    {
        let s = self.remaining;
        let got = read_number(s, 0, width, 0, high);
        self.remaining = behind_number(s, got, bytes_of(width));
        got
    }

    pub fn byte(&mut self) -> Result<u8, Refusal>
        ensures { TakesNumber byte 255 result self.old.remaining.now self.new.remaining.now }
    {
        Ok(self.number(Width::One, 255)? as u8)
    }

    pub fn u16(&mut self) -> Result<u16, Refusal>
        ensures { TakesNumber word 65535 result self.old.remaining.now self.new.remaining.now }
    {
        Ok(self.number(Width::Two, 65535)? as u16)
    }

    // A colour's three bytes, where the Rust takes two and one: "A colour is one item."
    pub fn u24(&mut self) -> Result<u32, Refusal>
        ensures { TakesNumber (number 3 0 16777215) 16777215 result self.old.remaining.now self.new.remaining.now }
    {
        self.number(Width::Three, 16777215)
    }

    pub fn u32(&mut self) -> Result<u32, Refusal>
        ensures { TakesNumber long 4294967295 result self.old.remaining.now self.new.remaining.now }
    {
        self.number(Width::Four, u32::MAX)
    }

    pub fn boolean(&mut self) -> Result<bool, Refusal>
        ensures { TakesFlag result self.old.remaining.now self.new.remaining.now }
    {
        Ok(self.number(Width::One, 1)? == 1)
    }

    // The text stands at the front of the bytes that there were.
    pub fn string(&mut self) -> Result<TextRead, Refusal>
        ensures { TakesText result self.old.remaining.now self.new.remaining.now }
    {
        let s = self.remaining;
        let got = read_text(s, 0, MAX_COMMAND_STRING_LEN);
        self.remaining = behind_text(s, got);
        got
    }
}
