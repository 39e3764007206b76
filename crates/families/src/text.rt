// Texts, and stored bytes: a fixed array with a length in place of the Rust's Vec.
ghost use Rattle.std.specs.Prelude.{◌≡◌, ◌≤◌, ◌+◌, length, take, drop};
ghost use Rattle.codec.specs.Writing.{nonzero};
ghost use Rattle.families.specs.Text.{zeros, made_bytes, made_text, padded, text_of, new_text, TextIs};

use codec::reader::MAX_COMMAND_STRING_LEN;
use codec::refusal::Refusal;

// Length and bytes stand side by side: no heap.
#[derive(Clone, Copy)]
pub struct CommandString {
    pub len: usize,
    pub bytes: [u8; MAX_COMMAND_STRING_LEN],
}

pub(crate) fn all_nonzero(s: &[u8]) -> bool
    ensures { result ≡ nonzero s.now }
{
    s.iter().all(|byte| *byte != 0)
}

// No way out before the end, so that the compiler takes many bytes at a time.
pub fn all_zero(s: &[u8]) -> bool
    ensures { result ≡ zeros s.now }
{
    let mut seen: u8 = 0;
    for byte in s {
        seen |= *byte;
    }
    seen == 0
}

pub(crate) fn zero_after(s: &[u8], n: usize) -> bool
    requires { n ≤ length s.now }
    ensures { result ≡ zeros (drop n s.now) }
{
    all_zero(&s[n..])
}

// Stored bytes: at most so many, nonzero, and zeros after them.
pub fn made_bytes(bytes: &[u8], len: usize, most: usize) -> bool
    ensures { result ≡ made_bytes most len bytes.now }
{
    if most < len {
        return false;
    }
    if bytes.len() < len {
        return all_nonzero(bytes);
    }
    if all_nonzero(&bytes[..len]) {
        return zero_after(bytes, len);
    }
    false
}

// The bytes, and zeros behind them.
pub(crate) fn padded<const N: usize>(bytes: &[u8]) -> [u8; N]
    requires { length bytes.now ≤ N }
    ensures { result ≡ padded N bytes.now }
{
    let mut out = [0u8; N];
    let n = bytes.len();
    out[..n].copy_from_slice(bytes);
    out
}

impl CommandString {
    // The text of these bytes.
    pub(crate) fn of(bytes: &[u8]) -> CommandString
        requires { length bytes.now ≤ 51 }
        ensures { result ≡ text_of bytes.now }
    {
        CommandString {
            len: bytes.len(),
            bytes: padded(bytes),
        }
    }

    // "a zero byte 2, then over 51 bytes 1"
    pub fn new(bytes: &[u8]) -> Result<CommandString, Refusal>
        ensures { TextIs (new_text bytes.now) result }
    {
        if !all_nonzero(bytes) {
            return Err(Refusal::InvalidPayload);
        }
        if MAX_COMMAND_STRING_LEN < bytes.len() {
            return Err(Refusal::InvalidPayloadLength);
        }
        Ok(CommandString::of(bytes))
    }

    pub(crate) fn made(self) -> bool
        ensures { result ≡ made_text self }
    {
        let bytes = self.bytes;
        made_bytes(&bytes, self.len, MAX_COMMAND_STRING_LEN)
    }
}

// How many there are of the first `len` bytes.
pub(crate) fn stored_len(bytes: &[u8], len: usize) -> usize
    ensures value { result ≡ length (take len bytes.now) }
    ensures upper_bound { result ≤ length bytes.now }
{
    if bytes.len() < len { bytes.len() } else { len }
}
