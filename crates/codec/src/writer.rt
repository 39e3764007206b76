// Items put into a lent buffer.
ghost use Rattle.std.specs.Prelude.{◌≡◌, ◌∷◌, []};
ghost use Rattle.std.proofs.lemmas.List.Edits.{sets};
ghost use Rattle.codec.specs.Pick.{pick};
ghost use Rattle.codec.specs.Digits.{bytes_of};
ghost use Rattle.codec.specs.Writing.{stop_room, counted, put_at};
ghost use Rattle.codec.specs.Told.{width_of, bit, told_written, WritesAll};

use crate::reader::{Width, beyond, bytes_of};
use crate::refusal::Refusal;

// 3 unless n bytes have room, else the count n.
fn room_for(room: usize, n: usize) -> Result<usize, Refusal>
    ensures { told_written result ≡ counted (stop_room room n) n }
{
    if room < n {
        Err(Refusal::BufferOverflow)
    } else {
        Ok(n)
    }
}

// 2 unless ok, then 3 unless n bytes have room: VTX, ACK, and each colour of LED.
pub fn values_first(ok: bool, room: usize, n: usize) -> Result<usize, Refusal>
    ensures { told_written result ≡ counted (pick ok (stop_room room n) 2) n }
{
    if ok {
        room_for(room, n)
    } else {
        Err(Refusal::InvalidPayload)
    }
}

// A flag's number. std's conversion under a name: docs/PROMISES.md has its promise, and must-fail/flag_255 its wrong answer.
pub fn bit_of(b: bool) -> u8
    ensures { result ≡ bit b }
{
    u8::from(b)
}

// A number in a width's bytes, where they have room.
pub fn put_number(buffer: &mut [u8], at: usize, width: Width, value: u32)
    ensures { buffer.new ≡ put_at buffer.old at (bytes_of (width_of width) value) }
{
    let count = bytes_of(width);
    if beyond(buffer.len(), at, count) {
        return;
    }
    let digits = value.to_be_bytes();
    let end = at + count;
    buffer[at..end].copy_from_slice(&digits[4 - count..]);
}

// A byte, where it has room.
pub fn put_byte(buffer: &mut [u8], at: usize, value: u8)
    ensures { buffer.new ≡ put_at buffer.old at (value ∷ []) }
{
    if at < buffer.len() {
        buffer[at] = value;
    }
}

// Bytes as they are, where they have room.
pub fn put_bytes(buffer: &mut [u8], at: usize, bytes: &[u8])
    ensures { buffer.new ≡ put_at buffer.old at bytes.now }
{
    if beyond(buffer.len(), at, bytes.len()) {
        return;
    }
    let end = at + bytes.len();
    buffer[at..end].copy_from_slice(bytes);
}

// The lengths of the two bodies below.
pub const SUB_COMMAND_LEN: usize = 1;

pub const WITH_BYTE_LEN: usize = 2;

// A body that is a sub-command alone.
pub fn write_alone(sub: u8, buffer: &mut [u8]) -> Result<usize, Refusal>
    ensures { WritesAll (sub ∷ []) result buffer.old buffer.new }
{
    if buffer.len() < SUB_COMMAND_LEN {
        return Err(Refusal::BufferOverflow);
    }
    buffer[0] = sub;
    Ok(SUB_COMMAND_LEN)
}

// A body that is a sub-command and one byte.
pub fn write_with_byte(sub: u8, value: u8, buffer: &mut [u8]) -> Result<usize, Refusal>
    ensures { WritesAll (sub ∷ value ∷ []) result buffer.old buffer.new }
{
    if buffer.len() < WITH_BYTE_LEN {
        return Err(Refusal::BufferOverflow);
    }
    buffer[0] = sub;
    buffer[1] = value;
    Ok(WITH_BYTE_LEN)
}
