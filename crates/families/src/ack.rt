// 0xFF ACK.
ghost use Rattle.std.specs.Prelude.{◌≡◌, ◌≤◌, ◌+◌, length, take, drop};
ghost use Rattle.std.proofs.lemmas.List.Edits.{sets};
ghost use Rattle.codec.specs.Writing.{write_items};
ghost use Rattle.families.specs.Ack.{ack_items, read_ack, ack_with, ack_says, WritesAck, new_ack, acked, AckIs, made_information};

use crate::screen::MAX_POPUP_DATA_LEN;
use codec::reader::read_text;
use codec::refusal::Refusal;
use codec::writer::{put_bytes, values_first};

// "information up to 52 bytes"
pub(crate) const MAX_ACK_INFORMATION_LEN: usize = 52;

// Behind command id, sub id and action.
const INFORMATION_AT: usize = 3;

// These three, and the 00 behind the information.
const LEN_WITHOUT_INFORMATION: usize = 4;

// The information stands beside it.
#[derive(Clone, Copy)]
pub struct CommandAck {
    pub command_id: u8,
    pub sub_command_id: u8,
    pub action: u8,
}

// An ACK, and its information, length and bytes side by side: no heap.
#[derive(Clone, Copy)]
pub struct AckRead {
    pub ack: CommandAck,
    pub len: usize,
    pub bytes: [u8; MAX_POPUP_DATA_LEN],
}

impl CommandAck {
    // The ACK, with its information.
    fn with_information(self, information: &[u8]) -> AckRead
        requires { length information.now ≤ 52 }
        ensures { result ≡ acked (ack_says self information.now) }
    {
        AckRead {
            ack: self,
            len: information.len(),
            bytes: crate::text::padded(information),
        }
    }

    // "over 52 bytes 1, then action above 1 or a zero byte 2"
    pub fn new(
        command_id: u8,
        sub_command_id: u8,
        action: u8,
        information: &[u8],
    ) -> Result<AckRead, Refusal>
        ensures { AckIs (new_ack (ack_with command_id sub_command_id action) information.now) result }
    {
        if MAX_ACK_INFORMATION_LEN < information.len() {
            return Err(Refusal::InvalidPayloadLength);
        }
        if 1 < action {
            return Err(Refusal::InvalidPayload);
        }
        if !crate::text::all_nonzero(information) {
            return Err(Refusal::InvalidPayload);
        }
        let ack = CommandAck {
            command_id,
            sub_command_id,
            action,
        };
        Ok(ack.with_information(information))
    }
}

// "below 3 body bytes 1, no 00 from byte 3 on 1, then action above 1: 2"
pub fn read(body: &[u8]) -> Result<AckRead, Refusal>
    ensures { AckIs (read_ack body.now) result }
{
    if body.len() < INFORMATION_AT {
        return Err(Refusal::InvalidPayloadLength);
    }
    let text = read_text(body, INFORMATION_AT, MAX_ACK_INFORMATION_LEN)?;
    if 1 < body[2] {
        return Err(Refusal::InvalidPayload);
    }
    let ack = CommandAck {
        command_id: body[0],
        sub_command_id: body[1],
        action: body[2],
    };
    Ok(ack.with_information(&body[INFORMATION_AT..INFORMATION_AT + text.len]))
}

// The ACK and its information, into a body that has room for them.
fn put(ack: CommandAck, information: &[u8], body: &mut [u8])
    requires { length information.now + 4 ≤ length body.old }
    ensures { body.new ≡ sets body.old 0 (write_items ack_items (ack_says ack information.now)) }
{
    body[0] = ack.command_id;
    body[1] = ack.sub_command_id;
    body[2] = ack.action;
    put_bytes(body, INFORMATION_AT, information);
    body[INFORMATION_AT + information.len()] = 0;
}

// The same, "values first (2), then .. room (3)".
fn write_all(ack: CommandAck, information: &[u8], body: &mut [u8]) -> Result<usize, Refusal>
    ensures { WritesAck ack information.now result body.old body.new }
{
    let n = values_first(
        ack.action <= 1,
        body.len(),
        information.len() + LEN_WITHOUT_INFORMATION,
    )?;
    put(ack, information, body);
    Ok(n)
}

// The information is the first len of the bytes; where there are fewer, all of them.
pub fn write_to(
    ack: CommandAck,
    bytes: &[u8],
    len: usize,
    body: &mut [u8],
) -> Result<usize, Refusal>
    ensures { WritesAck ack (take len bytes.now) result body.old body.new }
{
    if len < bytes.len() {
        write_all(ack, &bytes[..len], body)
    } else {
        write_all(ack, bytes, body)
    }
}

// Stored information; "An ACK's action is outside this and is judged on writing."
pub fn made(bytes: &[u8], len: usize) -> bool
    ensures { result ≡ made_information len bytes.now }
{
    crate::text::made_bytes(bytes, len, MAX_ACK_INFORMATION_LEN)
}

// How many bytes `write_to` writes, counted and not written.
pub fn written_len(ack: CommandAck, bytes: &[u8], len: usize) -> usize
    ensures value { result ≡ length (write_items ack_items (ack_says ack (take len bytes.now))) }
    ensures upper_bound { result ≤ length bytes.now + 9 }
{
    crate::text::stored_len(bytes, len) + LEN_WITHOUT_INFORMATION
}
