// The payload of a frame of type 0x32, whole: the Rust's commands.rs.
#![tactic(auto)]

ghost use Rattle.std.specs.Prelude.{◌≡◌, length};
ghost use Rattle.codec.specs.Refusals.{outcome_number};
ghost use Rattle.commands.specs.Command.{blank_command};
ghost use Rattle.commands.specs.Reading.{read_command, CommandIs};
ghost use Rattle.commands.specs.Kind.{stop_reading};
ghost use Rattle.commands.specs.Writing.{payload_of, WritesCommand};

use codec::refusal::Refusal;
use families::fc::FcCommand;
use families::payload::CommandPayload;
use families::screen::MAX_POPUP_DATA_LEN;

pub mod kind;
mod reading;
mod writing;

// "The largest length is 60."
const MAX_PAYLOAD_SIZE: usize = 60;

// A command. A popup's bytes and an ACK's information stand beside its family's enum, length and bytes side by side: no heap.
#[derive(Clone, Copy)]
pub struct DirectCommands {
    pub dst_addr: u8,
    pub src_addr: u8,
    pub payload: CommandPayload,
    pub len: usize,
    pub bytes: [u8; MAX_POPUP_DATA_LEN],
}

impl DirectCommands {
    // "The least length and the frame type belong to the payload type: 4 and 0x32."
    pub const MIN_PAYLOAD_SIZE: usize = 4;

    // The first byte of the message that is checked.
    pub const PACKET_TYPE: u8 = 0x32;

    // Disarm, both addresses 0, no stored bytes.
    pub fn blank() -> DirectCommands
        ensures { result ≡ blank_command }
    {
        DirectCommands {
            dst_addr: 0,
            src_addr: 0,
            payload: CommandPayload::Fc(FcCommand::ForceDisarm),
            len: 0,
            bytes: [0u8; MAX_POPUP_DATA_LEN],
        }
    }

    pub fn from_bytes(payload: &[u8]) -> Result<DirectCommands, Refusal>
        ensures { CommandIs (read_command payload.now) result }
    {
        judge(payload)?;
        let mut command: DirectCommands = reading::read_family(
            payload[2],
            &payload[3..payload.len() - 1],
        )?;
        command.dst_addr = payload[0];
        command.src_addr = payload[1];
        Ok(command)
    }

    // Into the front of the buffer, the rest of which keeps its bytes; refused, all do.
    pub fn to_bytes(self, buffer: &mut [u8]) -> Result<usize, Refusal>
        ensures { WritesCommand self result buffer.old buffer.new }
    {
        if !self.is_made() {
            return Err(Refusal::RecordNotMade);
        }
        if buffer.len() < Self::MIN_PAYLOAD_SIZE {
            return Err(Refusal::BufferOverflow);
        }
        self.write_made(buffer)
    }

    // How many bytes `to_bytes` writes, counted and not written.
    pub fn written_len(self) -> usize
        ensures { result ≡ length (payload_of self) }
    {
        self.body_len() + Self::MIN_PAYLOAD_SIZE
    }
}

// "Length below 4 or above 60: 1. Check differs: 2."
pub(crate) fn judge(payload: &[u8]) -> Result<(), Refusal>
    ensures { outcome_number result ≡ stop_reading payload.now }
{
    let n = payload.len();
    if n < DirectCommands::MIN_PAYLOAD_SIZE {
        return Err(Refusal::InvalidPayloadLength);
    }
    if MAX_PAYLOAD_SIZE < n {
        return Err(Refusal::InvalidPayloadLength);
    }
    let check = crc::payload_check(DirectCommands::PACKET_TYPE, payload);
    if payload[n - 1] != check {
        return Err(Refusal::InvalidPayload);
    }
    Ok(())
}
