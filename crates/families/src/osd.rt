// 0x05 OSD.
ghost use Rattle.std.specs.Prelude.{◌≡◌, ◌≤◌, length};
ghost use Rattle.codec.specs.Writing.{write_body};
ghost use Rattle.codec.specs.Reading.{read_body};
ghost use Rattle.codec.specs.Told.{WritesInOrder};
ghost use Rattle.families.specs.Sheets.{osd_rows};
ghost use Rattle.families.specs.Osd.{osd_says, told_osd};

use codec::reader::read_byte;
use codec::refusal::Refusal;
use codec::writer::{WITH_BYTE_LEN, write_with_byte};

pub const SUB_COMMAND_ID_OSD_SEND_BUTTONS: u8 = 0x01;

// The Rust's one case, SendButtons(buttons).
#[derive(Clone, Copy)]
pub struct OsdCommand {
    pub buttons: u8,
}

pub fn read(body: &[u8]) -> Result<OsdCommand, Refusal>
    ensures { told_osd result ≡ read_body osd_rows body.now }
{
    match read_byte(body, 0)? {
        SUB_COMMAND_ID_OSD_SEND_BUTTONS => Ok(OsdCommand {
            buttons: read_byte(body, 1)?,
        }),
        _ => Err(Refusal::InvalidPayload),
    }
}

pub fn write_to(command: OsdCommand, body: &mut [u8]) -> Result<usize, Refusal>
    ensures { WritesInOrder osd_rows (osd_says command) result body.old body.new }
{
    write_with_byte(SUB_COMMAND_ID_OSD_SEND_BUTTONS, command.buttons, body)
}

// How many bytes `write_to` writes, counted and not written.
pub fn written_len(command: OsdCommand) -> usize
    ensures value { result ≡ length (write_body osd_rows (osd_says command)) }
    ensures upper_bound { result ≤ 9 }
{
    WITH_BYTE_LEN
}
