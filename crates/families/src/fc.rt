// 0x01 FC.
ghost use Rattle.std.specs.Prelude.{◌≡◌, ◌≤◌, length};
ghost use Rattle.codec.specs.Writing.{write_body};
ghost use Rattle.codec.specs.Reading.{read_body};
ghost use Rattle.codec.specs.Told.{WritesInOrder};
ghost use Rattle.families.specs.Sheets.{fc_rows};
ghost use Rattle.families.specs.Fc.{fc_says, told_fc};

use codec::reader::read_byte;
use codec::refusal::Refusal;
use codec::writer::{SUB_COMMAND_LEN, write_alone};

pub const SUB_COMMAND_ID_FC_FORCE_DISARM: u8 = 0x01;

pub const SUB_COMMAND_ID_FC_SCALE_CHANNEL: u8 = 0x02;

#[derive(Clone, Copy)]
pub enum FcCommand {
    ForceDisarm,
    ScaleChannel,
}

pub fn read(body: &[u8]) -> Result<FcCommand, Refusal>
    ensures { told_fc result ≡ read_body fc_rows body.now }
{
    match read_byte(body, 0)? {
        SUB_COMMAND_ID_FC_FORCE_DISARM => Ok(FcCommand::ForceDisarm),
        SUB_COMMAND_ID_FC_SCALE_CHANNEL => Ok(FcCommand::ScaleChannel),
        _ => Err(Refusal::InvalidPayload),
    }
}

pub fn write_to(command: FcCommand, body: &mut [u8]) -> Result<usize, Refusal>
    ensures { WritesInOrder fc_rows (fc_says command) result body.old body.new }
{
    match command {
        FcCommand::ForceDisarm => write_alone(SUB_COMMAND_ID_FC_FORCE_DISARM, body),
        FcCommand::ScaleChannel => write_alone(SUB_COMMAND_ID_FC_SCALE_CHANNEL, body),
    }
}

// How many bytes `write_to` writes, counted and not written.
pub fn written_len(command: FcCommand) -> usize
    ensures value { result ≡ length (write_body fc_rows (fc_says command)) }
    ensures upper_bound { result ≤ 9 }
{
    match command {
        FcCommand::ForceDisarm => SUB_COMMAND_LEN,
        FcCommand::ScaleChannel => SUB_COMMAND_LEN,
    }
}
