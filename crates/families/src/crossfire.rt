// 0x10 Crossfire.
ghost use Rattle.std.specs.Prelude.{◌≡◌, ◌≤◌, length};
ghost use Rattle.codec.specs.Writing.{write_body};
ghost use Rattle.codec.specs.Reading.{read_body};
ghost use Rattle.codec.specs.Told.{WritesInOrder};
ghost use Rattle.families.specs.Sheets.{crossfire_rows};
ghost use Rattle.families.specs.Crossfire.{crossfire_says, told_crossfire};

use codec::reader::read_byte;
use codec::refusal::Refusal;
use codec::writer::{SUB_COMMAND_LEN, WITH_BYTE_LEN, write_alone, write_with_byte};

pub const SUB_COMMAND_ID_CROSSFIRE_SET_RECEIVER_IN_BIND_MODE: u8 = 0x01;

pub const SUB_COMMAND_ID_CROSSFIRE_CANCEL_BIND_MODE: u8 = 0x02;

pub const SUB_COMMAND_ID_CROSSFIRE_SET_BIND_ID: u8 = 0x03;

pub const SUB_COMMAND_ID_CROSSFIRE_MODEL_SELECTION: u8 = 0x05;

pub const SUB_COMMAND_ID_CROSSFIRE_CURRENT_MODEL_SELECTION: u8 = 0x06;

pub const SUB_COMMAND_ID_CROSSFIRE_REPLY_CURRENT_MODEL_SELECTION: u8 = 0x07;

pub const SUB_COMMAND_ID_CROSSFIRE_ENABLE_RX_TELEMETRY: u8 = 0x0A;

pub const SUB_COMMAND_ID_CROSSFIRE_DISABLE_RX_TELEMETRY: u8 = 0x0B;

pub const SUB_COMMAND_ID_CROSSFIRE_FACTORY_RESET: u8 = 0x0C;

pub const SUB_COMMAND_ID_CROSSFIRE_RESET_TO_FACTORY_FIRMWARE: u8 = 0x0D;

#[derive(Clone, Copy)]
pub enum CrossfireCommand {
    SetReceiverInBindMode,
    CancelBindMode,
    SetBindId,
    ModelSelection(u8),
    CurrentModelSelection,
    ReplyCurrentModelSelection(u8),
    EnableRxTelemetry,
    DisableRxTelemetry,
    FactoryReset,
    ResetToFactoryFirmware,
}

pub fn read(body: &[u8]) -> Result<CrossfireCommand, Refusal>
    ensures { told_crossfire result ≡ read_body crossfire_rows body.now }
{
    Ok(match read_byte(body, 0)? {
        SUB_COMMAND_ID_CROSSFIRE_SET_RECEIVER_IN_BIND_MODE =>
            CrossfireCommand::SetReceiverInBindMode,
        SUB_COMMAND_ID_CROSSFIRE_CANCEL_BIND_MODE => CrossfireCommand::CancelBindMode,
        SUB_COMMAND_ID_CROSSFIRE_SET_BIND_ID => CrossfireCommand::SetBindId,
        SUB_COMMAND_ID_CROSSFIRE_MODEL_SELECTION => CrossfireCommand::ModelSelection(read_byte(
            body, 1,
        )?),
        SUB_COMMAND_ID_CROSSFIRE_CURRENT_MODEL_SELECTION => CrossfireCommand::CurrentModelSelection,
        SUB_COMMAND_ID_CROSSFIRE_REPLY_CURRENT_MODEL_SELECTION =>
            CrossfireCommand::ReplyCurrentModelSelection(read_byte(body, 1)?),
        SUB_COMMAND_ID_CROSSFIRE_ENABLE_RX_TELEMETRY => CrossfireCommand::EnableRxTelemetry,
        SUB_COMMAND_ID_CROSSFIRE_DISABLE_RX_TELEMETRY => CrossfireCommand::DisableRxTelemetry,
        SUB_COMMAND_ID_CROSSFIRE_FACTORY_RESET => CrossfireCommand::FactoryReset,
        SUB_COMMAND_ID_CROSSFIRE_RESET_TO_FACTORY_FIRMWARE =>
            CrossfireCommand::ResetToFactoryFirmware,
        _ => return Err(Refusal::InvalidPayload),
    })
}

pub fn write_to(command: CrossfireCommand, body: &mut [u8]) -> Result<usize, Refusal>
    ensures { WritesInOrder crossfire_rows (crossfire_says command) result body.old body.new }
{
    match command {
        CrossfireCommand::SetReceiverInBindMode => write_alone(
            SUB_COMMAND_ID_CROSSFIRE_SET_RECEIVER_IN_BIND_MODE,
            body,
        ),
        CrossfireCommand::CancelBindMode => write_alone(
            SUB_COMMAND_ID_CROSSFIRE_CANCEL_BIND_MODE,
            body,
        ),
        CrossfireCommand::SetBindId => write_alone(SUB_COMMAND_ID_CROSSFIRE_SET_BIND_ID, body),
        CrossfireCommand::ModelSelection(model) => write_with_byte(
            SUB_COMMAND_ID_CROSSFIRE_MODEL_SELECTION,
            model,
            body,
        ),
        CrossfireCommand::CurrentModelSelection => write_alone(
            SUB_COMMAND_ID_CROSSFIRE_CURRENT_MODEL_SELECTION,
            body,
        ),
        CrossfireCommand::ReplyCurrentModelSelection(model) => write_with_byte(
            SUB_COMMAND_ID_CROSSFIRE_REPLY_CURRENT_MODEL_SELECTION,
            model,
            body,
        ),
        CrossfireCommand::EnableRxTelemetry => write_alone(
            SUB_COMMAND_ID_CROSSFIRE_ENABLE_RX_TELEMETRY,
            body,
        ),
        CrossfireCommand::DisableRxTelemetry => write_alone(
            SUB_COMMAND_ID_CROSSFIRE_DISABLE_RX_TELEMETRY,
            body,
        ),
        CrossfireCommand::FactoryReset => write_alone(SUB_COMMAND_ID_CROSSFIRE_FACTORY_RESET, body),
        CrossfireCommand::ResetToFactoryFirmware => write_alone(
            SUB_COMMAND_ID_CROSSFIRE_RESET_TO_FACTORY_FIRMWARE,
            body,
        ),
    }
}

// How many bytes `write_to` writes, counted and not written.
pub fn written_len(command: CrossfireCommand) -> usize
    ensures value { result ≡ length (write_body crossfire_rows (crossfire_says command)) }
    ensures upper_bound { result ≤ 9 }
{
    match command {
        CrossfireCommand::SetReceiverInBindMode => SUB_COMMAND_LEN,
        CrossfireCommand::CancelBindMode => SUB_COMMAND_LEN,
        CrossfireCommand::SetBindId => SUB_COMMAND_LEN,
        CrossfireCommand::ModelSelection(_) => WITH_BYTE_LEN,
        CrossfireCommand::CurrentModelSelection => SUB_COMMAND_LEN,
        CrossfireCommand::ReplyCurrentModelSelection(_) => WITH_BYTE_LEN,
        CrossfireCommand::EnableRxTelemetry => SUB_COMMAND_LEN,
        CrossfireCommand::DisableRxTelemetry => SUB_COMMAND_LEN,
        CrossfireCommand::FactoryReset => SUB_COMMAND_LEN,
        CrossfireCommand::ResetToFactoryFirmware => SUB_COMMAND_LEN,
    }
}
