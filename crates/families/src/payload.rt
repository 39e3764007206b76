// The enum of families. A popup's bytes and an ACK's information stand beside it.
ghost use Rattle.std.specs.Prelude.{◌≡◌};
ghost use Rattle.families.specs.Payload.{family_id};

use crate::ack::CommandAck;
use crate::crossfire::CrossfireCommand;
use crate::fc::FcCommand;
use crate::flow_control::FlowControlCommand;
use crate::general::GeneralCommand;
use crate::led::LedCommand;
use crate::osd::OsdCommand;
use crate::screen::ScreenCommand;
use crate::vtx::VtxCommand;

// The Rust's names. An enum of these ids, or of a family's sub-commands, would say the cases of its commands a second time.
pub const COMMAND_ID_FC: u8 = 0x01;

pub const COMMAND_ID_BLUETOOTH: u8 = 0x03;

pub const COMMAND_ID_OSD: u8 = 0x05;

pub const COMMAND_ID_VTX: u8 = 0x08;

pub const COMMAND_ID_LED: u8 = 0x09;

pub const COMMAND_ID_GENERAL: u8 = 0x0A;

pub const COMMAND_ID_CROSSFIRE: u8 = 0x10;

pub const COMMAND_ID_RC_OVER_WIFI: u8 = 0x13;

pub const COMMAND_ID_FLOW_CONTROL: u8 = 0x20;

pub const COMMAND_ID_SCREEN: u8 = 0x22;

pub const COMMAND_ID_ACK: u8 = 0xFF;

#[derive(Clone, Copy)]
pub enum CommandPayload {
    Fc(FcCommand),
    Osd(OsdCommand),
    Vtx(VtxCommand),
    Led(LedCommand),
    General(GeneralCommand),
    Crossfire(CrossfireCommand),
    FlowControl(FlowControlCommand),
    Screen(ScreenCommand),
    Ack(CommandAck),
}

pub fn command_id(payload: CommandPayload) -> u8
    ensures { result ≡ family_id payload }
{
    match payload {
        CommandPayload::Fc(_) => COMMAND_ID_FC,
        CommandPayload::Osd(_) => COMMAND_ID_OSD,
        CommandPayload::Vtx(_) => COMMAND_ID_VTX,
        CommandPayload::Led(_) => COMMAND_ID_LED,
        CommandPayload::General(_) => COMMAND_ID_GENERAL,
        CommandPayload::Crossfire(_) => COMMAND_ID_CROSSFIRE,
        CommandPayload::FlowControl(_) => COMMAND_ID_FLOW_CONTROL,
        CommandPayload::Screen(_) => COMMAND_ID_SCREEN,
        CommandPayload::Ack(_) => COMMAND_ID_ACK,
    }
}
