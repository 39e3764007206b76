// A body, by its command id; and what is kept of it: the command, or its kind alone.
ghost use Rattle.std.specs.Prelude.{◌≡◌, [], List, ℕ, length};
ghost use Rattle.codec.specs.Sheet.{got, and_then};
ghost use Rattle.codec.specs.Refusals.{told};
ghost use Rattle.families.specs.Text.{padded};
ghost use Rattle.commands.specs.Command.{WithStored, with_stored, command_of};
ghost use Rattle.families.specs.Ack.{read_ack};
ghost use Rattle.families.specs.Screen.{read_screen};
ghost use Rattle.commands.specs.Reading.{read_family, screen_with_stored, ack_with_stored};

use crate::DirectCommands;
use codec::refusal::Refusal;
use families::payload::{
    COMMAND_ID_ACK, COMMAND_ID_BLUETOOTH, COMMAND_ID_CROSSFIRE, COMMAND_ID_FC,
    COMMAND_ID_FLOW_CONTROL, COMMAND_ID_GENERAL, COMMAND_ID_LED, COMMAND_ID_OSD,
    COMMAND_ID_RC_OVER_WIFI, COMMAND_ID_SCREEN, COMMAND_ID_VTX, CommandPayload,
};
use families::screen::MAX_POPUP_DATA_LEN;

// What is kept of a family's command and of the bytes stored beside it.
pub(crate) trait Kept {
    ghost kept: { WithStored → Self };

    // Of a command that stores no bytes.
    fn alone(payload: CommandPayload) -> Self
        ensures { result ≡ kept (with_stored payload []) };

    // The first len of the bytes are stored; the others are zeros.
    fn beside(payload: CommandPayload, len: usize, bytes: [u8; MAX_POPUP_DATA_LEN]) -> Self
        ensures { (t : List ℕ) → len ≡ length t → bytes ≡ padded 55 t → result ≡ kept (with_stored payload t) };
}

// The addresses stand before the body.
impl Kept for DirectCommands {
    ghost kept = { command_of 0 0 };

    fn alone(payload: CommandPayload) -> DirectCommands {
        DirectCommands {
            dst_addr: 0,
            src_addr: 0,
            payload,
            len: 0,
            bytes: [0u8; MAX_POPUP_DATA_LEN],
        }
    }

    fn beside(
        payload: CommandPayload,
        len: usize,
        bytes: [u8; MAX_POPUP_DATA_LEN],
    ) -> DirectCommands {
        DirectCommands {
            dst_addr: 0,
            src_addr: 0,
            payload,
            len,
            bytes,
        }
    }
}

pub(crate) fn read_family<K: Kept>(id: u8, body: &[u8]) -> Result<K, Refusal>
    ensures { told (λ k. k) result ≡ and_then (read_family id body.now) (λ k. got (K.kept k)) }
{
    match id {
        COMMAND_ID_FC => Ok(K::alone(CommandPayload::Fc(families::fc::read(body)?))),
        COMMAND_ID_OSD => Ok(K::alone(CommandPayload::Osd(families::osd::read(body)?))),
        COMMAND_ID_VTX => Ok(K::alone(CommandPayload::Vtx(families::vtx::read(body)?))),
        COMMAND_ID_LED => Ok(K::alone(CommandPayload::Led(families::led::read(body)?))),
        COMMAND_ID_GENERAL => Ok(K::alone(CommandPayload::General(families::general::read(body)?))),
        COMMAND_ID_CROSSFIRE => Ok(K::alone(CommandPayload::Crossfire(families::crossfire::read(
            body,
        )?))),
        COMMAND_ID_FLOW_CONTROL => Ok(K::alone(CommandPayload::FlowControl(
            families::flow_control::read(body)?,
        ))),
        COMMAND_ID_SCREEN => read_screen(body),
        COMMAND_ID_ACK => read_ack(body),
        COMMAND_ID_BLUETOOTH => Err(Refusal::FamilyLeftBehind),
        COMMAND_ID_RC_OVER_WIFI => Err(Refusal::FamilyLeftBehind),
        _ => Err(Refusal::InvalidPayload),
    }
}

fn read_screen<K: Kept>(body: &[u8]) -> Result<K, Refusal>
    ensures { told (λ k. k) result ≡ and_then (read_screen body.now) (λ q. got (K.kept (screen_with_stored q))) }
{
    let read = families::screen::read(body)?;
    let popup = read.popup;
    Ok(K::beside(CommandPayload::Screen(read.command), popup.len, popup.bytes))
}

fn read_ack<K: Kept>(body: &[u8]) -> Result<K, Refusal>
    ensures { told (λ k. k) result ≡ and_then (read_ack body.now) (λ vs. got (K.kept (ack_with_stored vs))) }
{
    let read = families::ack::read(body)?;
    Ok(K::beside(CommandPayload::Ack(read.ack), read.len, read.bytes))
}
