// What no edit changes of a command: how its payload is laid out.
ghost use Rattle.std.specs.Prelude.{◌≡◌, ◌+◌, ◌≤◌, ◌<◌, ◌^◌, length};
ghost use Rattle.edits.specs.Table.{is_among};
ghost use Rattle.edits.specs.Layout.{IsRow, HaveRoom, laid_out, fixed as fixed_layout};
ghost use Rattle.edits.specs.Layout.{plain as plain_layout, alone as alone_layout};
ghost use Rattle.edits.specs.Layout.{osd_layout, vtx_layout, led_layout, general_layout, crossfire_layout, flow_layout};
ghost use Rattle.edits.specs.Layout.{Stores, after_text, popup_layout, screen_layout, ack_layout};

use crate::table;
use codec::reader::MAX_COMMAND_STRING_LEN;
use commands::DirectCommands;
use families::crossfire::CrossfireCommand;
use families::flow_control::FlowControlCommand;
use families::general::GeneralCommand;
use families::led::LedCommand;
use families::screen::ScreenCommand;
use families::vtx::VtxCommand;

// The payload's length as written; the rows of the table from first up to end, beside the addresses'; the places that are not fixed.
// near: of the only or start colour, or of a popup's timeout; far: of a selection's value.
// No plainer: a range of rows in place of first and end could not be copied, and a layout is.
#[derive(Clone, Copy)]
pub(crate) struct Layout {
    pub size: usize,
    pub first: usize,
    pub end: usize,
    pub near: usize,
    pub far: usize,
}

impl Layout {
    // Whether the command has the row of this index: the addresses' are every command's.
    pub(crate) fn has_row(self, index: usize) -> bool
        ensures { result ≡ is_among index self.first self.end }
    {
        index < table::ADDRESS_ROWS || self.first <= index && index < self.end
    }
}

// What a layout tells of a place that the command has not, or that is fixed: the destination's. No plainer as an Option: a row with such a
// place would be looked for a second time, where its command was told already to lack it.
const NO_PLACE: usize = 0;

// The first item stands behind destination, source, command id and sub-command.
pub(crate) const FIRST_ITEM: usize = 4;

// The payload's length where the sub-command stands alone.
const ALONE: usize = DirectCommands::MIN_PAYLOAD_SIZE + 1;

// Bytes of the items behind a sub-command, as 01's sheets list them.
const BYTE: usize = 1;

const WORD: usize = 2;

const LONG: usize = 4;

const COLOUR: usize = 3;

const TIME_COLOUR: usize = WORD + COLOUR;

const TIME_START_STOP: usize = WORD + COLOUR + COLOUR;

const PORT_BAUD: usize = BYTE + LONG;

const PORT_ACCEPTED: usize = BYTE + BYTE;

const TYPE_INTERVAL: usize = BYTE + WORD;

const TIMEOUT_CLOSE: usize = BYTE + BYTE;

const VALUE_RESPONSE: usize = BYTE + BYTE;

// Where the only or start colour stands.
const COLOUR_FIRST: usize = FIRST_ITEM;

const COLOUR_AFTER_TIME: usize = FIRST_ITEM + WORD;

// An ACK around its information: "command id(1), sub id(1), action 0 or 1" before it, and its 00.
const ACK_SIZE: usize = DirectCommands::MIN_PAYLOAD_SIZE + BYTE + BYTE + BYTE + 1;

// With the rows from first to last, and all places fixed.
fn fixed(size: usize, first: usize, last: usize) -> Layout
    requires { IsRow last }
    ensures { result ≡ fixed_layout size first last }
{
    Layout {
        size,
        first,
        end: last + 1,
        near: NO_PLACE,
        far: NO_PLACE,
    }
}

// So many bytes of items behind the sub-command.
fn plain(items: usize, first: usize, last: usize) -> Layout
    requires { IsRow last × HaveRoom items }
    ensures { result ≡ plain_layout items first last }
{
    fixed(ALONE + items, first, last)
}

// A sub-command alone has no field of its own.
pub(crate) fn alone() -> Layout
    ensures { result ≡ alone_layout }
{
    Layout {
        size: ALONE,
        first: table::ADDRESS_ROWS,
        end: table::ADDRESS_ROWS,
        near: NO_PLACE,
        far: NO_PLACE,
    }
}

pub(crate) fn of_osd() -> Layout
    ensures { result ≡ osd_layout }
{
    plain(BYTE, table::ROW_BUTTONS, table::ROW_BUTTONS)
}

pub(crate) fn of_vtx(command: VtxCommand) -> Layout
    ensures { result ≡ vtx_layout command }
{
    match command {
        VtxCommand::SetFrequency(_) => plain(WORD, table::ROW_FREQUENCY, table::ROW_FREQUENCY),
        VtxCommand::EnablePitModeOnPowerUp { .. } => plain(
            BYTE,
            table::ROW_PIT_MODE,
            table::ROW_PIT_SWITCH,
        ),
        VtxCommand::PowerUpFromPitMode => alone(),
        VtxCommand::SetDynamicPower(_) => plain(BYTE, table::ROW_POWER, table::ROW_POWER),
        VtxCommand::SetPower(_) => plain(BYTE, table::ROW_POWER, table::ROW_POWER),
    }
}

pub(crate) fn of_led(command: LedCommand) -> Layout
    ensures { result ≡ led_layout command }
{
    match command {
        LedCommand::SetDefault => alone(),
        LedCommand::OverrideColor(_) => Layout {
            near: COLOUR_FIRST,
            ..plain(COLOUR, table::ROW_HUE, table::ROW_VALUE)
        },
        LedCommand::OverridePulse { .. } => Layout {
            near: COLOUR_AFTER_TIME,
            ..plain(TIME_START_STOP, table::ROW_TIME, table::ROW_STOP_VALUE)
        },
        LedCommand::OverrideBlink { .. } => Layout {
            near: COLOUR_AFTER_TIME,
            ..plain(TIME_START_STOP, table::ROW_TIME, table::ROW_STOP_VALUE)
        },
        LedCommand::OverrideShift { .. } => Layout {
            near: COLOUR_AFTER_TIME,
            ..plain(TIME_COLOUR, table::ROW_TIME, table::ROW_VALUE)
        },
    }
}

pub(crate) fn of_general(command: GeneralCommand) -> Layout
    ensures { result ≡ general_layout command }
{
    match command {
        GeneralCommand::SpeedProposal { .. } => plain(PORT_BAUD, table::ROW_BAUD, table::ROW_PORT),
        GeneralCommand::SpeedProposalResponse { .. } => {
            plain(PORT_ACCEPTED, table::ROW_PORT, table::ROW_ACCEPTED)
        }
    }
}

pub(crate) fn of_crossfire(command: CrossfireCommand) -> Layout
    ensures { result ≡ crossfire_layout command }
{
    match command {
        CrossfireCommand::SetReceiverInBindMode => alone(),
        CrossfireCommand::CancelBindMode => alone(),
        CrossfireCommand::SetBindId => alone(),
        CrossfireCommand::ModelSelection(_) => plain(BYTE, table::ROW_MODEL, table::ROW_MODEL),
        CrossfireCommand::CurrentModelSelection => alone(),
        CrossfireCommand::ReplyCurrentModelSelection(_) => {
            plain(BYTE, table::ROW_MODEL, table::ROW_MODEL)
        }
        CrossfireCommand::EnableRxTelemetry => alone(),
        CrossfireCommand::DisableRxTelemetry => alone(),
        CrossfireCommand::FactoryReset => alone(),
        CrossfireCommand::ResetToFactoryFirmware => alone(),
    }
}

pub(crate) fn of_flow(command: FlowControlCommand) -> Layout
    ensures { result ≡ flow_layout command }
{
    match command {
        FlowControlCommand::Subscribe { .. } => plain(
            TYPE_INTERVAL,
            table::ROW_FRAME_TYPE,
            table::ROW_INTERVAL,
        ),
        FlowControlCommand::Unsubscribe { .. } => {
            plain(BYTE, table::ROW_FRAME_TYPE, table::ROW_FRAME_TYPE)
        }
    }
}

// The place after the text at a place.
fn after_text(payload: &[u8], at: usize) -> usize
    ensures { (result ≡ after_text payload.now at) × (result ≤ length payload.now) }
{
    match codec::reader::read_text(payload, at, MAX_COMMAND_STRING_LEN) {
        Ok(text) => text.next,
        Err(_) => 0,
    }
}

// A popup of so many stored bytes: "popup places are found by reading". Header and info stand before the timeout; a selection's label
// behind timeout and close flag, where bytes remain and the next is no 00.
fn of_popup(stored: usize, payload: &[u8]) -> Layout
    requires { Stores stored payload.now }
    ensures { result ≡ popup_layout stored payload.now }
{
    let timeout = after_text(payload, after_text(payload, FIRST_ITEM));
    let label = timeout + TIMEOUT_CLOSE;
    if label < stored + FIRST_ITEM && payload[label] != 0 {
        Layout {
            near: timeout,
            far: after_text(payload, label),
            ..fixed(
                stored + ALONE,
                table::ROW_TIMEOUT,
                table::ROW_SELECTION_DEFAULT,
            )
        }
    } else {
        Layout {
            near: timeout,
            ..fixed(stored + ALONE, table::ROW_TIMEOUT, table::ROW_CLOSE)
        }
    }
}

pub(crate) fn of_screen(command: ScreenCommand, stored: usize, payload: &[u8]) -> Layout
    requires { Stores stored payload.now }
    ensures { result ≡ screen_layout command stored payload.now }
{
    match command {
        ScreenCommand::PopupMessageStart => of_popup(stored, payload),
        ScreenCommand::SelectionReturnValue { .. } => {
            plain(
                VALUE_RESPONSE,
                table::ROW_RETURNED_VALUE,
                table::ROW_RESPONSE,
            )
        }
    }
}

// An ACK of so many bytes of information.
pub(crate) fn of_ack(stored: usize) -> Layout
    requires { stored + 8 < 2 ^ 64 }
    ensures { result ≡ ack_layout stored }
{
    fixed(
        stored + ACK_SIZE,
        table::ROW_ACK_COMMAND_ID,
        table::ROW_ACK_ACTION,
    )
}
