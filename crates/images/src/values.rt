// The sub-command and the values of a payload, as they stand in a record's image: 11 bytes from place 3 on.
ghost use Rattle.std.specs.Prelude.{◌≡◌, ◌++◌, ◌+◌, ◌≤◌, length};
ghost use Rattle.codec.specs.Digits.{bytes_of};
ghost use Rattle.images.specs.Values.{laid, fc_laid, vtx_laid, color_bytes, led_laid, general_laid, crossfire_laid, flow_laid, screen_laid, ack_laid, payload_laid, word_at, long_at, color_at, fc_at, vtx_at, led_at, general_at, crossfire_at, flow_at, screen_at, ack_at, payload_at};

use crate::record::{RECORD_ID, RECORD_SIZE, RECORD_SUB_COMMAND, RECORD_VALUES};
use families::ack::CommandAck;
use families::crossfire::{
    CrossfireCommand, SUB_COMMAND_ID_CROSSFIRE_CANCEL_BIND_MODE,
    SUB_COMMAND_ID_CROSSFIRE_CURRENT_MODEL_SELECTION,
    SUB_COMMAND_ID_CROSSFIRE_DISABLE_RX_TELEMETRY, SUB_COMMAND_ID_CROSSFIRE_ENABLE_RX_TELEMETRY,
    SUB_COMMAND_ID_CROSSFIRE_FACTORY_RESET, SUB_COMMAND_ID_CROSSFIRE_MODEL_SELECTION,
    SUB_COMMAND_ID_CROSSFIRE_REPLY_CURRENT_MODEL_SELECTION,
    SUB_COMMAND_ID_CROSSFIRE_RESET_TO_FACTORY_FIRMWARE, SUB_COMMAND_ID_CROSSFIRE_SET_BIND_ID,
    SUB_COMMAND_ID_CROSSFIRE_SET_RECEIVER_IN_BIND_MODE,
};
use families::fc::{FcCommand, SUB_COMMAND_ID_FC_FORCE_DISARM, SUB_COMMAND_ID_FC_SCALE_CHANNEL};
use families::flow_control::{
    FlowControlCommand, SUB_COMMAND_ID_FLOW_CONTROL_SUBSCRIBE,
    SUB_COMMAND_ID_FLOW_CONTROL_UNSUBSCRIBE,
};
use families::general::{
    GeneralCommand, SUB_COMMAND_ID_GENERAL_SPEED_PROPOSAL,
    SUB_COMMAND_ID_GENERAL_SPEED_PROPOSAL_RESPONSE,
};
use families::led::{
    LedColor, LedCommand, SUB_COMMAND_ID_LED_OVERRIDE_BLINK, SUB_COMMAND_ID_LED_OVERRIDE_COLOR,
    SUB_COMMAND_ID_LED_OVERRIDE_PULSE, SUB_COMMAND_ID_LED_OVERRIDE_SHIFT,
    SUB_COMMAND_ID_LED_SET_DEFAULT,
};
use families::osd::{OsdCommand, SUB_COMMAND_ID_OSD_SEND_BUTTONS};
use families::payload::{
    COMMAND_ID_CROSSFIRE, COMMAND_ID_FC, COMMAND_ID_FLOW_CONTROL, COMMAND_ID_GENERAL,
    COMMAND_ID_LED, COMMAND_ID_OSD, COMMAND_ID_SCREEN, COMMAND_ID_VTX, CommandPayload,
};
use families::screen::{
    SUB_COMMAND_ID_SCREEN_POPUP_MESSAGE_START, SUB_COMMAND_ID_SCREEN_SELECTION_RETURN_VALUE,
    ScreenCommand,
};
use families::vtx::{
    SUB_COMMAND_ID_VTX_ENABLE_PIT_MODE_ON_POWER_UP, SUB_COMMAND_ID_VTX_POWER_UP_FROM_PIT_MODE,
    SUB_COMMAND_ID_VTX_SET_DYNAMIC_POWER, SUB_COMMAND_ID_VTX_SET_FREQUENCY,
    SUB_COMMAND_ID_VTX_SET_POWER, VtxCommand,
};

// The sub-command, and 10 bytes of values.
const VALUES: usize = 10;

pub(crate) type Laid = [u8; 1 + VALUES];

// What an ACK has where a sub-command stands.
const ACK_NO_SUB_COMMAND: u8 = 0x00;

// Behind a value of one byte, and behind two.
const SECOND_VALUE: usize = RECORD_VALUES + 1;

const THIRD_VALUE: usize = RECORD_VALUES + 2;

// Behind a time, and behind the start's hue, saturation and value.
const START_COLOR: usize = RECORD_VALUES + 2;

const STOP_COLOR: usize = START_COLOR + 4;

// Inlined, so that values whose count is known are not copied in a loop.
#[inline(always)]
fn laid(sub: u8, values: &[u8]) -> Laid
    requires { length values.now ≤ 10 }
    ensures { result ≡ laid sub values.now }
{
    let mut image = [0; 1 + VALUES];
    image[0] = sub;
    image[1..1 + values.len()].copy_from_slice(values);
    image
}

fn fc_laid(command: FcCommand) -> Laid
    ensures { result ≡ fc_laid command }
{
    match command {
        FcCommand::ForceDisarm => laid(SUB_COMMAND_ID_FC_FORCE_DISARM, &[]),
        FcCommand::ScaleChannel => laid(SUB_COMMAND_ID_FC_SCALE_CHANNEL, &[]),
    }
}

fn vtx_laid(command: VtxCommand) -> Laid
    ensures { result ≡ vtx_laid command }
{
    match command {
        VtxCommand::SetFrequency(frequency) => {
            laid(SUB_COMMAND_ID_VTX_SET_FREQUENCY, &frequency.to_be_bytes())
        }
        VtxCommand::EnablePitModeOnPowerUp {
            pit_mode,
            pit_mode_control,
            pit_mode_switch,
        } => laid(
            SUB_COMMAND_ID_VTX_ENABLE_PIT_MODE_ON_POWER_UP,
            &[u8::from(pit_mode), pit_mode_control, pit_mode_switch],
        ),
        VtxCommand::PowerUpFromPitMode => laid(SUB_COMMAND_ID_VTX_POWER_UP_FROM_PIT_MODE, &[]),
        VtxCommand::SetDynamicPower(power) => {
            laid(SUB_COMMAND_ID_VTX_SET_DYNAMIC_POWER, &[power])
        }
        VtxCommand::SetPower(power) => laid(SUB_COMMAND_ID_VTX_SET_POWER, &[power]),
    }
}

fn color_bytes(color: LedColor) -> [u8; 4]
    ensures { result ≡ color_bytes color }
{
    let [high, low] = color.hue.to_be_bytes();
    [high, low, color.saturation, color.value]
}

// A pulse or a blink, by its sub-command.
fn fade_laid(sub: u8, time: u16, start: LedColor, stop: LedColor) -> Laid
    ensures { result ≡ laid sub (bytes_of 2 time ++ (color_bytes start ++ color_bytes stop)) }
{
    let [high, low] = time.to_be_bytes();
    let [a, b, c, d] = color_bytes(start);
    let [e, f, g, h] = color_bytes(stop);
    laid(sub, &[high, low, a, b, c, d, e, f, g, h])
}

fn shift_laid(time: u16, color: LedColor) -> Laid
    ensures { result ≡ laid 0x05 (bytes_of 2 time ++ color_bytes color) }
{
    let [high, low] = time.to_be_bytes();
    let [a, b, c, d] = color_bytes(color);
    laid(SUB_COMMAND_ID_LED_OVERRIDE_SHIFT, &[high, low, a, b, c, d])
}

fn led_laid(command: LedCommand) -> Laid
    ensures { result ≡ led_laid command }
{
    match command {
        LedCommand::SetDefault => laid(SUB_COMMAND_ID_LED_SET_DEFAULT, &[]),
        LedCommand::OverrideColor(color) => {
            laid(SUB_COMMAND_ID_LED_OVERRIDE_COLOR, &color_bytes(color))
        }
        LedCommand::OverridePulse {
            duration_ms,
            start,
            stop,
        } => fade_laid(SUB_COMMAND_ID_LED_OVERRIDE_PULSE, duration_ms, start, stop),
        LedCommand::OverrideBlink {
            interval_ms,
            start,
            stop,
        } => fade_laid(SUB_COMMAND_ID_LED_OVERRIDE_BLINK, interval_ms, start, stop),
        LedCommand::OverrideShift { interval_ms, color } => shift_laid(interval_ms, color),
    }
}

fn general_laid(command: GeneralCommand) -> Laid
    ensures { result ≡ general_laid command }
{
    match command {
        GeneralCommand::SpeedProposal {
            port_id,
            proposed_baudrate,
        } => {
            let [a, b, c, d] = proposed_baudrate.to_be_bytes();
            laid(
                SUB_COMMAND_ID_GENERAL_SPEED_PROPOSAL,
                &[port_id, a, b, c, d],
            )
        }
        GeneralCommand::SpeedProposalResponse { port_id, accepted } => laid(
            SUB_COMMAND_ID_GENERAL_SPEED_PROPOSAL_RESPONSE,
            &[port_id, u8::from(accepted)],
        ),
    }
}

fn crossfire_laid(command: CrossfireCommand) -> Laid
    ensures { result ≡ crossfire_laid command }
{
    match command {
        CrossfireCommand::SetReceiverInBindMode => {
            laid(SUB_COMMAND_ID_CROSSFIRE_SET_RECEIVER_IN_BIND_MODE, &[])
        }
        CrossfireCommand::CancelBindMode => laid(SUB_COMMAND_ID_CROSSFIRE_CANCEL_BIND_MODE, &[]),
        CrossfireCommand::SetBindId => laid(SUB_COMMAND_ID_CROSSFIRE_SET_BIND_ID, &[]),
        CrossfireCommand::ModelSelection(model) => {
            laid(SUB_COMMAND_ID_CROSSFIRE_MODEL_SELECTION, &[model])
        }
        CrossfireCommand::CurrentModelSelection => {
            laid(SUB_COMMAND_ID_CROSSFIRE_CURRENT_MODEL_SELECTION, &[])
        }
        CrossfireCommand::ReplyCurrentModelSelection(model) => {
            laid(
                SUB_COMMAND_ID_CROSSFIRE_REPLY_CURRENT_MODEL_SELECTION,
                &[model],
            )
        }
        CrossfireCommand::EnableRxTelemetry => laid(
            SUB_COMMAND_ID_CROSSFIRE_ENABLE_RX_TELEMETRY,
            &[],
        ),
        CrossfireCommand::DisableRxTelemetry => {
            laid(SUB_COMMAND_ID_CROSSFIRE_DISABLE_RX_TELEMETRY, &[])
        }
        CrossfireCommand::FactoryReset => laid(SUB_COMMAND_ID_CROSSFIRE_FACTORY_RESET, &[]),
        CrossfireCommand::ResetToFactoryFirmware => {
            laid(SUB_COMMAND_ID_CROSSFIRE_RESET_TO_FACTORY_FIRMWARE, &[])
        }
    }
}

fn flow_laid(command: FlowControlCommand) -> Laid
    ensures { result ≡ flow_laid command }
{
    match command {
        FlowControlCommand::Subscribe {
            frame_type,
            max_interval_time,
        } => {
            let [high, low] = max_interval_time.to_be_bytes();
            laid(
                SUB_COMMAND_ID_FLOW_CONTROL_SUBSCRIBE,
                &[frame_type, high, low],
            )
        }
        FlowControlCommand::Unsubscribe { frame_type } => {
            laid(SUB_COMMAND_ID_FLOW_CONTROL_UNSUBSCRIBE, &[frame_type])
        }
    }
}

fn screen_laid(command: ScreenCommand) -> Laid
    ensures { result ≡ screen_laid command }
{
    match command {
        ScreenCommand::PopupMessageStart => laid(SUB_COMMAND_ID_SCREEN_POPUP_MESSAGE_START, &[]),
        ScreenCommand::SelectionReturnValue { value, response } => laid(
            SUB_COMMAND_ID_SCREEN_SELECTION_RETURN_VALUE,
            &[value, u8::from(response)],
        ),
    }
}

fn ack_laid(ack: CommandAck) -> Laid
    ensures { result ≡ ack_laid ack }
{
    laid(
        ACK_NO_SUB_COMMAND,
        &[ack.command_id, ack.sub_command_id, ack.action],
    )
}

#[tactic(auto, unfolding(crate::specs::Values::payload_laid))]
pub(crate) fn payload_laid(payload: CommandPayload) -> Laid
    ensures { result ≡ payload_laid payload }
{
    match payload {
        CommandPayload::Fc(command) => fc_laid(command),
        CommandPayload::Osd(command) => laid(SUB_COMMAND_ID_OSD_SEND_BUTTONS, &[command.buttons]),
        CommandPayload::Vtx(command) => vtx_laid(command),
        CommandPayload::Led(command) => led_laid(command),
        CommandPayload::General(command) => general_laid(command),
        CommandPayload::Crossfire(command) => crossfire_laid(command),
        CommandPayload::FlowControl(command) => flow_laid(command),
        CommandPayload::Screen(command) => screen_laid(command),
        CommandPayload::Ack(ack) => ack_laid(ack),
    }
}

fn word_at(image: &[u8; RECORD_SIZE], at: usize) -> u16
    requires { at + 2 ≤ 70 }
    ensures { result ≡ word_at image.now at }
{
    u16::from_be_bytes([image[at], image[at + 1]])
}

fn long_at(image: &[u8; RECORD_SIZE], at: usize) -> u32
    requires { at + 4 ≤ 70 }
    ensures { result ≡ long_at image.now at }
{
    u32::from_be_bytes([image[at], image[at + 1], image[at + 2], image[at + 3]])
}

fn color_at(image: &[u8; RECORD_SIZE], at: usize) -> LedColor
    requires { at + 4 ≤ 70 }
    ensures { result ≡ color_at image.now at }
{
    LedColor {
        hue: word_at(image, at),
        saturation: image[at + 2],
        value: image[at + 3],
    }
}

fn fc_at(image: &[u8; RECORD_SIZE]) -> FcCommand
    ensures { result ≡ fc_at image.now }
{
    match image[RECORD_SUB_COMMAND] {
        SUB_COMMAND_ID_FC_FORCE_DISARM => FcCommand::ForceDisarm,
        _ => FcCommand::ScaleChannel,
    }
}

fn vtx_at(image: &[u8; RECORD_SIZE]) -> VtxCommand
    ensures { result ≡ vtx_at image.now }
{
    match image[RECORD_SUB_COMMAND] {
        SUB_COMMAND_ID_VTX_SET_FREQUENCY => VtxCommand::SetFrequency(word_at(image, RECORD_VALUES)),
        SUB_COMMAND_ID_VTX_ENABLE_PIT_MODE_ON_POWER_UP => VtxCommand::EnablePitModeOnPowerUp {
            pit_mode: image[RECORD_VALUES] == 1,
            pit_mode_control: image[SECOND_VALUE],
            pit_mode_switch: image[THIRD_VALUE],
        },
        SUB_COMMAND_ID_VTX_POWER_UP_FROM_PIT_MODE => VtxCommand::PowerUpFromPitMode,
        SUB_COMMAND_ID_VTX_SET_DYNAMIC_POWER => VtxCommand::SetDynamicPower(image[RECORD_VALUES]),
        _ => VtxCommand::SetPower(image[RECORD_VALUES]),
    }
}

fn led_at(image: &[u8; RECORD_SIZE]) -> LedCommand
    ensures { result ≡ led_at image.now }
{
    match image[RECORD_SUB_COMMAND] {
        SUB_COMMAND_ID_LED_SET_DEFAULT => LedCommand::SetDefault,
        SUB_COMMAND_ID_LED_OVERRIDE_COLOR => LedCommand::OverrideColor(color_at(
            image,
            RECORD_VALUES,
        )),
        SUB_COMMAND_ID_LED_OVERRIDE_PULSE => LedCommand::OverridePulse {
            duration_ms: word_at(image, RECORD_VALUES),
            start: color_at(image, START_COLOR),
            stop: color_at(image, STOP_COLOR),
        },
        SUB_COMMAND_ID_LED_OVERRIDE_BLINK => LedCommand::OverrideBlink {
            interval_ms: word_at(image, RECORD_VALUES),
            start: color_at(image, START_COLOR),
            stop: color_at(image, STOP_COLOR),
        },
        _ => LedCommand::OverrideShift {
            interval_ms: word_at(image, RECORD_VALUES),
            color: color_at(image, START_COLOR),
        },
    }
}

fn general_at(image: &[u8; RECORD_SIZE]) -> GeneralCommand
    ensures { result ≡ general_at image.now }
{
    match image[RECORD_SUB_COMMAND] {
        SUB_COMMAND_ID_GENERAL_SPEED_PROPOSAL => GeneralCommand::SpeedProposal {
            port_id: image[RECORD_VALUES],
            proposed_baudrate: long_at(image, SECOND_VALUE),
        },
        _ => GeneralCommand::SpeedProposalResponse {
            port_id: image[RECORD_VALUES],
            accepted: image[SECOND_VALUE] == 1,
        },
    }
}

fn crossfire_at(image: &[u8; RECORD_SIZE]) -> CrossfireCommand
    ensures { result ≡ crossfire_at image.now }
{
    match image[RECORD_SUB_COMMAND] {
        SUB_COMMAND_ID_CROSSFIRE_SET_RECEIVER_IN_BIND_MODE =>
            CrossfireCommand::SetReceiverInBindMode,
        SUB_COMMAND_ID_CROSSFIRE_CANCEL_BIND_MODE => CrossfireCommand::CancelBindMode,
        SUB_COMMAND_ID_CROSSFIRE_SET_BIND_ID => CrossfireCommand::SetBindId,
        SUB_COMMAND_ID_CROSSFIRE_MODEL_SELECTION => CrossfireCommand::ModelSelection(
            image[RECORD_VALUES],
        ),
        SUB_COMMAND_ID_CROSSFIRE_CURRENT_MODEL_SELECTION => CrossfireCommand::CurrentModelSelection,
        SUB_COMMAND_ID_CROSSFIRE_REPLY_CURRENT_MODEL_SELECTION =>
            CrossfireCommand::ReplyCurrentModelSelection(image[RECORD_VALUES]),
        SUB_COMMAND_ID_CROSSFIRE_ENABLE_RX_TELEMETRY => CrossfireCommand::EnableRxTelemetry,
        SUB_COMMAND_ID_CROSSFIRE_DISABLE_RX_TELEMETRY => CrossfireCommand::DisableRxTelemetry,
        SUB_COMMAND_ID_CROSSFIRE_FACTORY_RESET => CrossfireCommand::FactoryReset,
        _ => CrossfireCommand::ResetToFactoryFirmware,
    }
}

fn flow_at(image: &[u8; RECORD_SIZE]) -> FlowControlCommand
    ensures { result ≡ flow_at image.now }
{
    match image[RECORD_SUB_COMMAND] {
        SUB_COMMAND_ID_FLOW_CONTROL_SUBSCRIBE => FlowControlCommand::Subscribe {
            frame_type: image[RECORD_VALUES],
            max_interval_time: word_at(image, SECOND_VALUE),
        },
        _ => FlowControlCommand::Unsubscribe {
            frame_type: image[RECORD_VALUES],
        },
    }
}

fn screen_at(image: &[u8; RECORD_SIZE]) -> ScreenCommand
    ensures { result ≡ screen_at image.now }
{
    match image[RECORD_SUB_COMMAND] {
        SUB_COMMAND_ID_SCREEN_POPUP_MESSAGE_START => ScreenCommand::PopupMessageStart,
        _ => ScreenCommand::SelectionReturnValue {
            value: image[RECORD_VALUES],
            response: image[SECOND_VALUE] == 1,
        },
    }
}

fn ack_at(image: &[u8; RECORD_SIZE]) -> CommandAck
    ensures { result ≡ ack_at image.now }
{
    CommandAck {
        command_id: image[RECORD_VALUES],
        sub_command_id: image[SECOND_VALUE],
        action: image[THIRD_VALUE],
    }
}

// What stands in an image; of an unknown id or sub-command the last one, whose image is another.
#[tactic(auto, unfolding(crate::specs::Values::payload_at))]
pub(crate) fn payload_at(image: &[u8; RECORD_SIZE]) -> CommandPayload
    ensures { result ≡ payload_at image.now }
{
    match image[RECORD_ID] {
        COMMAND_ID_FC => CommandPayload::Fc(fc_at(image)),
        COMMAND_ID_OSD => CommandPayload::Osd(OsdCommand {
            buttons: image[RECORD_VALUES],
        }),
        COMMAND_ID_VTX => CommandPayload::Vtx(vtx_at(image)),
        COMMAND_ID_LED => CommandPayload::Led(led_at(image)),
        COMMAND_ID_GENERAL => CommandPayload::General(general_at(image)),
        COMMAND_ID_CROSSFIRE => CommandPayload::Crossfire(crossfire_at(image)),
        COMMAND_ID_FLOW_CONTROL => CommandPayload::FlowControl(flow_at(image)),
        COMMAND_ID_SCREEN => CommandPayload::Screen(screen_at(image)),
        _ => CommandPayload::Ack(ack_at(image)),
    }
}
