// 0x20 Flow control.
ghost use Rattle.std.specs.Prelude.{◌≡◌, ◌≤◌, length, ◌∷◌, []};
ghost use Rattle.codec.specs.Writing.{write_body};
ghost use Rattle.codec.specs.Sheet.{said, got, and_then, byte, word};
ghost use Rattle.codec.specs.Reading.{read_items, read_body};
ghost use Rattle.codec.specs.Told.{WritesInOrder};
ghost use Rattle.families.specs.Sheets.{flow_rows};
ghost use Rattle.families.specs.FlowControl.{flow_says, told_flow};

use codec::reader::{Width, read_byte, read_word};
use codec::refusal::Refusal;
use codec::writer::{WITH_BYTE_LEN, put_byte, put_number, write_with_byte};

pub const SUB_COMMAND_ID_FLOW_CONTROL_SUBSCRIBE: u8 = 0x01;

pub const SUB_COMMAND_ID_FLOW_CONTROL_UNSUBSCRIBE: u8 = 0x02;

#[derive(Clone, Copy)]
pub enum FlowControlCommand {
    Subscribe {
        frame_type: u8,
        max_interval_time: u16,
    },
    Unsubscribe {
        frame_type: u8,
    },
}

// "01 frame type(1), interval(2)"
fn read_subscribe(body: &[u8]) -> Result<FlowControlCommand, Refusal>
    ensures { told_flow result ≡ and_then (read_items (byte ∷ word ∷ []) body.now 1) (λ vs. got (said 0x01 vs)) }
{
    Ok(FlowControlCommand::Subscribe {
        frame_type: read_byte(body, 1)?,
        max_interval_time: read_word(body, 2)?,
    })
}

pub fn read(body: &[u8]) -> Result<FlowControlCommand, Refusal>
    ensures { told_flow result ≡ read_body flow_rows body.now }
{
    match read_byte(body, 0)? {
        SUB_COMMAND_ID_FLOW_CONTROL_SUBSCRIBE => read_subscribe(body),
        SUB_COMMAND_ID_FLOW_CONTROL_UNSUBSCRIBE => Ok(FlowControlCommand::Unsubscribe {
            frame_type: read_byte(body, 1)?,
        }),
        _ => Err(Refusal::InvalidPayload),
    }
}

const SUBSCRIBE_LEN: usize = 4;

fn write_subscribe(frame: u8, interval: u16, body: &mut [u8]) -> Result<usize, Refusal>
    ensures { WritesInOrder flow_rows (said 0x01 ((frame ∷ []) ∷ (interval ∷ []) ∷ [])) result body.old body.new }
{
    if body.len() < SUBSCRIBE_LEN {
        return Err(Refusal::BufferOverflow);
    }
    put_byte(body, 0, SUB_COMMAND_ID_FLOW_CONTROL_SUBSCRIBE);
    put_byte(body, 1, frame);
    put_number(body, 2, Width::Two, interval as u32);
    Ok(SUBSCRIBE_LEN)
}

pub fn write_to(command: FlowControlCommand, body: &mut [u8]) -> Result<usize, Refusal>
    ensures { WritesInOrder flow_rows (flow_says command) result body.old body.new }
{
    match command {
        FlowControlCommand::Subscribe {
            frame_type,
            max_interval_time,
        } => write_subscribe(frame_type, max_interval_time, body),
        FlowControlCommand::Unsubscribe { frame_type } => write_with_byte(
            SUB_COMMAND_ID_FLOW_CONTROL_UNSUBSCRIBE,
            frame_type,
            body,
        ),
    }
}

// How many bytes `write_to` writes, counted and not written.
pub fn written_len(command: FlowControlCommand) -> usize
    ensures value { result ≡ length (write_body flow_rows (flow_says command)) }
    ensures upper_bound { result ≤ 9 }
{
    match command {
        FlowControlCommand::Subscribe { .. } => SUBSCRIBE_LEN,
        FlowControlCommand::Unsubscribe { .. } => WITH_BYTE_LEN,
    }
}
