// 0x0A General.
ghost use Rattle.std.specs.Prelude.{◌≡◌, ◌≤◌, length, ◌∷◌, []};
ghost use Rattle.codec.specs.Writing.{write_body};
ghost use Rattle.codec.specs.Reading.{read_items, read_body};
ghost use Rattle.codec.specs.Sheet.{said, got, and_then, byte, long, flag};
ghost use Rattle.codec.specs.Told.{WritesInOrder, bit};
ghost use Rattle.families.specs.Sheets.{general_rows};
ghost use Rattle.families.specs.General.{general_says, told_general};

use codec::reader::{Reader, Width};
use codec::refusal::Refusal;
use codec::writer::{bit_of, put_byte, put_number};

pub const SUB_COMMAND_ID_GENERAL_SPEED_PROPOSAL: u8 = 0x70;

pub const SUB_COMMAND_ID_GENERAL_SPEED_PROPOSAL_RESPONSE: u8 = 0x71;

#[derive(Clone, Copy)]
pub enum GeneralCommand {
    SpeedProposal { port_id: u8, proposed_baudrate: u32 },
    SpeedProposalResponse { port_id: u8, accepted: bool },
}

// "70 port(1), baud(4)", behind the sub-command.
fn read_proposal(rest: &[u8]) -> Result<GeneralCommand, Refusal>
    ensures { told_general result ≡ and_then (read_items (byte ∷ long ∷ []) rest.now 0) (λ vs. got (said 0x70 vs)) }
{
    let mut input = Reader::new(rest);
    Ok(GeneralCommand::SpeedProposal {
        port_id: input.byte()?,
        proposed_baudrate: input.u32()?,
    })
}

// "71 port(1), accepted(flag)", behind the sub-command.
fn read_response(rest: &[u8]) -> Result<GeneralCommand, Refusal>
    ensures { told_general result ≡ and_then (read_items (byte ∷ flag ∷ []) rest.now 0) (λ vs. got (said 0x71 vs)) }
{
    let mut input = Reader::new(rest);
    Ok(GeneralCommand::SpeedProposalResponse {
        port_id: input.byte()?,
        accepted: input.boolean()?,
    })
}

pub fn read(body: &[u8]) -> Result<GeneralCommand, Refusal>
    ensures { told_general result ≡ read_body general_rows body.now }
{
    let mut input = Reader::new(body);
    match input.byte()? {
        SUB_COMMAND_ID_GENERAL_SPEED_PROPOSAL => read_proposal(input.remaining),
        SUB_COMMAND_ID_GENERAL_SPEED_PROPOSAL_RESPONSE => read_response(input.remaining),
        _ => Err(Refusal::InvalidPayload),
    }
}

const SPEED_PROPOSAL_LEN: usize = 6;

const SPEED_PROPOSAL_RESPONSE_LEN: usize = 3;

fn write_proposal(port: u8, baud: u32, body: &mut [u8]) -> Result<usize, Refusal>
    ensures { WritesInOrder general_rows (said 0x70 ((port ∷ []) ∷ (baud ∷ []) ∷ [])) result body.old body.new }
{
    if body.len() < SPEED_PROPOSAL_LEN {
        return Err(Refusal::BufferOverflow);
    }
    put_byte(body, 0, SUB_COMMAND_ID_GENERAL_SPEED_PROPOSAL);
    put_byte(body, 1, port);
    put_number(body, 2, Width::Four, baud);
    Ok(SPEED_PROPOSAL_LEN)
}

fn write_response(port: u8, accepted: bool, body: &mut [u8]) -> Result<usize, Refusal>
    ensures { WritesInOrder general_rows (said 0x71 ((port ∷ []) ∷ (bit accepted ∷ []) ∷ [])) result body.old body.new }
{
    if body.len() < SPEED_PROPOSAL_RESPONSE_LEN {
        return Err(Refusal::BufferOverflow);
    }
    put_byte(body, 0, SUB_COMMAND_ID_GENERAL_SPEED_PROPOSAL_RESPONSE);
    put_byte(body, 1, port);
    put_byte(body, 2, bit_of(accepted));
    Ok(SPEED_PROPOSAL_RESPONSE_LEN)
}

pub fn write_to(command: GeneralCommand, body: &mut [u8]) -> Result<usize, Refusal>
    ensures { WritesInOrder general_rows (general_says command) result body.old body.new }
{
    match command {
        GeneralCommand::SpeedProposal {
            port_id,
            proposed_baudrate,
        } => write_proposal(port_id, proposed_baudrate, body),
        GeneralCommand::SpeedProposalResponse { port_id, accepted } => write_response(
            port_id, accepted, body,
        ),
    }
}

// How many bytes `write_to` writes, counted and not written.
pub fn written_len(command: GeneralCommand) -> usize
    ensures value { result ≡ length (write_body general_rows (general_says command)) }
    ensures upper_bound { result ≤ 9 }
{
    match command {
        GeneralCommand::SpeedProposal { .. } => SPEED_PROPOSAL_LEN,
        GeneralCommand::SpeedProposalResponse { .. } => SPEED_PROPOSAL_RESPONSE_LEN,
    }
}
