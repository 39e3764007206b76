// Edits in place: one, and any list of them. Added by this port; the Rust has none. The answer is a number of 01, 0 where accepted.
#![tactic(auto)]

ghost use Rattle.std.specs.Prelude.{◌≡◌};
ghost use Rattle.edits.specs.Edit.{EditIs, ListIs};
ghost use Rattle.edits.specs.Opened.{answered};

use codec::refusal::Refusal;

mod applying;
mod change;
mod layout;
mod opening;
mod table;

// A field's number and the number to set it to, 4 bytes each.
const EDIT_SIZE: usize = 8;

// The number that answers an edit, or a list.
fn answer(outcome: Result<(), Refusal>) -> u8
    ensures { result ≡ answered outcome }
{
    match outcome {
        Ok(()) => 0,
        Err(r) => u8::from(r),
    }
}

// "Order: the reader's refusal; 6 if writing what was read doesn't give these very bytes; 7; 8." Refused, no byte changes.
pub fn edit(payload: &mut [u8], field: u32, number: u32) -> u8
    ensures { EditIs field number result payload.old payload.new }
{
    match opening::open(payload) {
        Ok(layout) => applying::answer_edit(payload, layout, field, number),
        Err(r) => answer(Err(r)),
    }
}

// Edits one after the other, field then number; the number of each goes to its answer byte. The payload is read once.
pub fn edit_list(payload: &mut [u8], edits: &[u8], answers: &mut [u8]) -> u8
    ensures { ListIs edits.now result payload.old payload.new
        answers.old answers.new }
{
    answer(carry_out(payload, edits, answers))
}

fn carry_out(payload: &mut [u8], edits: &[u8], answers: &mut [u8]) -> Result<(), Refusal>
    ensures { ListIs edits.now (answered result) payload.old payload.new
        answers.old answers.new }
{
    if edits.len() % EDIT_SIZE != 0 {
        return Err(Refusal::InvalidPayloadLength);
    }
    let count = edits.len() / EDIT_SIZE;
    if answers.len() < count {
        return Err(Refusal::BufferOverflow);
    }
    match opening::open(payload) {
        Ok(layout) => applying::apply_each(payload, layout, edits, answers),
        Err(r) => applying::answer_all(&mut answers[..count], answer(Err(r))),
    }
    Ok(())
}
