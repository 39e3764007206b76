// Edits applied to a payload that is open: its layout is known, and nothing is read again.
ghost use Rattle.std.specs.Prelude.{◌≡◌, ◌+◌, ◌≤◌, length, take, drop, replicate};
ghost use Rattle.codec.specs.Digits.{number_of};
ghost use Rattle.edits.specs.Opened.{Opened, answered, Applies, HasRoom, AppliesEach};

use crate::layout::Layout;
use crate::{EDIT_SIZE, answer, change, table};
use codec::reader::Width;
use codec::refusal::Refusal;

// In an edit's bytes the number stands behind the field.
const NUMBER_AT: usize = 4;

// One edit.
fn apply(payload: &mut [u8], layout: Layout, field: u32, number: u32) -> Result<(), Refusal>
    requires { Opened payload.old layout }
    ensures { Applies layout field number (answered result) payload.old payload.new }
{
    let row = table::row(field, layout).ok_or(Refusal::NoSuchField)?;
    if number < row.low || row.high < number {
        return Err(Refusal::NumberOutsideRange);
    }
    change::change(payload, row, number);
    Ok(())
}

// One edit's number. Told here, not by each caller: the compiler then makes no `Result` of it.
pub(crate) fn answer_edit(payload: &mut [u8], layout: Layout, field: u32, number: u32) -> u8
    requires { Opened payload.old layout }
    ensures { Applies layout field number result payload.old payload.new }
{
    answer(apply(payload, layout, field, number))
}

// The long at a place where there is one. Not by a reader of longs alone: the compiler then no longer loads the four bytes at once.
fn long_at(bytes: &[u8], at: usize) -> u32
    requires { at + 4 ≤ length bytes.now }
    ensures { result ≡ number_of (take 4 (drop at bytes.now)) }
{
    match codec::reader::read_number(bytes, at, Width::Four, 0, u32::MAX) {
        Ok(number) => number,
        Err(_) => 0,
    }
}

// Each edit in turn, its number to its answer.
pub(crate) fn apply_each(payload: &mut [u8], layout: Layout, edits: &[u8], answers: &mut [u8])
    requires { Opened payload.old layout × HasRoom edits.now answers.old }
    ensures { AppliesEach edits.now payload.old payload.new
        answers.old answers.new }
{
    for (done, edit) in edits.chunks_exact(EDIT_SIZE).enumerate() {
        let field = long_at(edit, 0);
        let number = long_at(edit, NUMBER_AT);
        answers[done] = answer_edit(payload, layout, field, number);
    }
}

// The same number to each.
pub(crate) fn answer_all(answers: &mut [u8], number: u8)
    ensures { answers.new ≡ replicate (length answers.old) number }
{
    for answer in answers.iter_mut() {
        *answer = number;
    }
}
