// Edits on a record's input. The payload is put into a slice filled with A5, and the stored answer is a number and the payload as it
// then is, whatever the number; behind it A5 is left.
use crate::boundary::{is_image, is_left};

fn edit_in(space: &mut [u8], payload: &[u8], field: u32, number: u32) -> u32 {
    let Some(lent) = space.get_mut(..payload.len()) else {
        return 255; // no stored answer
    };
    lent.copy_from_slice(payload);
    crsf::edit::crsf_edit(lent, field, number)
}

// Field, number, payload.
pub(crate) fn edit_agrees(input: &[u8], stored: &[u8]) -> bool {
    let [a, b, c, d, e, f, g, h, payload @ ..] = input else {
        return false;
    };
    let field = u32::from_be_bytes([*a, *b, *c, *d]);
    let to = u32::from_be_bytes([*e, *f, *g, *h]);
    let mut space = [0xA5u8; 80];
    let w = edit_in(&mut space, payload, field, to);
    is_image(stored, w, &space)
}

fn edit_all_in(
    space: &mut [u8],
    payload: &[u8],
    edits: &[u8],
    answers: &mut [u8],
    room: usize,
) -> u32 {
    let Some(lent) = space.get_mut(..payload.len()) else {
        return 255; // no stored answer
    };
    let Some(answers) = answers.get_mut(..room) else {
        return 255; // no stored answer
    };
    lent.copy_from_slice(payload);
    crsf::edit::crsf_edit_list(lent, edits, answers)
}

// The number and the payload, which end at a place, then the answer bytes.
fn are_left(stored: &[u8], end: usize, word: u32, space: &[u8], answers: &[u8]) -> bool {
    let Some((image, bytes)) = stored.split_at_checked(end) else {
        return false;
    };
    is_image(image, word, space) && is_left(bytes, answers)
}

// How many answer bytes, length of the payload, payload, edits.
pub(crate) fn edit_list_agrees(input: &[u8], stored: &[u8]) -> bool {
    let [room, n, rest @ ..] = input else {
        return false;
    };
    let Some((payload, edits)) = rest.split_at_checked(usize::from(*n)) else {
        return false;
    };
    let mut space = [0xA5u8; 80];
    let mut answers = [0xA5u8; 80];
    let w = edit_all_in(&mut space, payload, edits, &mut answers, usize::from(*room));
    are_left(stored, payload.len() + 1, w, &space, &answers)
}
