// Calls on a question, one after the other. The question is put into a slice filled with A5, and the stored answer has for every call a
// number, a count and the question as it then is, whatever the number; behind it A5 is left.
use crate::boundary::{is_left, is_word};

// An answer has a number and a count before the question.
const LEFT: usize = 2;

// The function; with a return its value and its response are given. (Numbers and no enum: no plainer, each is matched here alone.)
fn call(question: &mut [u8], function: u8, second: u32, given: &[u8]) -> u32 {
    match function {
        1 => crsf::question::crsf_question_ask(question, second, given),
        2 => crsf::question::crsf_question_return(
            question,
            second,
            given.first().copied().unwrap_or(0),
            given.get(1).copied().unwrap_or(0),
        ),
        3 => crsf::question::crsf_question_command(question, second, given),
        _ => 255, // no stored answer
    }
}

// A call on the first n bytes: the function, the second (4), how many bytes are given, these.
fn call_in(space: &mut [u8], n: usize, bytes: &[u8]) -> u32 {
    let [function, a, b, c, d, _, given @ ..] = bytes else {
        return 255; // no stored answer
    };
    let Some(question) = space.get_mut(..n) else {
        return 255; // no stored answer
    };
    call(
        question,
        *function,
        u32::from_be_bytes([*a, *b, *c, *d]),
        given,
    )
}

fn is_answer(stored: &[u8], word: u32, space: &[u8]) -> bool {
    let [number, count, question @ ..] = stored else {
        return false;
    };
    is_word(word, *number, usize::from(*count)) && is_left(question, space)
}

fn calls_agree(space: &mut [u8], question: &[u8], calls: &[u8], stored: &[u8]) -> bool {
    let n = question.len();
    let Some(front) = space.get_mut(..n) else {
        return false;
    };
    front.copy_from_slice(question);
    let mut left = calls;
    let mut answers = stored;
    // a call's own bytes say where the next one begins: no `for` has it
    while let [_, _, _, _, _, given, ..] = left {
        let Some((call, later)) = left.split_at_checked(6 + usize::from(*given)) else {
            return false;
        };
        let Some((answer, rest)) = answers.split_at_checked(LEFT + n) else {
            return false;
        };
        let word = call_in(space, n, call);
        if !is_answer(answer, word, space) {
            return false;
        }
        left = later;
        answers = rest;
    }
    left.is_empty() && answers.is_empty()
}

// Length of the question, the question, the calls.
pub(crate) fn questions_agree(input: &[u8], stored: &[u8]) -> bool {
    let [n, rest @ ..] = input else {
        return false;
    };
    let Some((question, calls)) = rest.split_at_checked(usize::from(*n)) else {
        return false;
    };
    let mut space = [0xA5u8; 80];
    calls_agree(&mut space, question, calls, stored)
}
