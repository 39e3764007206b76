// What crosses the C boundary of a question (include/crsf.h): what is kept of it, as an image. It stands here and not in images, so that
// images need not wait for the questions.
#![tactic(auto)]

ghost use Rattle.std.specs.Prelude.{◌≡◌};
ghost use Rattle.codec.specs.Writing.{put_at};
ghost use Rattle.question_images.specs.Image.{question_image, question_from, QuestionIs};

use codec::reader::Width;
use codec::refusal::Refusal;
use questions::Question;

// Where its parts stand, and its size, in include/crsf.h's words.
const QUESTION_STARTED: usize = 0;

const QUESTION_OPEN: usize = 1;

const QUESTION_SENT: usize = 2;

const QUESTION_LAST: usize = 6;

const QUESTION_POPUP: usize = 10;

pub const QUESTION_SIZE: usize = 66;

// The question of an image; of other bytes 5.
pub fn from(image: &[u8]) -> Result<Question, Refusal>
    ensures { QuestionIs (question_from image.now) result }
{
    if image.len() != QUESTION_SIZE {
        return Err(Refusal::RecordNotMade);
    }
    let started = images::number::flag(image[QUESTION_STARTED])?;
    let open = images::number::flag(image[QUESTION_OPEN])?;
    let popup = images::popup::from(&image[QUESTION_POPUP..])?;
    Ok(Question {
        started,
        open,
        sent: images::number::at(image, QUESTION_SENT, Width::Four),
        last: images::number::at(image, QUESTION_LAST, Width::Four),
        popup,
    })
}

// The image at the front, where all of it has room.
pub fn put(question: Question, out: &mut [u8])
    ensures { out.new ≡ put_at out.old 0 (question_image question) }
{
    if out.len() < QUESTION_SIZE {
        return;
    }
    codec::writer::put_byte(out, QUESTION_STARTED, u8::from(question.started));
    codec::writer::put_byte(out, QUESTION_OPEN, u8::from(question.open));
    codec::writer::put_number(out, QUESTION_SENT, Width::Four, question.sent);
    codec::writer::put_number(out, QUESTION_LAST, Width::Four, question.last);
    images::stored::put(
        question.popup.len,
        &question.popup.bytes,
        &mut out[QUESTION_POPUP..QUESTION_SIZE],
    );
}
