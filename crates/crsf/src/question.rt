// Popup questions and their answers: the question is kept in the caller's bytes.
ghost use Rattle.std.specs.Prelude.{◌≡◌, ◌≤◌, length};
ghost use Rattle.std.proofs.lemmas.List.Edits.{sets};
ghost use Rattle.question_images.specs.Image.{question_image};
ghost use Rattle.crsf.specs.Question.{reply_called, HandsBack, asking, returning, commanding, CallsOut};

use images::word::{ACCEPTED, refused};
use questions::{Question, Reason, Reply};

// How it closed, in the count's bits.
const PROCESSED: u32 = 0x100;

const CANCELLED: u32 = 0x200;

const EXPIRED: u32 = 0x300;

// What is kept now goes into the image.
fn keep(question: Question, word: u32, image: &mut [u8]) -> u32
    requires { 66 ≤ length image.old }
    ensures value { result ≡ word }
    ensures image_after { image.new ≡ sets image.old 0 (question_image question) }
{
    question_images::put(question, image);
    word
}

// A refusal leaves the image as it was.
fn hand_back(reply: Result<Reply, Reason>, question: Question, image: &mut [u8]) -> u32
    requires { 66 ≤ length image.old }
    ensures { HandsBack (reply_called reply question) result image.old image.new }
{
    match reply {
        Ok(reply) => match reply {
            Reply::Opened => keep(question, ACCEPTED, image),
            Reply::Processed => keep(question, PROCESSED, image),
            Reply::Cancelled => keep(question, CANCELLED, image),
            Reply::Expired => keep(question, EXPIRED, image),
        },
        Err(why) => u8::from(why) as u32,
    }
}

pub fn crsf_question_ask(image: &mut [u8], second: u32, popup: &[u8]) -> u32
    ensures { CallsOut (asking second popup.now) result image.old image.new }
{
    let mut question = match question_images::from(image) {
        Ok(question) => question,
        Err(why) => return refused(why),
    };
    let sent = match images::popup::from(popup) {
        Ok(popup) => popup,
        Err(why) => return refused(why),
    };
    let reply = question.ask(second, sent);
    hand_back(reply, question, image)
}

pub fn crsf_question_return(image: &mut [u8], second: u32, value: u8, response: u8) -> u32
    ensures { CallsOut (returning second value response) result image.old image.new }
{
    let mut question = match question_images::from(image) {
        Ok(question) => question,
        Err(why) => return refused(why),
    };
    let reply = question.returned(second, value, response);
    hand_back(reply, question, image)
}

// The image of a popup command that was sent, or of a returned value that has arrived; of another command 2.
pub fn crsf_question_command(image: &mut [u8], second: u32, command: &[u8]) -> u32
    ensures { CallsOut (commanding second command.now) result image.old image.new }
{
    let mut question = match question_images::from(image) {
        Ok(question) => question,
        Err(why) => return refused(why),
    };
    let given = match images::record::from(command) {
        Ok(command) => command,
        Err(why) => return refused(why),
    };
    let reply = question.command(second, given);
    hand_back(reply, question, image)
}
