// Document 02, Wish 13: popup questions and their answers. Nothing here has a clock: the caller counts the seconds.
#![tactic(auto)]

ghost use Rattle.std.specs.Prelude.{◌≡◌};
ghost use Rattle.questions.specs.Table.{neither};
ghost use Rattle.questions.specs.Kept.{reason_number, new_question, StepIs, call_of};

use commands::DirectCommands;
use families::payload::CommandPayload;
use families::screen::{MAX_POPUP_DATA_LEN, ScreenCommand, ScreenPopup};

mod asking;
mod kept;
mod returning;

// Of no bytes.
const NO_POPUP: ScreenPopup = ScreenPopup {
    len: 0,
    bytes: [0u8; MAX_POPUP_DATA_LEN],
};

// Between two calls: whether one was accepted, whether a question is open, the second when its popup was sent, the last accepted second,
// and the popup. No Option stands for a flag: any 66 bytes with flags of 0 and 1 are the image of a question, which comes back as it was
// (include/crsf.h; question_back of question_images).
#[derive(Clone, Copy)]
pub struct Question {
    pub started: bool,
    pub open: bool,
    pub sent: u32,
    pub last: u32,
    pub popup: ScreenPopup,
}

// Why a call is refused.
#[derive(Clone, Copy, Debug, PartialEq, Eq)]
pub enum Reason {
    RecordNotMade,
    InvalidPayload,
    Clock,
    QuestionOpen,
    NoQuestion,
    Value,
}

// A question opened, or how it closed.
#[derive(Clone, Copy, Debug, PartialEq, Eq)]
pub enum Reply {
    Opened,
    Processed,
    Cancelled,
    Expired,
}

impl From<Reason> for u8 {
    ghost from_gives = { λ why number. number ≡ reason_number why };

    fn from(why: Reason) -> u8 {
        match why {
            Reason::RecordNotMade => 5,
            Reason::InvalidPayload => 2,
            Reason::Clock => 27,
            Reason::QuestionOpen => 28,
            Reason::NoQuestion => 29,
            Reason::Value => 30,
        }
    }
}

// Of the refusals of a call: "none changes the state".
impl Question {
    pub fn new() -> Question
        ensures { result ≡ new_question }
    {
        Question {
            started: false,
            open: false,
            sent: 0,
            last: 0,
            popup: NO_POPUP,
        }
    }

    // A command that is neither a popup nor a returned value.
    fn neither(&self) -> Result<Reply, Reason>
        ensures { StepIs self.now neither result self.now }
    {
        self.terms()?;
        Err(Reason::InvalidPayload)
    }

    // A command that was sent or has arrived: a popup asks with its stored bytes, a returned value hands on its value and response.
    pub fn command(&mut self, second: u32, command: DirectCommands) -> Result<Reply, Reason>
        ensures { StepIs self.old (call_of second command) result self.new }
    {
        match command.payload {
            CommandPayload::Screen(ScreenCommand::PopupMessageStart) => {
                let bytes = command.bytes;
                self.ask(
                    second,
                    ScreenPopup {
                        len: command.len,
                        bytes,
                    },
                )
            }
            CommandPayload::Screen(ScreenCommand::SelectionReturnValue { value, response }) =>
                self.returned(second, value, u8::from(response)),
            _ => self.neither(),
        }
    }
}
