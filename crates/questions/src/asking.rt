// A popup is sent.
ghost use Rattle.std.specs.Prelude.{◌≡◌};
ghost use Rattle.questions.specs.Table.{asks};
ghost use Rattle.questions.specs.Kept.{StepIs};

use crate::{Question, Reason, Reply};
use families::screen::ScreenPopup;

impl Question {
    pub fn ask(&mut self, second: u32, popup: ScreenPopup) -> Result<Reply, Reason>
        ensures { StepIs self.old (asks second popup) result self.new }
    {
        let terms = self.terms()?;
        if !families::screen::made(&popup.bytes, popup.len) {
            return Err(Reason::RecordNotMade);
        }
        if second < self.last {
            return Err(Reason::Clock);
        }
        if let Some(terms) = terms
            && self.waits(second, terms.timeout)
        {
            return Err(Reason::QuestionOpen);
        }
        // One that opens: this popup, sent now.
        *self = Question {
            started: true,
            open: true,
            sent: second,
            last: second,
            popup,
        };
        Ok(Reply::Opened)
    }
}
