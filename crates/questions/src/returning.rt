// A value is returned.
ghost use Rattle.std.specs.Prelude.{◌≡◌, Ok};
ghost use Rattle.questions.specs.Table.{returns};
ghost use Rattle.questions.specs.Kept.{closes, StepIs};

use crate::{NO_POPUP, Question, Reason, Reply};

impl Question {
    // One that closes is kept no longer.
    fn close(&mut self, second: u32, reply: Reply) -> Result<Reply, Reason>
        ensures { (result ≡ Ok reply) × (self.new ≡ closes second) }
    {
        *self = Question {
            started: true,
            open: false,
            sent: 0,
            last: second,
            popup: NO_POPUP,
        };
        Ok(reply)
    }

    // Response 1 is processed, 0 cancelled.
    pub fn returned(&mut self, second: u32, value: u8, response: u8) -> Result<Reply, Reason>
        ensures { StepIs self.old (returns second value response) result self.new }
    {
        let terms = self.terms()?;
        if 1 < response {
            return Err(Reason::InvalidPayload);
        }
        if second < self.last {
            return Err(Reason::Clock);
        }
        let Some(terms) = terms else {
            return Err(Reason::NoQuestion);
        };
        if !self.waits(second, terms.timeout) {
            return self.close(second, Reply::Expired);
        }
        if response == 0 {
            return self.close(second, Reply::Cancelled);
        }
        if value < terms.low || terms.high < value {
            return Err(Reason::Value);
        }
        self.close(second, Reply::Processed)
    }
}
