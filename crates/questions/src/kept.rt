// What is kept between calls: whether it is within its limits, and what an open question goes by.
ghost use Rattle.std.specs.Prelude.{false, ◌≡◌, ◌-◌, leb};
ghost use Rattle.questions.specs.Kept.{in_limits, TermsIn, TermsAre};

use crate::{Question, Reason};
use families::screen::{ScreenAdditionalData, ScreenPopup};

// What a question goes by: how long it may be answered, and which values a processed return may have.
#[derive(Clone, Copy)]
pub(crate) struct Terms {
    pub(crate) timeout: u8,
    pub(crate) low: u8,
    pub(crate) high: u8,
}

// Of a popup: one without a selection takes any value.
fn popup_terms(popup: ScreenPopup) -> Result<Terms, Reason>
    ensures { TermsIn popup result }
{
    let Ok(fields) = popup.fields() else {
        return Err(Reason::RecordNotMade);
    };
    let timeout = fields.max_timeout_interval;
    match fields.additional_data {
        ScreenAdditionalData::Selection => Ok(Terms {
            timeout,
            low: fields.min_value,
            high: fields.max_value,
        }),
        _ => Ok(Terms {
            timeout,
            low: 0,
            high: u8::MAX,
        }),
    }
}

impl Question {
    // Not open: no second and no popup are kept, and before the first accepted call no last second either.
    fn keeps_nothing(&self) -> bool
        requires { self.now.«open» ≡ false }
        ensures { result ≡ in_limits self.now }
    {
        self.sent == 0
            && self.popup.len == 0
            && (self.started || self.last == 0)
            && families::text::all_zero(&self.popup.bytes)
    }

    // What is kept, if it is within its limits: what an open question goes by, none where none is open. Before the first accepted call
    // the last second is 0 there: no second is lower.
    pub(crate) fn terms(&self) -> Result<Option<Terms>, Reason>
        ensures { TermsAre self.now result }
    {
        if !self.open {
            if !self.keeps_nothing() {
                return Err(Reason::RecordNotMade);
            }
            return Ok(None);
        }
        if !self.started || self.last < self.sent {
            return Err(Reason::RecordNotMade);
        }
        Ok(Some(popup_terms(self.popup)?))
    }

    // Whether a question sent then may still be answered. How long ago it was sent is compared, and no sum: at the largest second that
    // would wrap around.
    pub(crate) fn waits(&self, second: u32, timeout: u8) -> bool
        ensures { result ≡ leb (second - self.now.sent) timeout }
    {
        second.saturating_sub(self.sent) <= u32::from(timeout)
    }
}
