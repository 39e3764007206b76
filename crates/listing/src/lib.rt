// Document 01, "The listing", as a step over a chunk of the input. Nothing here reads or writes.
#![tactic(auto)]

ghost use Rattle.std.specs.Prelude.{◌≡◌, ◌+◌, ◌≤◌, ◌<◌, [], ◌∷◌, length};
ghost use Rattle.codec.specs.Refusals.{told};
ghost use Rattle.commands.specs.Reading.{read_command};
ghost use Rattle.listing.specs.Listing.{line_of};
ghost use Rattle.listing.specs.Parts.{FillsFrom, Moves};
ghost use Rattle.listing.specs.Step.{most_records, longest_record, told_step, told_next, in_limits, opened, kept_with, line_with, go_on, step_of, closing};

use codec::refusal::Refusal;
use commands::DirectCommands;
use line::Line;

pub mod line;

// A payload longer than this is refused whatever it holds.
const MOST_KEPT: usize = 60;

// A length byte holds no more.
const LONGEST_RECORD: usize = 255;

// Between two chunks: the records so far; of the one that is cut, its length, how many payload bytes have come, and they, where
// they matter. Between records both numbers are 0. No Option stands for them: a state beyond its limits comes back as it was
// (`fill_beyond`).
#[derive(Clone, Copy)]
pub struct Listing {
    pub count: u64,
    pub wanted: usize,
    pub held: usize,
    pub bytes: [u8; MOST_KEPT],
}

// The state after a step, the place in the chunk where the next goes on, and the line that was found: none, as the chunk is used up.
#[derive(Clone, Copy)]
pub struct Step {
    pub state: Listing,
    pub at: usize,
    pub line: Option<Line>,
}

// Why a part ends: the chunk is used up; the next line has no room.
#[derive(Clone, Copy, Debug, PartialEq, Eq)]
pub enum Stop {
    Used,
    Full,
}

// The state after a part's lines, the place in the chunk where the next part goes on, and how many bytes of text there are. A refusal, of a
// state beyond its limits, stands inside: lines may stand before it.
#[derive(Clone, Copy)]
pub struct Part {
    pub state: Listing,
    pub at: usize,
    pub len: usize,
    pub stop: Result<Stop, Refusal>,
}

// Nothing of a record's payload has come yet.
fn fresh(count: u64, wanted: usize) -> Listing
    ensures { result ≡ opened count wanted }
{
    Listing {
        count,
        wanted,
        held: 0,
        bytes: [0u8; MOST_KEPT],
    }
}

// The line of a whole payload.
fn line_of(count: u64, payload: &[u8]) -> Line
    ensures { result ≡ line_of count (read_command payload.now) }
{
    match DirectCommands::from_bytes(payload) {
        Ok(command) => {
            let id = families::payload::command_id(command.payload);
            Line::Read(count, id, command.written_len())
        }
        Err(why) => Line::Refused(count, u8::from(why)),
    }
}

impl Listing {
    pub fn new() -> Listing
        ensures { result ≡ opened 0 0 }
    {
        fresh(0, 0)
    }

    fn in_limits(self) -> bool
        ensures { result ≡ in_limits self }
    {
        self.count < u64::MAX
            && self.wanted <= LONGEST_RECORD
            && (self.held < self.wanted || self.wanted == 0 && self.held == 0)
    }

    // These payload bytes, too, have come.
    fn keep(mut self, part: &[u8]) -> Listing
        requires { self.held + length part.now < self.wanted }
        ensures { result ≡ kept_with self part.now }
    {
        let held = self.held;
        if self.wanted <= MOST_KEPT {
            codec::writer::put_bytes(&mut self.bytes, held, part);
        }
        self.held = held + part.len();
        self
    }

    // The line of a record that came in pieces, with the last of them.
    fn join(mut self, part: &[u8]) -> Line
        requires { self.held + length part.now ≡ self.wanted }
        ensures { result ≡ line_with self part.now }
    {
        let wanted = self.wanted;
        if MOST_KEPT < wanted {
            return Line::Refused(self.count, u8::from(Refusal::InvalidPayloadLength));
        }
        let held = self.held;
        codec::writer::put_bytes(&mut self.bytes, held, part);
        line_of(self.count, &self.bytes[..wanted])
    }

    // A record that goes on in this chunk.
    fn go_on(self, input: &[u8], at: usize) -> Step
        requires { (at ≤ length input.now) × ((self.count < most_records) × (self.held < self.wanted)) }
        ensures { told_step result ≡ go_on self input.now at }
    {
        let left = self.wanted - self.held;
        if input.len() - at < left {
            return Step {
                state: self.keep(&input[at..]),
                at: input.len(),
                line: None,
            };
        }
        let end = at + left;
        Step {
            state: fresh(self.count + 1, 0),
            at: end,
            line: Some(self.join(&input[at..end])),
        }
    }

    // One record from a place of the chunk on, or all that is left of the chunk.
    fn next(self, input: &[u8], at: usize) -> Result<Step, Refusal>
        ensures { told_next self at result ≡ step_of self input.now at }
    {
        if !self.in_limits() {
            return Err(Refusal::RecordNotMade);
        }
        if input.len() <= at {
            return Ok(Step {
                state: self,
                at,
                line: None,
            });
        }
        if self.wanted == 0 {
            return Ok(begin(self.count, usize::from(input[at]), input, at + 1));
        }
        Ok(self.go_on(input, at))
    }

    // The text of the lines from a place of the chunk on, as many as have room.
    pub fn fill(self, input: &[u8], at: usize, text: &mut [u8]) -> Part
        ensures fills_from { FillsFrom self input.now at result text.old text.new }
        ensures moves { Moves at input.now result text.old }
    {
        let mut state = self;
        let mut place = at;
        let mut len: usize = 0;
        // Each step says where the next one begins, and each line where its text ends: no index is counted, and no `for` has them.
        loop {
            let step = match state.next(input, place) {
                Ok(step) => step,
                Err(why) => {
                    return Part {
                        state,
                        at: place,
                        len,
                        stop: Err(why),
                    };
                }
            };
            let Some(line) = step.line else {
                return Part {
                    state: step.state,
                    at: step.at,
                    len,
                    stop: Ok(Stop::Used),
                };
            };
            let put = line::put_text(line, text, len);
            if put == 0 {
                return Part {
                    state,
                    at: place,
                    len,
                    stop: Ok(Stop::Full),
                };
            }
            len += put;
            state = step.state;
            place = step.at;
        }
    }

    // The input has ended.
    pub fn finish(self) -> Result<Line, Refusal>
        ensures { told (λ line. line ∷ []) result ≡ closing self }
    {
        if !self.in_limits() {
            return Err(Refusal::RecordNotMade);
        }
        if self.wanted == 0 {
            return Ok(Line::End(self.count));
        }
        Ok(Line::Cut(self.count))
    }
}

// A record whose length byte stands before `at`: where the chunk has all of it, nothing is copied.
fn begin(count: u64, wanted: usize, input: &[u8], at: usize) -> Step
    requires { (at ≤ length input.now) × ((count < most_records) × (wanted ≤ longest_record)) }
    ensures { told_step result ≡ go_on (opened count wanted) input.now at }
{
    if input.len() - at < wanted {
        return Step {
            state: fresh(count, wanted).keep(&input[at..]),
            at: input.len(),
            line: None,
        };
    }
    let end = at + wanted;
    Step {
        state: fresh(count + 1, 0),
        at: end,
        line: Some(line_of(count, &input[at..end])),
    }
}
