// Document 02, Wish 1: the box's log, block by block. Nothing here reads or writes.
#![tactic(auto)]

ghost use Rattle.std.specs.Prelude.{true, ◌≡◌, []};
ghost use Rattle.commands.specs.Reading.{read_command};
ghost use Rattle.blocks.specs.Block.{block_number, records_of};
ghost use Rattle.blocks.specs.Walk.{record_at};
ghost use Rattle.replay.specs.Events.{record_event, block_event};
ghost use Rattle.replay.specs.Log.{ordered};
ghost use Rattle.replay.specs.Step.{new_replay, before_of, in_limits, after_step, entering, opens, goes_on, step_of, StepIs, Opens, records_in};

use blocks::{CHECK, FIRST_RECORD};
use codec::refusal::Refusal;
use commands::DirectCommands;

// Between two events: whether a sound block has come, the number of the last one, and the place of the next record's length byte,
// 0 where a new block is to come. A flag and a number, and no Option: `next` is handed states beyond their limits and answers 5
// (must-fail/number_unstarted, place_unstarted), which an Option could not say; and the image has all three (include/crsf.h).
#[derive(Clone, Copy)]
pub struct Replay {
    pub started: bool,
    pub number: u32,
    pub place: usize,
}

#[derive(Clone, Copy)]
pub enum Kind {
    Nothing,
    Command,
    Refused,
    Damaged,
    Gap,
    Back,
}

// An event has its block's number, a damaged block's the caller's position. What it does not have is 0, or the blank command: so its image
// has it (include/crsf.h), whose parts are there whatever the kind, and so the theorems speak of its fields; hence no enum with values.
#[derive(Clone, Copy)]
pub struct Event {
    pub kind: Kind,
    pub block: u32,
    pub place: usize,
    pub number: u8,
    pub payload_place: u8,
    pub command: DirectCommands,
}

// The state after an event. Where a step is refused there is neither: the caller's own state stays as it was.
#[derive(Clone, Copy)]
pub struct Step {
    pub state: Replay,
    pub event: Event,
}

// What is said of a block as a whole.
fn block_event(kind: Kind, block: u32, number: u8) -> Event
    ensures { result ≡ block_event kind block number }
{
    Event {
        kind,
        block,
        place: 0,
        number,
        payload_place: 0,
        command: DirectCommands::blank(),
    }
}

fn record_event(block: u32, place: usize, payload: &[u8]) -> Event
    ensures { result ≡ record_event block place (read_command payload.now) }
{
    match DirectCommands::from_bytes(payload) {
        Ok(command) => Event {
            kind: Kind::Command,
            block,
            place,
            number: 0,
            payload_place: 0,
            command,
        },
        Err(why) => Event {
            kind: Kind::Refused,
            block,
            place,
            number: u8::from(why),
            payload_place: 0,
            command: DirectCommands::blank(),
        },
    }
}

impl Replay {
    pub fn new() -> Replay
        ensures { result ≡ new_replay }
    {
        Replay {
            started: false,
            number: 0,
            place: 0,
        }
    }

    // Not started, the rest is 0; started, the place is 0 or 6 to 511.
    fn in_limits(self) -> bool
        ensures { result ≡ in_limits self }
    {
        if self.started {
            return self.place == 0 || (FIRST_RECORD <= self.place && self.place <= CHECK);
        }
        self.number == 0 && self.place == 0
    }

    // What is said of a block as a whole, and the state after it.
    fn says(self, kind: Kind, block: u32, number: u8) -> Step
        ensures { result ≡ after_step self (block_event kind block number) }
    {
        Step {
            state: self,
            event: block_event(kind, block, number),
        }
    }

    // The record at the state's place.
    fn go_on(self, block: &[u8]) -> Result<Step, Refusal>
        ensures { StepIs (goes_on self block.now (record_at block.now self.place)) result }
    {
        let place = self.place;
        let Some(record) = blocks::record_at(block, place) else {
            return Err(Refusal::RecordNotMade);
        };
        Ok(Step {
            state: Replay {
                place: record.next,
                ..self
            },
            event: record_event(record.number, place, &block[place + 1..record.end]),
        })
    }

    // A sound block in order: its first record, or that it has none.
    fn begin(self, block: &[u8]) -> Result<Step, Refusal>
        requires { (self.started ≡ true) × Opens self.number self.place block.now }
        ensures { StepIs (entering [] self.number (records_in block.now)) result }
    {
        if self.place == 0 {
            return Ok(self.says(Kind::Nothing, self.number, 0));
        }
        self.go_on(block)
    }

    // A sound block of this number: a gap or a step back comes before its records.
    fn enter(self, number: u32, first: usize, block: &[u8]) -> Result<Step, Refusal>
        requires { Opens number first block.now }
        ensures { StepIs (entering (ordered (before_of self) number) number (records_in block.now)) result }
    {
        let entered = Replay {
            started: true,
            number,
            place: first,
        };
        if !self.started {
            return entered.begin(block);
        }
        if number <= self.number {
            return Ok(entered.says(Kind::Back, number, 0));
        }
        if 1 < number - self.number {
            return Ok(entered.says(Kind::Gap, number, 0));
        }
        entered.begin(block)
    }

    // A new block.
    fn open(self, position: u32, block: &[u8]) -> Result<Step, Refusal>
        ensures { StepIs (opens self position (block_number block.now) (records_of block.now)) result }
    {
        match blocks::judge(block) {
            Ok(sound) => self.enter(sound.number, sound.first, block),
            Err(damage) => Ok(self.says(Kind::Damaged, position, u8::from(damage))),
        }
    }

    // The next event of a block, which is handed in again while there is more: while the state has a place.
    pub fn next(self, position: u32, block: &[u8]) -> Result<Step, Refusal>
        ensures { StepIs (step_of self position block.now) result }
    {
        if !self.in_limits() {
            return Err(Refusal::RecordNotMade);
        }
        if self.place == 0 {
            return self.open(position, block);
        }
        self.go_on(block)
    }
}
