// The log replayed, an event a call.
ghost use Rattle.std.specs.Prelude.{◌≡◌, ◌≤◌, length};
ghost use Rattle.std.proofs.lemmas.List.Edits.{sets};
ghost use Rattle.replay_images.specs.State.{state_image};
ghost use Rattle.replay_images.specs.Event.{event_image};
ghost use Rattle.crsf.specs.Log.{more, ReplaysOut};

use codec::refusal::Refusal;
use images::word::{ACCEPTED, refused};
use replay::Step;
use replay_images::event::EVENT_SIZE;

// The state after a step and its event, into slices that have room for their images.
fn hand_out(step: Step, replay: &mut [u8], event: &mut [u8])
    requires { (7 ≤ length replay.old) × (80 ≤ length event.old) }
    ensures replay_after { replay.new ≡ sets replay.old 0 (state_image step.state) }
    ensures event_after { event.new ≡ sets event.old 0 (event_image (more step.state) step.event) }
{
    let after = step.state;
    replay_images::state::put(after, replay);
    replay_images::event::put(step.event, after.place != 0, event);
}

// Too short an event is 3, before all else.
pub fn crsf_replay(replay: &mut [u8], position: u32, block: &[u8], event: &mut [u8]) -> u32
    ensures { ReplaysOut position block.now result replay.old replay.new
        event.old event.new }
{
    if event.len() < EVENT_SIZE {
        return refused(Refusal::BufferOverflow);
    }
    let state = match replay_images::state::from(replay) {
        Ok(state) => state,
        Err(why) => return refused(why),
    };
    match state.next(position, block) {
        Ok(step) => {
            hand_out(step, replay, event);
            ACCEPTED
        }
        Err(why) => refused(why),
    }
}
