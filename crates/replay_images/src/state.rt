// The image of a replay, the state kept between events.
ghost use Rattle.std.specs.Prelude.{◌≡◌};
ghost use Rattle.codec.specs.Writing.{put_at};
ghost use Rattle.replay_images.specs.State.{state_image, state_from, told_state};

use codec::reader::Width;
use codec::refusal::Refusal;
use replay::Replay;

// Where its parts stand, and its size, in include/crsf.h's words.
const REPLAY_STARTED: usize = 0;

const REPLAY_NUMBER: usize = 1;

const REPLAY_PLACE: usize = 5;

pub const REPLAY_SIZE: usize = 7;

// The state of an image; of other bytes 5.
pub fn from(image: &[u8]) -> Result<Replay, Refusal>
    ensures { told_state result ≡ state_from image.now }
{
    if image.len() != REPLAY_SIZE {
        return Err(Refusal::RecordNotMade);
    }
    let Ok(started) = images::number::flag(image[REPLAY_STARTED]) else {
        return Err(Refusal::RecordNotMade);
    };
    Ok(Replay {
        started,
        number: images::number::at(image, REPLAY_NUMBER, Width::Four),
        place: images::number::at(image, REPLAY_PLACE, Width::Two) as usize,
    })
}

// The image at the front, where all of it has room.
pub fn put(state: Replay, out: &mut [u8])
    ensures { out.new ≡ put_at out.old 0 (state_image state) }
{
    if out.len() < REPLAY_SIZE {
        return;
    }
    codec::writer::put_byte(out, REPLAY_STARTED, u8::from(state.started));
    codec::writer::put_number(out, REPLAY_NUMBER, Width::Four, state.number);
    codec::writer::put_number(out, REPLAY_PLACE, Width::Two, (state.place % 65536) as u32);
}
