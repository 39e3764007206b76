// The image of an event.
ghost use Rattle.std.specs.Prelude.{◌≡◌, ◌≤◌, length};
ghost use Rattle.std.proofs.lemmas.List.Edits.{sets};
ghost use Rattle.codec.specs.Writing.{put_at};
ghost use Rattle.replay_images.specs.Event.{head_image, event_image};

use codec::reader::Width;
use replay::Event;

// Where its parts stand, and its size, in include/crsf.h's words.
const EVENT_KIND: usize = 0;

const EVENT_MORE: usize = 1;

const EVENT_BLOCK: usize = 2;

const EVENT_PLACE: usize = 6;

const EVENT_NUMBER: usize = 8;

const EVENT_PAYLOAD_PLACE: usize = 9;

const EVENT_RECORD: usize = 10;

pub const EVENT_SIZE: usize = 80;

// All but the record.
fn put_head(event: &Event, more: bool, out: &mut [u8])
    requires { 80 ≤ length out.old }
    ensures { out.new ≡ sets out.old 0 (head_image more event.now) }
{
    codec::writer::put_byte(out, EVENT_KIND, event.kind as u8);
    codec::writer::put_byte(out, EVENT_MORE, u8::from(more));
    codec::writer::put_number(out, EVENT_BLOCK, Width::Four, event.block);
    codec::writer::put_number(out, EVENT_PLACE, Width::Two, (event.place % 65536) as u32);
    codec::writer::put_byte(out, EVENT_NUMBER, event.number);
    codec::writer::put_byte(out, EVENT_PAYLOAD_PLACE, event.payload_place);
}

// The image at the front, where all of it has room; `more` tells whether the block has more events.
pub fn put(event: Event, more: bool, out: &mut [u8])
    ensures { out.new ≡ put_at out.old 0 (event_image more event) }
{
    if out.len() < EVENT_SIZE {
        return;
    }
    put_head(&event, more, out);
    images::record::put(event.command, &mut out[EVENT_RECORD..EVENT_SIZE]);
}
