// The image of a whole command record.
ghost use Rattle.std.specs.Prelude.{◌≡◌, ◌∷◌, length, take, drop};
ghost use Rattle.codec.specs.Writing.{put_at};
ghost use Rattle.codec.specs.Same.{same};
ghost use Rattle.families.specs.Payload.{family_id};
ghost use Rattle.commands.specs.Reading.{CommandIs};
ghost use Rattle.images.specs.Values.{payload_laid};
ghost use Rattle.images.specs.Record.{record_image, record_from};

use codec::refusal::Refusal;
use commands::DirectCommands;
use families::payload::CommandPayload;

// Where its parts stand, and its size, in include/crsf.h's words.
const RECORD_DESTINATION: usize = 0;

const RECORD_SOURCE: usize = 1;

pub(crate) const RECORD_ID: usize = 2;

pub(crate) const RECORD_SUB_COMMAND: usize = 3;

pub(crate) const RECORD_VALUES: usize = 4;

const RECORD_LENGTH: usize = 14;

const RECORD_BYTES: usize = 15;

pub const RECORD_SIZE: usize = 70;

const STORED: usize = RECORD_SIZE - RECORD_BYTES;

// The image at the front, where all of it has room.
pub fn put(command: DirectCommands, out: &mut [u8])
    ensures { out.new ≡ put_at out.old 0 (record_image command) }
{
    let Some(image) = out.first_chunk_mut::<RECORD_SIZE>() else {
        return;
    };
    image[RECORD_DESTINATION] = command.dst_addr;
    image[RECORD_SOURCE] = command.src_addr;
    image[RECORD_ID] = families::payload::command_id(command.payload);
    let values = crate::values::payload_laid(command.payload);
    image[RECORD_SUB_COMMAND..RECORD_LENGTH].copy_from_slice(&values);
    crate::stored::put_at(image, RECORD_LENGTH, command.len, &command.bytes);
}

// Whether id, sub-command and values of an image are those of the payload.
fn is_laid(payload: CommandPayload, image: &[u8; RECORD_SIZE]) -> bool
    ensures { result ≡ same (family_id payload ∷ payload_laid payload) (take 12 (drop 2 image.now)) }
{
    let values = crate::values::payload_laid(payload);
    image[RECORD_ID] == families::payload::command_id(payload)
        && image[RECORD_SUB_COMMAND..].starts_with(&values)
}

// The record of an image; of other bytes 5.
pub fn from(image: &[u8]) -> Result<DirectCommands, Refusal>
    ensures { CommandIs (record_from image.now) result }
{
    let Some(image) = image.as_array::<RECORD_SIZE>() else {
        return Err(Refusal::RecordNotMade);
    };
    let payload = crate::values::payload_at(image);
    if !is_laid(payload, image) {
        return Err(Refusal::RecordNotMade);
    }
    let mut stored = [0; STORED];
    stored.copy_from_slice(&image[RECORD_BYTES..]);
    Ok(DirectCommands {
        dst_addr: image[RECORD_DESTINATION],
        src_addr: image[RECORD_SOURCE],
        payload,
        len: image[RECORD_LENGTH] as usize,
        bytes: stored,
    })
}
