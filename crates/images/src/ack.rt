// The image of an ACK.
ghost use Rattle.std.specs.Prelude.{◌≡◌};
ghost use Rattle.codec.specs.Writing.{put_at};
ghost use Rattle.images.specs.Ack.{ack_image};

use families::ack::AckRead;

// Where its parts stand, and its size, in include/crsf.h's words.
const ACK_COMMAND_ID: usize = 0;

const ACK_SUB_COMMAND_ID: usize = 1;

const ACK_ACTION: usize = 2;

const ACK_LENGTH: usize = 3;

pub const ACK_SIZE: usize = 56;

// "information up to 52 bytes"
const MAX_ACK_INFORMATION_LEN: usize = 52;

// The image at the front, where all of it has room.
pub fn put(answer: AckRead, out: &mut [u8])
    ensures { out.new ≡ put_at out.old 0 (ack_image answer.ack answer.len answer.bytes) }
{
    let Some(image) = out.first_chunk_mut::<ACK_SIZE>() else {
        return;
    };
    image[ACK_COMMAND_ID] = answer.ack.command_id;
    image[ACK_SUB_COMMAND_ID] = answer.ack.sub_command_id;
    image[ACK_ACTION] = answer.ack.action;
    crate::stored::put_at(
        image,
        ACK_LENGTH,
        answer.len,
        &answer.bytes[..MAX_ACK_INFORMATION_LEN],
    );
}
