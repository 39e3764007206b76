// Whole commands, read into the image of a record and written from one.
ghost use Rattle.images.specs.Record.{record_from};
ghost use Rattle.images.specs.Word.{WritesOut};
ghost use Rattle.crsf.specs.Handed.{ReadsOut};

use codec::refusal::Refusal;
use commands::DirectCommands;
use images::record::RECORD_SIZE;
use images::word::{ACCEPTED, refused, written};

// Too short a slice for the image is 3, before all else.
pub fn crsf_read(payload: &[u8], image: &mut [u8]) -> u32
    ensures { ReadsOut payload.now result image.old image.new }
{
    if image.len() < RECORD_SIZE {
        return refused(Refusal::BufferOverflow);
    }
    match DirectCommands::from_bytes(payload) {
        Ok(command) => {
            images::record::put(command, image);
            ACCEPTED
        }
        Err(why) => refused(why),
    }
}

pub fn crsf_write(image: &[u8], buffer: &mut [u8]) -> u32
    ensures { WritesOut (record_from image.now) result buffer.old buffer.new }
{
    match images::record::from(image) {
        Ok(command) => written(command.to_bytes(buffer)),
        Err(why) => refused(why),
    }
}
