// A whole command read and written again: for measuring beside the Rust. Nothing of the product calls it.
#![tactic(auto)]

ghost use Rattle.commands.specs.Reading.{read_command};
ghost use Rattle.images.specs.Word.{WritesOut};

use commands::DirectCommands;
use images::word::{refused, written};

#[unsafe(no_mangle)]
pub extern "C" fn command_again(payload: &[u8], buffer: &mut [u8]) -> u32
    ensures { WritesOut (read_command payload.now) result buffer.old buffer.new }
{
    match DirectCommands::from_bytes(payload) {
        Ok(command) => written(command.to_bytes(buffer)),
        Err(why) => refused(why),
    }
}
