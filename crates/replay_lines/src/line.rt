// The text of an event's line.
ghost use Rattle.text.specs.Putting.{EndsWith};
ghost use Rattle.replay_lines.specs.Text.{text_of, read_text, command_text, refused_text, damaged_text};
ghost use Rattle.replay_lines.specs.Lines.{PutsText};

use commands::DirectCommands;
use replay::{Event, Kind};
use text::{put_behind, put_decimal, put_hex, put_numbered, put_word};

// No text of a line is longer.
pub(crate) const LONGEST: usize = 64;

fn put_damaged(text: &mut [u8; LONGEST], position: u32, why: u8) -> usize
    ensures { EndsWith (damaged_text position why) result text.new }
{
    let space = put_numbered(text, LONGEST, b" ", why as u64);
    let block = put_decimal(text, space, position as u64);
    put_word(text, block, b"damaged ")
}

fn put_read(text: &mut [u8; LONGEST], block: u32, place: usize, family: u8, written: usize) -> usize
    ensures { EndsWith (read_text block place family written) result text.new }
{
    let space = put_numbered(text, LONGEST, b" ", written as u64);
    let id = put_hex(text, space, family);
    let word = put_word(text, id, b" read ");
    let digits = put_decimal(text, word, place as u64);
    let gap = put_word(text, digits, b" ");
    put_decimal(text, gap, block as u64)
}

fn put_refused(text: &mut [u8; LONGEST], block: u32, place: usize, why: u8, own: u8) -> usize
    ensures { EndsWith (refused_text block place why own) result text.new }
{
    let space = put_numbered(text, LONGEST, b" ", own as u64);
    let number = put_decimal(text, space, why as u64);
    let word = put_word(text, number, b" refused ");
    let record = put_decimal(text, word, place as u64);
    let gap = put_word(text, record, b" ");
    put_decimal(text, gap, block as u64)
}

fn put_command(text: &mut [u8; LONGEST], block: u32, place: usize, command: DirectCommands) -> usize
    ensures { EndsWith (command_text block place command) result text.new }
{
    let payload = command.payload;
    let family = families::payload::command_id(payload);
    let written = command.written_len();
    put_read(text, block, place, family, written)
}

// All of an event's text. A block in order without records has none.
fn put_event(text: &mut [u8; LONGEST], event: Event) -> usize
    ensures { EndsWith (text_of event) result text.new }
{
    match event.kind {
        Kind::Nothing => LONGEST,
        Kind::Command => {
            let command = event.command;
            put_command(text, event.block, event.place, command)
        }
        Kind::Refused => {
            put_refused(
                text,
                event.block,
                event.place,
                event.number,
                event.payload_place,
            )
        }
        Kind::Damaged => put_damaged(text, event.block, event.number),
        Kind::Gap => put_numbered(text, LONGEST, b"gap ", event.block as u64),
        Kind::Back => put_numbered(text, LONGEST, b"back ", event.block as u64),
    }
}

// The text at a place of `out`, where all of it has room there: the answer is its length, else 0, as it also is of an event without a
// line. `list_steps` adds it as it is, so no Option.
pub(crate) fn put_text(event: Event, out: &mut [u8], at: usize) -> usize
    ensures { PutsText (text_of event) at result out.old out.new }
{
    let mut text = [0u8; LONGEST];
    let start = put_event(&mut text, event);
    put_behind(out, at, &text[start..])
}
