// The answer word of an exported function: the number in bits 0-7 (0: accepted), the count in bits 8-15, the place in bits 16-31.
// It stands here and not in crsf, since `again` answers in the same words and is no part of the archive.
ghost use Rattle.std.specs.Prelude.{◌≡◌};
ghost use Rattle.codec.specs.Refusals.{refusal_number};
ghost use Rattle.codec.specs.Told.{told_written};
ghost use Rattle.images.specs.Word.{word, answer_word};

use codec::refusal::Refusal;

// Accepted, and nothing to count.
pub const ACCEPTED: u32 = 0;

// A refusal: its number, no count, place 0.
pub fn refused(why: Refusal) -> u32
    ensures { result ≡ word (refusal_number why) 0 0 }
{
    u8::from(why) as u32
}

// What writing answers: how many bytes, or a refusal.
pub fn written(answer: Result<usize, Refusal>) -> u32
    ensures { result ≡ answer_word (told_written answer) }
{
    match answer {
        Ok(count) => (count % 256) as u32 * 256,
        Err(why) => refused(why),
    }
}
