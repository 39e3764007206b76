// A number in an image, highest byte first; a flag.
ghost use Rattle.std.specs.Prelude.{◌≡◌};
ghost use Rattle.codec.specs.Told.{width_of};
ghost use Rattle.images.specs.Number.{number_at, flag_of};

use codec::reader::Width;
use codec::refusal::Refusal;

// In a width's bytes at a place; 0 where they are not all there.
pub fn at(image: &[u8], place: usize, width: Width) -> u32
    ensures { result ≡ number_at image.now place (width_of width) }
{
    match codec::reader::read_number(image, place, width, 0, u32::MAX) {
        Ok(number) => number,
        Err(_) => 0,
    }
}

// Of a byte above 1: 5.
pub fn flag(byte: u8) -> Result<bool, Refusal>
    ensures { result ≡ flag_of byte }
{
    match byte {
        0 => Ok(false),
        1 => Ok(true),
        _ => Err(Refusal::RecordNotMade),
    }
}
