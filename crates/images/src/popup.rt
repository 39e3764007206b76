// The image of a popup, which is that of its stored bytes.
ghost use Rattle.families.specs.Fields.{PopupIs};
ghost use Rattle.images.specs.Popup.{popup_from};

use codec::refusal::Refusal;
use families::screen::ScreenPopup;

// Where its parts stand, and its size, in include/crsf.h's words.
const POPUP_LENGTH: usize = 0;

const POPUP_BYTES: usize = 1;

pub const POPUP_SIZE: usize = 56;

const STORED: usize = POPUP_SIZE - POPUP_BYTES;

// The popup of an image; of other bytes 5.
pub fn from(image: &[u8]) -> Result<ScreenPopup, Refusal>
    ensures { PopupIs (popup_from image.now) result }
{
    let Some(image) = image.as_array::<POPUP_SIZE>() else {
        return Err(Refusal::RecordNotMade);
    };
    let mut stored = [0; STORED];
    stored.copy_from_slice(&image[POPUP_BYTES..]);
    Ok(ScreenPopup {
        len: image[POPUP_LENGTH] as usize,
        bytes: stored,
    })
}
