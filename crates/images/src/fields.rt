// The image of a popup's fields.
ghost use Rattle.std.specs.Prelude.{◌≡◌, ◌+◌, ◌≤◌, length};
ghost use Rattle.std.proofs.lemmas.List.Edits.{sets};
ghost use Rattle.codec.specs.Writing.{put_at};
ghost use Rattle.families.specs.Fields.{FieldsIs};
ghost use Rattle.images.specs.Text.{text_image};
ghost use Rattle.images.specs.Fields.{head_image, selection_image, values_image, fields_image, text_at, kind_of, fields_from};

use crate::number::flag;
use crate::stored::{TEXT_BYTES, TEXT_SIZE};
use codec::reader::MAX_COMMAND_STRING_LEN;
use codec::refusal::Refusal;
use families::screen::{ScreenAdditionalData, ScreenPopupFields};
use families::text::CommandString;

// Where its parts stand, and its size, in include/crsf.h's words.
const FIELDS_HEADER: usize = 0;

const FIELDS_INFO: usize = 52;

const FIELDS_TIMEOUT: usize = 104;

const FIELDS_CLOSE: usize = 105;

const FIELDS_ADDITIONAL: usize = 106;

const FIELDS_LABEL: usize = 107;

const FIELDS_VALUE: usize = 159;

const FIELDS_MIN: usize = 160;

const FIELDS_MAX: usize = 161;

const FIELDS_DEFAULT: usize = 162;

const FIELDS_UNIT: usize = 163;

const FIELDS_HAS_POSSIBLE_VALUES: usize = 215;

const FIELDS_POSSIBLE_VALUES: usize = 216;

pub const FIELDS_SIZE: usize = 268;

// A text's image at a place that has room for it.
fn put_text(text: &CommandString, out: &mut [u8], at: usize)
    requires { at + 52 ≤ length out.old }
    ensures image { out.new ≡ sets out.old at (text_image text.now) }
    ensures len { length (text_image text.now) ≡ 52 }
{
    crate::stored::put_at(out, at, text.len, &text.bytes);
}

// Header, info, timeout, close, additional.
fn put_head(fields: &ScreenPopupFields, image: &mut [u8; FIELDS_SIZE])
    ensures { image.new ≡ sets image.old 0 (head_image fields.now) }
{
    put_text(&fields.header, image, FIELDS_HEADER);
    put_text(&fields.info, image, FIELDS_INFO);
    image[FIELDS_TIMEOUT] = fields.max_timeout_interval;
    image[FIELDS_CLOSE] = u8::from(fields.close_button_option);
    image[FIELDS_ADDITIONAL] = fields.additional_data as u8;
}

// Label, value, min, max, default, unit.
fn put_selection(fields: &ScreenPopupFields, image: &mut [u8; FIELDS_SIZE])
    ensures { image.new ≡ sets image.old 107 (selection_image fields.now) }
{
    put_text(&fields.selection_text, image, FIELDS_LABEL);
    image[FIELDS_VALUE] = fields.value;
    image[FIELDS_MIN] = fields.min_value;
    image[FIELDS_MAX] = fields.max_value;
    image[FIELDS_DEFAULT] = fields.default_value;
    put_text(&fields.unit, image, FIELDS_UNIT);
}

// Possible values: present, text.
fn put_values(fields: &ScreenPopupFields, image: &mut [u8; FIELDS_SIZE])
    ensures { image.new ≡ sets image.old 215 (values_image fields.now) }
{
    image[FIELDS_HAS_POSSIBLE_VALUES] = u8::from(fields.has_possible_values);
    put_text(&fields.possible_values, image, FIELDS_POSSIBLE_VALUES);
}

// The image at the front, where all of it has room.
pub fn put(fields: ScreenPopupFields, out: &mut [u8])
    ensures { out.new ≡ put_at out.old 0 (fields_image fields) }
{
    let Some(image) = out.first_chunk_mut::<FIELDS_SIZE>() else {
        return;
    };
    put_head(&fields, image);
    put_selection(&fields, image);
    put_values(&fields, image);
}

fn text_at(image: &[u8; FIELDS_SIZE], at: usize) -> CommandString
    requires { at + 52 ≤ 268 }
    ensures { result ≡ text_at image.now at }
{
    let mut stored = [0; MAX_COMMAND_STRING_LEN];
    stored.copy_from_slice(&image[at + TEXT_BYTES..at + TEXT_SIZE]);
    CommandString {
        len: image[at] as usize,
        bytes: stored,
    }
}

// The kind whose number `put_head` puts; of a byte above 2: 5. No TryFrom: the type is of families, its numbers are include/crsf.h's.
fn kind(byte: u8) -> Result<ScreenAdditionalData, Refusal>
    ensures { result ≡ kind_of byte }
{
    match byte {
        0 => Ok(ScreenAdditionalData::Absent),
        1 => Ok(ScreenAdditionalData::Empty),
        2 => Ok(ScreenAdditionalData::Selection),
        _ => Err(Refusal::RecordNotMade),
    }
}

// The fields of an image; of other bytes 5.
pub fn from(image: &[u8]) -> Result<ScreenPopupFields, Refusal>
    ensures { FieldsIs (fields_from image.now) result }
{
    let Some(image) = image.as_array::<FIELDS_SIZE>() else {
        return Err(Refusal::RecordNotMade);
    };
    let close_button_option = flag(image[FIELDS_CLOSE])?;
    let additional_data = kind(image[FIELDS_ADDITIONAL])?;
    let has_possible_values = flag(image[FIELDS_HAS_POSSIBLE_VALUES])?;
    Ok(ScreenPopupFields {
        header: text_at(image, FIELDS_HEADER),
        info: text_at(image, FIELDS_INFO),
        max_timeout_interval: image[FIELDS_TIMEOUT],
        close_button_option,
        additional_data,
        selection_text: text_at(image, FIELDS_LABEL),
        value: image[FIELDS_VALUE],
        min_value: image[FIELDS_MIN],
        max_value: image[FIELDS_MAX],
        default_value: image[FIELDS_DEFAULT],
        unit: text_at(image, FIELDS_UNIT),
        has_possible_values,
        possible_values: text_at(image, FIELDS_POSSIBLE_VALUES),
    })
}
