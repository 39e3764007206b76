// Records made and taken apart, as images. Too short a slice for the image is 3, before all else.
ghost use Rattle.std.specs.Prelude.{◌≤◌, length};
ghost use Rattle.families.specs.Ack.{ack_with};
ghost use Rattle.families.specs.Fields.{construct, inspect};
ghost use Rattle.images.specs.Popup.{popup_image};
ghost use Rattle.images.specs.Fields.{fields_image};
ghost use Rattle.crsf.specs.Handed.{HandsOut, TextOut, AckOut, PopupOut, FieldsOut};

use codec::refusal::Refusal;
use families::ack::CommandAck;
use families::screen::{ScreenPopup, ScreenPopupFields};
use families::text::CommandString;
use images::ack::ACK_SIZE;
use images::fields::FIELDS_SIZE;
use images::popup::POPUP_SIZE;
use images::stored::TEXT_SIZE;
use images::word::{ACCEPTED, refused};

pub fn crsf_text(bytes: &[u8], text: &mut [u8]) -> u32
    ensures { TextOut bytes.now result text.old text.new }
{
    if text.len() < TEXT_SIZE {
        return refused(Refusal::BufferOverflow);
    }
    match CommandString::new(bytes) {
        Ok(made) => {
            images::stored::put(made.len, &made.bytes, text);
            ACCEPTED
        }
        Err(why) => refused(why),
    }
}

pub fn crsf_ack(
    command_id: u8,
    sub_command_id: u8,
    action: u8,
    information: &[u8],
    ack: &mut [u8],
) -> u32
    ensures { AckOut (ack_with command_id sub_command_id action) information.now result
        ack.old ack.new }
{
    if ack.len() < ACK_SIZE {
        return refused(Refusal::BufferOverflow);
    }
    match CommandAck::new(command_id, sub_command_id, action, information) {
        Ok(made) => {
            images::ack::put(made, ack);
            ACCEPTED
        }
        Err(why) => refused(why),
    }
}

// The popup made of fields, into a slice that has room for its image.
fn make(fields: ScreenPopupFields, popup: &mut [u8]) -> u32
    requires { 56 ≤ length popup.old }
    ensures { HandsOut popup_image (construct fields) result popup.old popup.new }
{
    match ScreenPopup::new(fields) {
        Ok(made) => {
            images::stored::put(made.len, &made.bytes, popup);
            ACCEPTED
        }
        Err(why) => refused(why),
    }
}

pub fn crsf_popup(fields: &[u8], popup: &mut [u8]) -> u32
    ensures { PopupOut fields.now result popup.old popup.new }
{
    if popup.len() < POPUP_SIZE {
        return refused(Refusal::BufferOverflow);
    }
    match images::fields::from(fields) {
        Ok(given) => make(given, popup),
        Err(why) => refused(why),
    }
}

// The fields of a popup, into a slice that has room for their image.
fn take_apart(popup: ScreenPopup, fields: &mut [u8]) -> u32
    requires { 268 ≤ length fields.old }
    ensures { HandsOut fields_image (inspect popup) result fields.old fields.new }
{
    match popup.fields() {
        Ok(held) => {
            images::fields::put(held, fields);
            ACCEPTED
        }
        Err(why) => refused(why),
    }
}

pub fn crsf_popup_fields(popup: &[u8], fields: &mut [u8]) -> u32
    ensures { FieldsOut popup.now result fields.old fields.new }
{
    if fields.len() < FIELDS_SIZE {
        return refused(Refusal::BufferOverflow);
    }
    match images::popup::from(popup) {
        Ok(given) => take_apart(given, fields),
        Err(why) => refused(why),
    }
}
