// The exported functions on a record's input. Each lends a slice filled with A5, and the stored answer is a number and, where that is 0,
// the bytes that then stand in front; behind them, and after a refusal everywhere, A5 is left.

// The word's number is the stored one, its count is that of the bytes where they are counted, its place 0.
pub(crate) fn is_word(word: u32, number: u8, count: usize) -> bool {
    word % 256 == u32::from(number) && word / 256 == (count % 256) as u32
}

// These bytes stand in front, and behind them every byte is as it was lent. Of bytes that have no room a 0 agrees.
pub(crate) fn is_left(bytes: &[u8], space: &[u8]) -> bool {
    let n = bytes.len().min(space.len());
    let (front, behind) = space.split_at(n);
    let (bytes, beyond) = bytes.split_at(n);
    bytes == front && behind.iter().all(|b| *b == 0xA5) && beyond.iter().all(|b| *b == 0)
}

pub(crate) fn is_image(stored: &[u8], word: u32, space: &[u8]) -> bool {
    let [number, image @ ..] = stored else {
        return false;
    };
    is_left(image, space) && is_word(word, *number, 0)
}

fn is_counted(stored: &[u8], word: u32, space: &[u8]) -> bool {
    let [number, bytes @ ..] = stored else {
        return false;
    };
    is_left(bytes, space) && is_word(word, *number, bytes.len())
}

pub(crate) fn read_agrees(payload: &[u8], stored: &[u8]) -> bool {
    let mut space = [0xA5u8; 80];
    let w = crsf::command::crsf_read(payload, &mut space);
    is_image(stored, w, &space)
}

fn into_room(record: &[u8], space: &mut [u8], room: usize) -> u32 {
    let Some(room) = space.get_mut(..room) else {
        return 255; // no stored answer
    };
    crsf::command::crsf_write(record, room)
}

// The buffer's length, the record.
pub(crate) fn write_agrees(input: &[u8], stored: &[u8]) -> bool {
    let [room, record @ ..] = input else {
        return false;
    };
    let mut space = [0xA5u8; 80];
    let w = into_room(record, &mut space, usize::from(*room));
    is_counted(stored, w, &space)
}

pub(crate) fn text_agrees(bytes: &[u8], stored: &[u8]) -> bool {
    let mut space = [0xA5u8; 80];
    let w = crsf::made::crsf_text(bytes, &mut space);
    is_image(stored, w, &space)
}

// Command id, sub id, action, information.
pub(crate) fn ack_agrees(input: &[u8], stored: &[u8]) -> bool {
    let [command, sub, action, information @ ..] = input else {
        return false;
    };
    let mut space = [0xA5u8; 80];
    let w = crsf::made::crsf_ack(*command, *sub, *action, information, &mut space);
    is_image(stored, w, &space)
}

pub(crate) fn popup_agrees(fields: &[u8], stored: &[u8]) -> bool {
    let mut space = [0xA5u8; 80];
    let w = crsf::made::crsf_popup(fields, &mut space);
    is_image(stored, w, &space)
}

pub(crate) fn inspect_agrees(popup: &[u8], stored: &[u8]) -> bool {
    let mut space = [0xA5u8; 280];
    let w = crsf::made::crsf_popup_fields(popup, &mut space);
    is_image(stored, w, &space)
}
