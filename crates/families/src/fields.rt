// A popup's fields judged, and put.
ghost use Rattle.std.specs.Prelude.{◌≡◌, true, ◌++◌, ◌∷◌, [], ◌+◌, ◌≤◌, ◌<◌, length};
ghost use Rattle.codec.specs.Pick.{pick};
ghost use Rattle.codec.specs.Sheet.{got};
ghost use Rattle.codec.specs.Refusals.{outcome_number, number_in};
ghost use Rattle.families.specs.Text.{bytes_in};
ghost use Rattle.families.specs.Fields.{made_more, made_values, made_texts, construct};
ghost use Rattle.families.specs.Sizes.{over, stop_selection, SelectionFits, MoreFits, ValuesFit, more_size, values_size, Puts, PutsHead, PutsMore, PutsValues, PutsPopup};

use crate::screen::{MAX_POPUP_DATA_LEN, ScreenAdditionalData, ScreenPopup, ScreenPopupFields};
use crate::text::CommandString;
use codec::refusal::Refusal;
use codec::writer::{bit_of, put_bytes};

fn more_made(fields: ScreenPopupFields) -> bool
    ensures { result ≡ made_more fields.additional_data fields }
{
    match fields.additional_data {
        ScreenAdditionalData::Absent | ScreenAdditionalData::Empty => true,
        ScreenAdditionalData::Selection => fields.selection_text.made() && fields.unit.made(),
    }
}

fn values_made(fields: ScreenPopupFields) -> bool
    ensures { result ≡ made_values fields.has_possible_values fields }
{
    !fields.has_possible_values || fields.possible_values.made()
}

// Every text that is present is made.
fn texts_made(fields: ScreenPopupFields) -> bool
    ensures { result ≡ made_texts fields }
{
    fields.header.made() && fields.info.made() && more_made(fields) && values_made(fields)
}

// 1 unless so many bytes have room.
fn room(size: usize) -> Result<(), Refusal>
    ensures { outcome_number result ≡ over size }
{
    if MAX_POPUP_DATA_LEN < size {
        Err(Refusal::InvalidPayloadLength)
    } else {
        Ok(())
    }
}

// Possible values are a text and its 00, where they are present.
fn values_size(present: bool, len: usize) -> usize
    requires { present ≡ true → len ≤ 51 }
    ensures { (result ≡ pick present (len + 1) 0) × (result ≤ 52) }
{
    if present { len + 1 } else { 0 }
}

// A head is two texts, each with its 00, the timeout and the close flag; a selection two texts likewise and four numbers.
const HEAD_LEN: usize = 4;

const SELECTION_LEN: usize = 6;

const EMPTY_LEN: usize = 1;

// A selection: an empty label stops at its turn, before its own room.
fn judge_selection(head: usize, label: usize, unit: usize, values: usize) -> Result<(), Refusal>
    requires { ((head ≤ 106) × (label ≤ 51)) × ((unit ≤ 51) × (values ≤ 52)) }
    ensures { outcome_number result ≡ stop_selection head label unit values }
{
    if label == 0 {
        room(head)?;
        return Err(Refusal::InvalidPayload);
    }
    room(head + (label + unit + SELECTION_LEN) + values)
}

// What stops construction, if anything does.
pub(crate) fn judge(fields: ScreenPopupFields) -> Result<(), Refusal>
    ensures { outcome_number result ≡ number_in (construct fields) }
{
    if !texts_made(fields) {
        return Err(Refusal::RecordNotMade);
    }
    let head = fields.header.len + fields.info.len + HEAD_LEN;
    let present = fields.has_possible_values;
    let values = values_size(present, fields.possible_values.len);
    match fields.additional_data {
        ScreenAdditionalData::Absent => {
            if present {
                return Err(Refusal::InvalidPayload);
            }
            room(head)
        }
        ScreenAdditionalData::Empty => room(head + EMPTY_LEN + values),
        ScreenAdditionalData::Selection => judge_selection(
            head,
            fields.selection_text.len,
            fields.unit.len,
            values,
        ),
    }
}

// Puts a text and its 00; the place after it. The place goes from one to the next: a cursor would need these functions' `requires` as its
// invariant, no plainer.
fn put_text(out: &mut [u8], at: usize, text: CommandString) -> usize
    requires { (at + text.len < length out.old) × (text.len ≤ 51) }
    ensures { Puts at (bytes_in text ++ 0 ∷ []) (text.len + 1) result out.old out.new }
{
    let bytes = text.bytes;
    let len = text.len;
    put_bytes(out, at, &bytes[..len]);
    out[at + len] = 0;
    at + (len + 1)
}

fn put_head(
    out: &mut [u8],
    header: CommandString,
    info: CommandString,
    timeout: u8,
    close: bool,
) -> usize
    requires { ((header.len ≤ 51) × (info.len ≤ 51)) × (header.len + info.len + 4 ≤ length out.old) }
    ensures { PutsHead header info timeout close result out.old out.new }
{
    let close_byte = bit_of(close);
    let info_at = put_text(out, 0, header);
    let timeout_at = put_text(out, info_at, info);
    out[timeout_at] = timeout;
    out[timeout_at + 1] = close_byte;
    timeout_at + 2
}

fn put_selection(out: &mut [u8], at: usize, fields: ScreenPopupFields) -> usize
    requires { SelectionFits fields × (at + more_size ScreenAdditionalData.Selection fields ≤ length out.old) }
    ensures { PutsMore ScreenAdditionalData.Selection at fields result out.old out.new }
{
    let value_at = put_text(out, at, fields.selection_text);
    out[value_at] = fields.value;
    out[value_at + 1] = fields.min_value;
    out[value_at + 2] = fields.max_value;
    out[value_at + 3] = fields.default_value;
    put_text(out, value_at + 4, fields.unit)
}

fn put_more(out: &mut [u8], at: usize, fields: ScreenPopupFields) -> usize
    requires { MoreFits fields × (at + more_size fields.additional_data fields ≤ length out.old) }
    ensures { PutsMore fields.additional_data at fields result out.old out.new }
{
    match fields.additional_data {
        ScreenAdditionalData::Absent => at,
        ScreenAdditionalData::Empty => {
            out[at] = 0;
            at + EMPTY_LEN
        }
        ScreenAdditionalData::Selection => put_selection(out, at, fields),
    }
}

fn put_values(out: &mut [u8], at: usize, fields: ScreenPopupFields) -> usize
    requires { ValuesFit fields × (at + values_size fields ≤ length out.old) }
    ensures { PutsValues at fields result out.old out.new }
{
    if !fields.has_possible_values {
        return at;
    }
    put_text(out, at, fields.possible_values)
}

// Puts what nothing stops; how many bytes it is.
fn put_all(out: &mut [u8], fields: ScreenPopupFields) -> usize
    requires { (number_in (construct fields) ≡ 0) × (length out.old ≡ 55) }
    ensures { PutsPopup fields result out.old out.new }
{
    let more_at = put_head(
        out,
        fields.header,
        fields.info,
        fields.max_timeout_interval,
        fields.close_button_option,
    );
    let values_at = put_more(out, more_at, fields);
    put_values(out, values_at, fields)
}

// The popup of fields that nothing stops.
pub(crate) fn put(fields: ScreenPopupFields) -> ScreenPopup
    requires { number_in (construct fields) ≡ 0 }
    ensures { got result ≡ construct fields }
{
    let mut bytes = [0u8; MAX_POPUP_DATA_LEN];
    let len = put_all(&mut bytes, fields);
    ScreenPopup { len, bytes }
}
