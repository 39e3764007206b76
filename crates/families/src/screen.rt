// 0x22 Screen: popups and the screen commands. The Rust's screen.rs; its texts are in text.rt.
ghost use Rattle.std.specs.Prelude.{◌≡◌, ◌∷◌, [], ◌≤◌, ◌+◌, length, take, IfSome};
ghost use Rattle.codec.specs.Sheet.{said, byte, flag};
ghost use Rattle.codec.specs.Reading.{read_items};
ghost use Rattle.codec.specs.Writing.{write_body};
ghost use Rattle.codec.specs.Told.{WritesAll, bit};
ghost use Rattle.families.specs.Sheets.{screen_rows};
ghost use Rattle.families.specs.Text.{text_of};
ghost use Rattle.families.specs.Popup.{read_popup};
ghost use Rattle.families.specs.Places.{SpanIn, spanned, spanned_if, PlacesIn, popup_at, StoredIs};
ghost use Rattle.families.specs.Fields.{construct, PopupIs, fields_of, blank_fields, whole, inspect, is_got, FieldsIs, made_popup};
ghost use Rattle.families.specs.Screen.{read_screen, ScreenIs, screen_body, started_by, returned_by};

use crate::popup::{Places, Span};
use crate::text::CommandString;
use codec::reader::{MAX_COMMAND_STRING_LEN, Reader};
use codec::refusal::Refusal;
use codec::writer::{SUB_COMMAND_LEN, bit_of, put_byte, put_bytes};

pub const SUB_COMMAND_ID_SCREEN_POPUP_MESSAGE_START: u8 = 0x01;

pub const SUB_COMMAND_ID_SCREEN_SELECTION_RETURN_VALUE: u8 = 0x02;

// "Popup data is at most 55 bytes."
pub const MAX_POPUP_DATA_LEN: usize = 55;

// The Rust's Option<ScreenAdditionalData>; the selection's texts and numbers stand beside it in the fields, as possible values beside
// their flag. No Option of them: `fields_back` of crate images gives back what absent items hold.
#[derive(Clone, Copy)]
pub enum ScreenAdditionalData {
    Absent,
    Empty,
    Selection,
}

const BLANK_TEXT: CommandString = CommandString {
    len: 0,
    bytes: [0u8; MAX_COMMAND_STRING_LEN],
};

#[derive(Clone, Copy)]
pub struct ScreenPopupFields {
    pub header: CommandString,
    pub info: CommandString,
    pub max_timeout_interval: u8,
    pub close_button_option: bool,
    pub additional_data: ScreenAdditionalData,
    pub selection_text: CommandString,
    pub value: u8,
    pub min_value: u8,
    pub max_value: u8,
    pub default_value: u8,
    pub unit: CommandString,
    pub has_possible_values: bool,
    pub possible_values: CommandString,
}

// A fixed array: no heap.
#[derive(Clone, Copy)]
pub struct ScreenPopup {
    pub len: usize,
    pub bytes: [u8; MAX_POPUP_DATA_LEN],
}

// A popup's bytes stand beside the command.
#[derive(Clone, Copy)]
pub enum ScreenCommand {
    PopupMessageStart,
    SelectionReturnValue { value: u8, response: bool },
}

// A screen command, and a popup's bytes.
#[derive(Clone, Copy)]
pub struct ScreenRead {
    pub command: ScreenCommand,
    pub popup: ScreenPopup,
}

// The popup of the first n bytes.
fn popup_of(bytes: &[u8], n: usize) -> Result<ScreenRead, Refusal>
    requires { n ≤ length bytes.now }
    ensures { StoredIs n (take n bytes.now) result }
{
    if MAX_POPUP_DATA_LEN < n {
        return Err(Refusal::InvalidPayloadLength);
    }
    Ok(ScreenRead {
        command: ScreenCommand::PopupMessageStart,
        popup: ScreenPopup {
            len: n,
            bytes: crate::text::padded(&bytes[..n]),
        },
    })
}

// "01 popup", behind the sub-command.
fn read_start(rest: &[u8]) -> Result<ScreenRead, Refusal>
    ensures { ScreenIs (started_by (read_popup rest.now 0)) result }
{
    let places = crate::popup::parse(rest)?;
    popup_of(rest, places.values.next)
}

// "02 value(1), response(flag)", behind the sub-command.
fn read_return(rest: &[u8]) -> Result<ScreenRead, Refusal>
    ensures { ScreenIs (returned_by (read_items (byte ∷ flag ∷ []) rest.now 0)) result }
{
    let mut input = Reader::new(rest);
    let value = input.byte()?;
    let response = input.boolean()?;
    Ok(ScreenRead {
        command: ScreenCommand::SelectionReturnValue { value, response },
        popup: ScreenPopup::EMPTY,
    })
}

pub fn read(body: &[u8]) -> Result<ScreenRead, Refusal>
    ensures { ScreenIs (read_screen body.now) result }
{
    let mut input = Reader::new(body);
    match input.byte()? {
        SUB_COMMAND_ID_SCREEN_POPUP_MESSAGE_START => read_start(input.remaining),
        SUB_COMMAND_ID_SCREEN_SELECTION_RETURN_VALUE => read_return(input.remaining),
        _ => Err(Refusal::InvalidPayload),
    }
}

// A returned value's body.
const SELECTION_RETURN_LEN: usize = 3;

fn write_return(value: u8, response: bool, body: &mut [u8]) -> Result<usize, Refusal>
    ensures { WritesAll (write_body screen_rows (said 0x02 ((value ∷ []) ∷ (bit response ∷ []) ∷ []))) result body.old body.new }
{
    if body.len() < SELECTION_RETURN_LEN {
        return Err(Refusal::BufferOverflow);
    }
    put_byte(body, 0, SUB_COMMAND_ID_SCREEN_SELECTION_RETURN_VALUE);
    put_byte(body, 1, value);
    put_byte(body, 2, bit_of(response));
    Ok(SELECTION_RETURN_LEN)
}

// A popup's bytes as they are.
fn write_popup(bytes: &[u8], body: &mut [u8]) -> Result<usize, Refusal>
    ensures { WritesAll (0x01 ∷ bytes.now) result body.old body.new }
{
    if body.len() <= bytes.len() {
        return Err(Refusal::BufferOverflow);
    }
    put_byte(body, 0, SUB_COMMAND_ID_SCREEN_POPUP_MESSAGE_START);
    put_bytes(body, 1, bytes);
    Ok(bytes.len() + SUB_COMMAND_LEN)
}

fn write_start(bytes: &[u8], len: usize, body: &mut [u8]) -> Result<usize, Refusal>
    ensures { WritesAll (0x01 ∷ take len bytes.now) result body.old body.new }
{
    if bytes.len() <= len {
        return write_popup(bytes, body);
    }
    write_popup(&bytes[..len], body)
}

// `len` bytes stand beside the command; where there are fewer, all of them: a slice alone would ask more of callers.
pub fn write_to(
    command: ScreenCommand,
    bytes: &[u8],
    len: usize,
    body: &mut [u8],
) -> Result<usize, Refusal>
    ensures { WritesAll (screen_body command (take len bytes.now)) result body.old body.new }
{
    match command {
        ScreenCommand::PopupMessageStart => write_start(bytes, len, body),
        ScreenCommand::SelectionReturnValue { value, response } => write_return(
            value, response, body,
        ),
    }
}

// Whether the bytes are a popup that ends after n of them.
fn whole_popup(s: &[u8], n: usize) -> bool
    ensures { result ≡ is_got (whole n (read_popup s.now 0)) }
{
    match crate::popup::parse(s) {
        Ok(places) => places.values.next == n,
        Err(_) => false,
    }
}

// Stored bytes that the constructor gives for some fields; `len` may be over the bytes there are.
pub fn made(bytes: &[u8], len: usize) -> bool
    ensures { result ≡ made_popup (record { len = len; bytes = bytes.now }) }
{
    if MAX_POPUP_DATA_LEN < len {
        return false;
    }
    if bytes.len() <= len {
        return whole_popup(bytes, len);
    }
    crate::text::zero_after(bytes, len) && whole_popup(&bytes[..len], len)
}

impl ScreenPopupFields {
    // "blank popup fields are blank texts, zeros, close flag off and nothing optional present"
    pub fn blank() -> ScreenPopupFields
        ensures { result ≡ blank_fields }
    {
        ScreenPopupFields {
            header: BLANK_TEXT,
            info: BLANK_TEXT,
            max_timeout_interval: 0,
            close_button_option: false,
            additional_data: ScreenAdditionalData::Absent,
            selection_text: BLANK_TEXT,
            value: 0,
            min_value: 0,
            max_value: 0,
            default_value: 0,
            unit: BLANK_TEXT,
            has_possible_values: false,
            possible_values: BLANK_TEXT,
        }
    }
}

const NO_BYTES: Span = Span { at: 0, len: 0 };

fn text_of(s: &[u8], span: Span) -> CommandString
    requires { SpanIn s.now span }
    ensures { result ≡ text_of (spanned s.now span) }
{
    let end = span.at + span.len;
    CommandString::of(&s[span.at..end])
}

// Where there is none, that of no bytes.
fn text_if(s: &[u8], span: Option<Span>) -> CommandString
    requires { IfSome span (λ x. SpanIn s.now x) }
    ensures { result ≡ text_of (spanned_if s.now span) }
{
    text_of(s, span.unwrap_or(NO_BYTES))
}

// The fields at the places of a parse.
fn fields_at(s: &[u8], places: Places) -> ScreenPopupFields
    requires { PlacesIn s.now 0 places }
    ensures { result ≡ fields_of (popup_at s.now places) }
{
    let head = places.head;
    let more = places.more;
    let values = places.values.text;
    let kind = more.kind;
    let four = more.four;
    ScreenPopupFields {
        header: text_of(s, head.header),
        info: text_of(s, head.info),
        max_timeout_interval: head.timeout,
        close_button_option: head.close,
        additional_data: kind,
        selection_text: text_of(s, more.label),
        value: four.value,
        min_value: four.min_value,
        max_value: four.max_value,
        default_value: four.default_value,
        unit: text_of(s, more.unit),
        has_possible_values: values.is_some(),
        possible_values: text_if(s, values),
    }
}

// The fields of the first n bytes, which are a popup to the last of them, with zeros behind.
fn fields_in(s: &[u8], n: usize) -> Result<ScreenPopupFields, Refusal>
    requires { length s.now ≡ 55 }
    ensures { FieldsIs (inspect (record { len = n; bytes = s.now })) result }
{
    if MAX_POPUP_DATA_LEN < n || !crate::text::zero_after(s, n) {
        return Err(Refusal::RecordNotMade);
    }
    let popup = &s[..n];
    let Ok(places) = crate::popup::parse(popup) else {
        return Err(Refusal::RecordNotMade);
    };
    if places.values.next != n {
        return Err(Refusal::RecordNotMade);
    }
    Ok(fields_at(popup, places))
}

impl ScreenPopup {
    // Of no bytes.
    const EMPTY: ScreenPopup = ScreenPopup {
        len: 0,
        bytes: [0u8; MAX_POPUP_DATA_LEN],
    };

    // Made of its fields.
    pub fn new(fields: ScreenPopupFields) -> Result<ScreenPopup, Refusal>
        ensures { PopupIs (construct fields) result }
    {
        crate::fields::judge(fields)?;
        Ok(crate::fields::put(fields))
    }

    pub fn fields(self) -> Result<ScreenPopupFields, Refusal>
        ensures { FieldsIs (inspect self) result }
    {
        let bytes = self.bytes;
        fields_in(&bytes, self.len)
    }
}

// How many bytes `write_to` writes, counted and not written.
pub fn written_len(command: ScreenCommand, bytes: &[u8], len: usize) -> usize
    ensures value { result ≡ length (screen_body command (take len bytes.now)) }
    ensures upper_bound { result ≤ length bytes.now + 9 }
{
    match command {
        ScreenCommand::PopupMessageStart => crate::text::stored_len(bytes, len) + SUB_COMMAND_LEN,
        ScreenCommand::SelectionReturnValue { .. } => SELECTION_RETURN_LEN,
    }
}
