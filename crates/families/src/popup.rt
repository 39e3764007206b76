// One parse of a popup: it tells where the items stand, and serves reading, inspection and made.
ghost use Rattle.std.specs.Prelude.{◌≡◌, ◌≤◌, ◌<◌, length, get_or};
ghost use Rattle.families.specs.Places.{ReadsHead, no_more, ReadsSelected, ReadsMore, ReadsValues, ReadsPlaces};

use crate::screen::ScreenAdditionalData;
use codec::reader::{MAX_COMMAND_STRING_LEN, Reader, read_text};
use codec::refusal::Refusal;

// A text's bytes: their place and their number.
#[derive(Clone, Copy)]
pub(crate) struct Span {
    pub(crate) at: usize,
    pub(crate) len: usize,
}

#[derive(Clone, Copy)]
pub(crate) struct Head {
    pub(crate) header: Span,
    pub(crate) info: Span,
    pub(crate) timeout: u8,
    pub(crate) close: bool,
    pub(crate) next: usize,
}

// A selection's value, min, max and default.
#[derive(Clone, Copy)]
pub(crate) struct Four {
    pub(crate) value: u8,
    pub(crate) min_value: u8,
    pub(crate) max_value: u8,
    pub(crate) default_value: u8,
}

// A selection's numbers, and how many bytes its label and its unit have.
#[derive(Clone, Copy)]
pub(crate) struct Selected {
    pub(crate) label: usize,
    pub(crate) four: Four,
    pub(crate) unit: usize,
}

// Additional data: without a selection its texts and numbers are blank, as its fields are. An Option of them would be taken apart
// again for each field: no plainer.
#[derive(Clone, Copy)]
pub(crate) struct More {
    pub(crate) kind: ScreenAdditionalData,
    pub(crate) label: Span,
    pub(crate) four: Four,
    pub(crate) unit: Span,
    pub(crate) next: usize,
}

#[derive(Clone, Copy)]
pub(crate) struct Values {
    pub(crate) text: Option<Span>,
    pub(crate) next: usize,
}

#[derive(Clone, Copy)]
pub(crate) struct Places {
    pub(crate) head: Head,
    pub(crate) more: More,
    pub(crate) values: Values,
}

// "header text, info text, timeout(1), close flag": their places follow from the lengths of the texts.
fn read_head(s: &[u8]) -> Result<Head, Refusal>
    ensures { ReadsHead s.now result }
{
    let mut input = Reader::new(s);
    let header = input.string()?;
    let info = input.string()?;
    let timeout = input.byte()?;
    let close = input.boolean()?;
    Ok(Head {
        header: Span {
            at: 0,
            len: header.len,
        },
        info: Span {
            at: header.next,
            len: info.len,
        },
        timeout,
        close,
        next: header.next + info.next + 2,
    })
}

fn no_more(kind: ScreenAdditionalData, next: usize) -> More
    ensures { result ≡ no_more kind next }
{
    More {
        kind,
        label: Span { at: 0, len: 0 },
        four: Four {
            value: 0,
            min_value: 0,
            max_value: 0,
            default_value: 0,
        },
        unit: Span { at: 0, len: 0 },
        next,
    }
}

// "label text, value, min, max, default (1 each), unit text"
fn take_selection(rest: &[u8]) -> Result<Selected, Refusal>
    ensures { ReadsSelected rest.now result }
{
    let mut input = Reader::new(rest);
    let label = input.string()?;
    let value = input.byte()?;
    let min_value = input.byte()?;
    let max_value = input.byte()?;
    let default_value = input.byte()?;
    let unit = input.string()?;
    Ok(Selected {
        label: label.len,
        four: Four {
            value,
            min_value,
            max_value,
            default_value,
        },
        unit: unit.len,
    })
}

// The label's 00 and the four numbers.
const UNIT_BEHIND_LABEL: usize = 5;

// A selection: its label is not empty.
fn read_selection(s: &[u8], at: usize) -> Result<More, Refusal>
    requires { (at < length s.now) × (get_or s.now at 0 ≡ 0 → ⊥) }
    ensures { ReadsMore s.now at result }
{
    let selected = take_selection(&s[at..])?;
    let unit_at = at + (selected.label + UNIT_BEHIND_LABEL);
    Ok(More {
        kind: ScreenAdditionalData::Selection,
        label: Span {
            at,
            len: selected.label,
        },
        four: selected.four,
        unit: Span {
            at: unit_at,
            len: selected.unit,
        },
        next: unit_at + (selected.unit + 1),
    })
}

fn read_more(s: &[u8], at: usize) -> Result<More, Refusal>
    requires { at ≤ length s.now }
    ensures { ReadsMore s.now at result }
{
    if s.len() <= at {
        return Ok(no_more(ScreenAdditionalData::Absent, at));
    }
    if s[at] == 0 {
        return Ok(no_more(ScreenAdditionalData::Empty, at + 1));
    }
    read_selection(s, at)
}

// "possible values (text)"
fn read_values(s: &[u8], at: usize) -> Result<Values, Refusal>
    requires { at ≤ length s.now }
    ensures { ReadsValues s.now at result }
{
    if s.len() <= at {
        return Ok(Values {
            text: None,
            next: at,
        });
    }
    let text = read_text(s, at, MAX_COMMAND_STRING_LEN)?;
    Ok(Values {
        text: Some(Span { at, len: text.len }),
        next: text.next,
    })
}

// The popup at the front of the bytes.
pub(crate) fn parse(s: &[u8]) -> Result<Places, Refusal>
    ensures { ReadsPlaces s.now result }
{
    let head = read_head(s)?;
    let more = read_more(s, head.next)?;
    let values = read_values(s, more.next)?;
    Ok(Places { head, more, values })
}
