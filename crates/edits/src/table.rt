// Document 01, "Field numbers for edits": "These 32 rows are kept as one fixed table."
ghost use Rattle.std.specs.Prelude.{◌≡◌, ◌<◌, ◌^◌, get_or};
ghost use Rattle.edits.specs.Table.{place_from, place_in, row_from, InPayload, index_found, no_line, row_for};
ghost use Rattle.edits.specs.declared.table.TheConstants.{FIELDS};

use crate::layout::Layout;
use Place::{Far, Near, Start};

// A field: how many bytes hold it, its range, and the place of those bytes. In the number n of those bytes the field is n / unit % many.
#[derive(Clone, Copy)]
pub(crate) struct FieldRow {
    pub width: usize,
    pub low: u32,
    pub high: u32,
    pub place: usize,
    pub unit: u32,
    pub many: u64,
}

// Where a field's bytes stand: so many behind the destination; behind what the command's layout tells as near; or as far.
#[derive(Clone, Copy)]
enum Place {
    Start(usize),
    Near(usize),
    Far(usize),
}

// A row: the field's number; how many bytes hold it; low, high; where they stand; unit, many.
// No plainer: with names, rt fmt sets each row out over nine lines.
#[derive(Clone, Copy)]
struct Field(u32, usize, u32, u32, Place, u32, u64);

// THE TABLE. In the order of 01, but 41 before 40: the rows that a command has stand together.
static FIELDS: [Field; 32] = [
    // "1 destination, 2 source"
    Field(1, 1, 0, 255, Start(0), 1, 256),
    Field(2, 1, 0, 255, Start(1), 1, 256),
    // "10 buttons"
    Field(10, 1, 0, 255, Start(4), 1, 256),
    // "20 frequency 5000-6000, 21 pit mode 0-1, 22 control 0-3, 23 switch 0-15, 24 power (both commands)"
    Field(20, 2, 5000, 6000, Start(4), 1, 65536),
    Field(21, 1, 0, 1, Start(4), 1, 2),
    Field(22, 1, 0, 3, Start(4), 2, 4),
    Field(23, 1, 0, 15, Start(4), 8, 16),
    Field(24, 1, 0, 255, Start(4), 1, 256),
    // "30 time 0-65535, 31 hue 0-359, 32 saturation 0-100, 33 value 0-100 (only or start colour), 34, 35, 36 the same of the stop colour"
    Field(30, 2, 0, 65535, Start(4), 1, 65536),
    Field(31, 2, 0, 359, Near(0), 128, 512),
    Field(32, 1, 0, 100, Near(1), 1, 128),
    Field(33, 1, 0, 100, Near(2), 1, 256),
    Field(34, 2, 0, 359, Start(9), 128, 512),
    Field(35, 1, 0, 100, Start(10), 1, 128),
    Field(36, 1, 0, 100, Start(11), 1, 256),
    // "40 port, 41 baud (any), 42 accepted 0-1"
    Field(41, 4, 0, 4294967295, Start(5), 1, 4294967296),
    Field(40, 1, 0, 255, Start(4), 1, 256),
    Field(42, 1, 0, 1, Start(5), 1, 256),
    // "50 model (05 and 07)"
    Field(50, 1, 0, 255, Start(4), 1, 256),
    // "60 frame type, 61 interval 0-65535"
    Field(60, 1, 0, 255, Start(4), 1, 256),
    Field(61, 2, 0, 65535, Start(5), 1, 65536),
    // "70 timeout, 71 close 0-1, 72 to 75 value, min, max, default of a selection"
    Field(70, 1, 0, 255, Near(0), 1, 256),
    Field(71, 1, 0, 1, Near(1), 1, 256),
    Field(72, 1, 0, 255, Far(0), 1, 256),
    Field(73, 1, 0, 255, Far(1), 1, 256),
    Field(74, 1, 0, 255, Far(2), 1, 256),
    Field(75, 1, 0, 255, Far(3), 1, 256),
    // "76 returned value, 77 response 0-1"
    Field(76, 1, 0, 255, Start(4), 1, 256),
    Field(77, 1, 0, 1, Start(5), 1, 256),
    // "of an ACK's body only, 80 command id, 81 sub id, 82 action 0-1"
    Field(80, 1, 0, 255, Start(3), 1, 256),
    Field(81, 1, 0, 255, Start(4), 1, 256),
    Field(82, 1, 0, 1, Start(5), 1, 256),
];

// The rows of every command: those of the two addresses.
pub(crate) const ADDRESS_ROWS: usize = 2;

// The rows at which those of a command begin or end, by 01's names of the fields. What layout.rt promises of a command holds each to
// its field's number.
pub(crate) const ROW_BUTTONS: usize = 2;

pub(crate) const ROW_FREQUENCY: usize = 3;

pub(crate) const ROW_PIT_MODE: usize = 4;

pub(crate) const ROW_PIT_SWITCH: usize = 6;

pub(crate) const ROW_POWER: usize = 7;

pub(crate) const ROW_TIME: usize = 8;

pub(crate) const ROW_HUE: usize = 9;

pub(crate) const ROW_VALUE: usize = 11;

pub(crate) const ROW_STOP_VALUE: usize = 14;

pub(crate) const ROW_BAUD: usize = 15;

pub(crate) const ROW_PORT: usize = 16;

pub(crate) const ROW_ACCEPTED: usize = 17;

pub(crate) const ROW_MODEL: usize = 18;

pub(crate) const ROW_FRAME_TYPE: usize = 19;

pub(crate) const ROW_INTERVAL: usize = 20;

pub(crate) const ROW_TIMEOUT: usize = 21;

pub(crate) const ROW_CLOSE: usize = 22;

pub(crate) const ROW_SELECTION_DEFAULT: usize = 26;

pub(crate) const ROW_RETURNED_VALUE: usize = 27;

pub(crate) const ROW_RESPONSE: usize = 28;

pub(crate) const ROW_ACK_COMMAND_ID: usize = 29;

pub(crate) const ROW_ACK_ACTION: usize = 31;

impl Place {
    fn within(self, layout: Layout) -> usize
        requires { place_from self layout.near layout.far < 2 ^ 64 }
        ensures { result ≡ place_from self layout.near layout.far }
    {
        match self {
            Start(place) => place,
            Near(behind) => layout.near + behind,
            Far(behind) => layout.far + behind,
        }
    }
}

impl Field {
    // At its place in a command.
    fn placed(self, layout: Layout) -> FieldRow
        requires { place_in self layout.near layout.far < 2 ^ 64 }
        ensures { result ≡ row_from self layout.near layout.far }
    {
        let Field(_, width, low, high, place, unit, many) = self;
        FieldRow {
            width,
            low,
            high,
            place: place.within(layout),
            unit,
            many,
        }
    }
}

// The index of a field's row in the table.
fn index_of(field: u32) -> Option<usize>
    ensures { result ≡ index_found field }
{
    FIELDS.iter().position(|row| row.0 == field)
}

// A row of the table. Tried: `FIELDS[index]`, and the row given by the search itself. The rows then stand in memory, and an edit takes 26
// (in a list) to 36 instructions more. Read at constant places, the compiler folds them.
fn line(index: usize) -> Field
    requires { index < 32 }
    ensures { result ≡ get_or FIELDS index no_line }
{
    match index {
        0 => FIELDS[0],
        1 => FIELDS[1],
        2 => FIELDS[2],
        3 => FIELDS[3],
        4 => FIELDS[4],
        5 => FIELDS[5],
        6 => FIELDS[6],
        7 => FIELDS[7],
        8 => FIELDS[8],
        9 => FIELDS[9],
        10 => FIELDS[10],
        11 => FIELDS[11],
        12 => FIELDS[12],
        13 => FIELDS[13],
        14 => FIELDS[14],
        15 => FIELDS[15],
        16 => FIELDS[16],
        17 => FIELDS[17],
        18 => FIELDS[18],
        19 => FIELDS[19],
        20 => FIELDS[20],
        21 => FIELDS[21],
        22 => FIELDS[22],
        23 => FIELDS[23],
        24 => FIELDS[24],
        25 => FIELDS[25],
        26 => FIELDS[26],
        27 => FIELDS[27],
        28 => FIELDS[28],
        29 => FIELDS[29],
        30 => FIELDS[30],
        _ => FIELDS[31],
    }
}

// The row of a field that the command has.
pub(crate) fn row(field: u32, layout: Layout) -> Option<FieldRow>
    requires { InPayload layout.near × InPayload layout.far }
    ensures { result ≡ row_for field layout }
{
    let index = index_of(field)?;
    if !layout.has_row(index) {
        return None;
    }
    Some(line(index).placed(layout))
}
