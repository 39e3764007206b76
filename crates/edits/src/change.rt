// A number put into a field, and the check renewed.
ghost use Rattle.std.specs.Prelude.{◌≡◌, ◌<◌, ◌≤◌, ◌^◌};
ghost use Rattle.codec.specs.Edit.{replaced};
ghost use Rattle.codec.specs.Told.{width_of};
ghost use Rattle.edits.specs.Change.{RowTakes, row_patched, row_changed};

use crate::table::FieldRow;
use codec::reader::Width;

// No plainer with a Width in the table: the check goes over a count of bytes, and the way back would be as long.
fn width_of(count: usize) -> Width
    requires { (0 < count) × (count ≤ 4) }
    ensures { width_of result ≡ count }
{
    match count {
        1 => Width::One,
        2 => Width::Two,
        3 => Width::Three,
        _ => Width::Four,
    }
}

impl FieldRow {
    // The number `whole` of its bytes, with another in place of the field.
    fn replace(self, whole: u32, number: u32) -> u32
        requires { (0 < self.unit) × ((0 < self.many) × (replaced self.unit self.many whole number < 2 ^ 32)) }
        ensures { result ≡ replaced self.unit self.many whole number }
    {
        let whole = whole as u64;
        let unit = self.unit as u64;
        (whole - whole / unit % self.many * unit + number as u64 * unit) as u32
    }
}

// Without the check.
fn put_field(payload: &mut [u8], row: FieldRow, number: u32)
    requires { RowTakes payload.old row number }
    ensures { payload.new ≡ row_patched payload.old row number }
{
    let width = width_of(row.width);
    match codec::reader::read_number(payload, row.place, width, 0, u32::MAX) {
        Ok(whole) => {
            codec::writer::put_number(payload, row.place, width, row.replace(whole, number))
        }
        Err(_) => (),
    }
}

// One byte is its own number, and the check is renewed from what it was plus what it is.
fn change_byte(payload: &mut [u8], row: FieldRow, number: u32)
    requires { RowTakes payload.old row number × (row.width ≡ 1) }
    ensures { payload.new ≡ row_changed payload.old row number }
{
    let last = payload.len() - 1;
    let old = payload[row.place];
    let new = (row.replace(old as u32, number) % 256) as u8;
    payload[row.place] = new;
    payload[last] = payload[last] ^ crc::check_with_zeros(old ^ new, last - row.place);
}

// More bytes are changed by way of their number, and checked before and after.
fn change_bytes(payload: &mut [u8], row: FieldRow, number: u32)
    requires { RowTakes payload.old row number }
    ensures { payload.new ≡ row_changed payload.old row number }
{
    let end = row.place + row.width;
    let last = payload.len() - 1;
    let before = crc::check(&payload[row.place..end], 0);
    put_field(payload, row, number);
    let after = crc::check(&payload[row.place..end], 0);
    payload[last] = payload[last] ^ crc::check_with_zeros(before ^ after, last - end);
}

// The check is renewed from the field's bytes alone; what stands behind them costs at most seven steps.
pub(crate) fn change(payload: &mut [u8], row: FieldRow, number: u32)
    requires { RowTakes payload.old row number }
    ensures { payload.new ≡ row_changed payload.old row number }
{
    match row.width {
        1 => change_byte(payload, row, number),
        _ => change_bytes(payload, row, number),
    }
}
