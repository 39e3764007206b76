// Document 02, Wish 1: a block of 512 bytes, its layout and its check, and its records as a walk. Nothing here knows of a log.
#![tactic(auto)]

ghost use Rattle.std.specs.Prelude.{◌≡◌, ◌≤◌, ◌<◌, length};
ghost use Rattle.blocks.specs.Block.{block_number};
ghost use Rattle.blocks.specs.Walk.{damage_number, opening_of, told_judged, place_before, record_at, told_walked};
ghost use Rattle.blocks.specs.Steps.{UsedTo, EndsAt, whole_records};

use codec::reader::Width;

// "blocks of 512 bytes"
pub const BLOCK_SIZE: usize = 512;

// "block number (4), used bytes (2, at most 505), records"
const USED_COUNT: usize = 4;

pub const FIRST_RECORD: usize = 6;

const MAX_USED: usize = 505;

// "in the last byte a check of the other 511"
pub const CHECK: usize = BLOCK_SIZE - 1;

// "A record is a length byte, 4 to 60, and a payload"
const MIN_RECORD: usize = 4;

const MAX_RECORD: usize = 60;

// Why a block is refused.
#[derive(Clone, Copy)]
pub enum Damage {
    NotABlock,
    BlockCheck,
    BlockLayout,
}

// A sound block's number, and the place of its first record's length byte. The place goes into the replay's state as it is, whose image
// (include/crsf.h) is fixed with 0 for none: so it is 0, and no None, where the block has no record.
#[derive(Clone, Copy)]
pub struct Sound {
    pub number: u32,
    pub first: usize,
}

// A record's block number, the place behind its payload, and that of the next record's length byte, as in the replay's image 0 behind the
// last.
#[derive(Clone, Copy)]
pub struct Record {
    pub number: u32,
    pub end: usize,
    pub next: usize,
}

impl From<Damage> for u8 {
    ghost from_gives = { λ damage number. number ≡ damage_number damage };

    fn from(damage: Damage) -> u8 {
        match damage {
            Damage::NotABlock => 1,
            Damage::BlockCheck => 9,
            Damage::BlockLayout => 10,
        }
    }
}

fn block_number(block: &[u8]) -> u32
    requires { length block.now ≡ 512 }
    ensures { result ≡ block_number block.now }
{
    codec::reader::read_number(block, 0, Width::Four, 0, u32::MAX).unwrap_or(0)
}

// Where the used bytes end, where they are no more than a block has room for.
fn used_end(block: &[u8]) -> Option<usize>
    requires { length block.now ≡ 512 }
    ensures { UsedTo block.now result }
{
    let Ok(count) = codec::reader::read_word(block, USED_COUNT) else {
        return None;
    };
    let used = count as usize;
    if MAX_USED < used {
        return None;
    }
    Some(FIRST_RECORD + used)
}

// A place within bytes that end there, or 0, as the replay's state has it.
fn place_before(end: usize, at: usize) -> usize
    ensures { result ≡ place_before end at }
{
    if at < end { at } else { 0 }
}

// Where the payload behind a length byte ends, within used bytes that end at `end`.
fn record_end(block: &[u8], end: usize, at: usize) -> Option<usize>
    requires { (at < end) × (end ≤ length block.now) }
    ensures { EndsAt block.now end at result }
{
    let len = block[at] as usize;
    if len < MIN_RECORD || MAX_RECORD < len || end - at <= len {
        return None;
    }
    Some(at + len + 1)
}

// Whether the used bytes, up to `end`, are records one behind the other.
fn whole_records(block: &[u8], end: usize) -> bool
    requires { end ≤ length block.now }
    ensures { result ≡ whole_records block.now end }
{
    // A record's length byte says where the next one stands: no index is counted, and no `for` has it.
    let mut at = FIRST_RECORD;
    while at < end {
        let Some(next) = record_end(block, end, at) else {
            return false;
        };
        at = next;
    }
    true
}

// Sound, or the number that refuses it, in document 02's order.
pub fn judge(block: &[u8]) -> Result<Sound, Damage>
    ensures { told_judged result ≡ opening_of block.now }
{
    if block.len() != BLOCK_SIZE {
        return Err(Damage::NotABlock);
    }
    if block[CHECK] != crc::check(&block[..CHECK], 0) {
        return Err(Damage::BlockCheck);
    }
    let end = used_end(block).ok_or(Damage::BlockLayout)?;
    if !whole_records(block, end) || !families::text::all_zero(&block[end..CHECK]) {
        return Err(Damage::BlockLayout);
    }
    Ok(Sound {
        number: block_number(block),
        first: place_before(end, FIRST_RECORD),
    })
}

// The record at a place, of a block that is not judged again.
pub fn record_at(block: &[u8], at: usize) -> Option<Record>
    ensures { told_walked result ≡ record_at block.now at }
{
    if block.len() != BLOCK_SIZE {
        return None;
    }
    let used_end = used_end(block)?;
    if at < FIRST_RECORD || used_end <= at {
        return None;
    }
    let end = record_end(block, used_end, at)?;
    Some(Record {
        number: block_number(block),
        end,
        next: place_before(used_end, end),
    })
}
