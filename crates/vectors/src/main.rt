// Replays the stored answers of the Rust from standard input. README.md in this crate's folder says what a record is.
#![tactic(auto)]

use commands::DirectCommands;
use kind::{KINDS, Kind};

mod asked;
mod boundary;
mod edited;
mod kind;

#[derive(Clone, Copy)]
enum Record {
    Agrees(Kind),
    Differs,
    Cut,
}

// Of each kind, in the order of their numbers.
#[derive(Clone, Copy)]
struct Tally {
    kinds: [u64; 11],
    differ: u64,
    cut: u64,
}

// A length of two bytes, then that many bytes, which go to the start of `space`; None where they are cut.
fn read_part<'a>(rt: &HostRuntime, space: &'a mut [u8]) -> Option<&'a [u8]> {
    let mut head = [0u8; 2];
    if console::read_full(rt, &mut head) < 2 {
        return None;
    }
    console::read_part(rt, space, usize::from(u16::from_be_bytes(head)))
}

fn is_byte(stored: &[u8], answer: u8) -> bool {
    stored == [answer].as_slice()
}

// Whether we answer `input` as the Rust did.
fn agrees(kind: Kind, input: &[u8], stored: &[u8]) -> bool {
    match kind {
        Kind::Check => is_byte(stored, crc::check(input, 0)),
        Kind::PayloadCheck => is_byte(
            stored,
            crc::payload_check(DirectCommands::PACKET_TYPE, input),
        ),
        Kind::Read => boundary::read_agrees(input, stored),
        Kind::Write => boundary::write_agrees(input, stored),
        Kind::Text => boundary::text_agrees(input, stored),
        Kind::Ack => boundary::ack_agrees(input, stored),
        Kind::Popup => boundary::popup_agrees(input, stored),
        Kind::Inspect => boundary::inspect_agrees(input, stored),
        Kind::Edit => edited::edit_agrees(input, stored),
        Kind::EditList => edited::edit_list_agrees(input, stored),
        Kind::Questions => asked::questions_agree(input, stored),
    }
}

// A kind that we do not know agrees with nothing.
fn judged(kind: u8, input: &[u8], stored: &[u8]) -> Record {
    match Kind::try_from(kind) {
        Ok(kind) if agrees(kind, input, stored) => Record::Agrees(kind),
        _ => Record::Differs,
    }
}

// None at the input's end.
fn read_record(rt: &HostRuntime) -> Option<Record> {
    let mut kind = [0u8; 1];
    if console::read_full(rt, &mut kind) == 0 {
        return None;
    }
    let mut input = [0u8; 512];
    let Some(input) = read_part(rt, &mut input) else {
        return Some(Record::Cut);
    };
    let mut stored = [0u8; 512];
    let Some(stored) = read_part(rt, &mut stored) else {
        return Some(Record::Cut);
    };
    Some(judged(kind[0], input, stored))
}

// A proved loop has to end, and nothing says that the input does: no list has as many records as this loop has turns. A record that differs
// is named, counted from 0.
fn replay(rt: &HostRuntime) -> Tally {
    let mut tally = Tally {
        kinds: [0; 11],
        differ: 0,
        cut: 0,
    };
    for n in 0..u64::MAX {
        let Some(record) = read_record(rt) else {
            return tally;
        };
        match record {
            Record::Agrees(kind) => {
                let count = &mut tally.kinds[kind as usize];
                *count = count.wrapping_add(1);
            }
            Record::Differs => {
                tally.differ = tally.differ.wrapping_add(1);
                let _ = println!(rt; "differs: record {n}");
            }
            Record::Cut => {
                tally.cut = tally.cut.wrapping_add(1);
                return tally;
            }
        }
    }
    tally
}

fn main(rt: HostRuntime) {
    let tally = replay(&rt);
    for (kind, count) in KINDS.iter().zip(tally.kinds.iter()) {
        let _ = println!(rt; "{kind} {count}");
    }
    let _ = println!(rt; "differ {}", tally.differ);
    let _ = println!(rt; "cut {}", tally.cut);
}
