// What a record asks, by its number in README.md's table.
use std::fmt;

#[derive(Clone, Copy)]
pub(crate) enum Kind {
    Check,
    PayloadCheck,
    Read,
    Write,
    Text,
    Ack,
    Popup,
    Inspect,
    Edit,
    EditList,
    Questions,
}

// In the order of their numbers.
pub(crate) const KINDS: [Kind; 11] = [
    Kind::Check,
    Kind::PayloadCheck,
    Kind::Read,
    Kind::Write,
    Kind::Text,
    Kind::Ack,
    Kind::Popup,
    Kind::Inspect,
    Kind::Edit,
    Kind::EditList,
    Kind::Questions,
];

// A number of no kind.
#[derive(Clone, Copy)]
pub(crate) struct Unknown;

impl TryFrom<u8> for Kind {
    type Error = Unknown;

    fn try_from(number: u8) -> Result<Kind, Unknown> {
        match number {
            1 => Ok(Kind::Check),
            2 => Ok(Kind::PayloadCheck),
            3 => Ok(Kind::Read),
            4 => Ok(Kind::Write),
            5 => Ok(Kind::Text),
            6 => Ok(Kind::Ack),
            7 => Ok(Kind::Popup),
            8 => Ok(Kind::Inspect),
            9 => Ok(Kind::Edit),
            10 => Ok(Kind::EditList),
            11 => Ok(Kind::Questions),
            _ => Err(Unknown),
        }
    }
}

impl fmt::Display for Kind {
    fn fmt<W: fmt::Write>(&self, f: &mut fmt::Formatter<W>) -> fmt::Result {
        f.write_str(match self {
            Kind::Check => "check",
            Kind::PayloadCheck => "payload check",
            Kind::Read => "read",
            Kind::Write => "write",
            Kind::Text => "text",
            Kind::Ack => "ack",
            Kind::Popup => "popup",
            Kind::Inspect => "inspect",
            Kind::Edit => "edit",
            Kind::EditList => "edit list",
            Kind::Questions => "questions",
        })
    }
}
