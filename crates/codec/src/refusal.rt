// Document 01, "Numbers given back instead of a command".
ghost use Rattle.std.specs.Prelude.{◌≡◌};
ghost use Rattle.codec.specs.Refusals.{refusal_number};

#[derive(Clone, Copy, Debug, PartialEq, Eq)]
pub enum Refusal {
    InvalidPayloadLength,
    InvalidPayload,
    BufferOverflow,
    FamilyLeftBehind,
    RecordNotMade,
    NotAsWritten,
    NoSuchField,
    NumberOutsideRange,
}

impl From<Refusal> for u8 {
    ghost from_gives = { λ why number. number ≡ refusal_number why };

    fn from(why: Refusal) -> u8 {
        match why {
            Refusal::InvalidPayloadLength => 1,
            Refusal::InvalidPayload => 2,
            Refusal::BufferOverflow => 3,
            Refusal::FamilyLeftBehind => 4,
            Refusal::RecordNotMade => 5,
            Refusal::NotAsWritten => 6,
            Refusal::NoSuchField => 7,
            Refusal::NumberOutsideRange => 8,
        }
    }
}
