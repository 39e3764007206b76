// Which command a payload holds, and how many bytes it stores: what reading gives, without the record.
ghost use Rattle.std.specs.Prelude.{◌≡◌};
ghost use Rattle.commands.specs.Kind.{told_kind, read_kind, kind_kept};

use crate::reading;
use crate::reading::Kept;
use codec::refusal::Refusal;
use families::payload::CommandPayload;
use families::screen::MAX_POPUP_DATA_LEN;

#[derive(Clone, Copy)]
pub struct KindRead {
    pub payload: CommandPayload,
    pub len: usize,
}

impl Kept for KindRead {
    ghost kept = { kind_kept };

    fn alone(payload: CommandPayload) -> KindRead {
        KindRead { payload, len: 0 }
    }

    fn beside(payload: CommandPayload, len: usize, _bytes: [u8; MAX_POPUP_DATA_LEN]) -> KindRead {
        KindRead { payload, len }
    }
}

pub fn read(payload: &[u8]) -> Result<KindRead, Refusal>
    ensures { told_kind result ≡ read_kind payload.now }
{
    crate::judge(payload)?;
    reading::read_family(payload[2], &payload[3..payload.len() - 1])
}
