// A payload read, and found as written.
ghost use Rattle.std.specs.Prelude.{◌≡◌};
ghost use Rattle.edits.specs.Layout.{Stores};
ghost use Rattle.edits.specs.Opened.{fitting, vtx_pit, vtx_opening, Opens, OpensRead};

use crate::layout;
use crate::layout::Layout;
use codec::refusal::Refusal;
use families::payload::CommandPayload;
use families::vtx::VtxCommand;

// Where a pit byte stands, and its bits without bit 7.
const PIT_BYTE: usize = layout::FIRST_ITEM;

const PIT_BITS: u8 = 0x7F;

// Reading ignores bytes after the last item.
fn fits(layout: Layout, len: usize) -> Result<Layout, Refusal>
    ensures { result ≡ fitting layout len }
{
    if len == layout.size {
        Ok(layout)
    } else {
        Err(Refusal::NotAsWritten)
    }
}

// Whether it holds a pit byte.
fn is_pit(command: VtxCommand) -> bool
    ensures { result ≡ vtx_pit command }
{
    matches!(command, VtxCommand::EnablePitModeOnPowerUp { .. })
}

// It ignores bit 7 of a pit byte too.
fn judge_vtx(command: VtxCommand, payload: &[u8]) -> Result<Layout, Refusal>
    ensures { result ≡ vtx_opening command payload.now }
{
    if is_pit(command) && PIT_BYTE < payload.len() && PIT_BITS < payload[PIT_BYTE] {
        return Err(Refusal::NotAsWritten);
    }
    fits(layout::of_vtx(command), payload.len())
}

// Whether the payload is what the writer makes of the command that was read of it, with so many stored bytes. Nothing is written to
// tell.
fn judge(command: CommandPayload, stored: usize, payload: &[u8]) -> Result<Layout, Refusal>
    requires { Stores stored payload.now }
    ensures { OpensRead command stored payload.now result }
{
    match command {
        CommandPayload::Fc(_) => fits(layout::alone(), payload.len()),
        CommandPayload::Osd(_) => fits(layout::of_osd(), payload.len()),
        CommandPayload::Vtx(c) => judge_vtx(c, payload),
        CommandPayload::Led(c) => fits(layout::of_led(c), payload.len()),
        CommandPayload::General(c) => fits(layout::of_general(c), payload.len()),
        CommandPayload::Crossfire(c) => fits(layout::of_crossfire(c), payload.len()),
        CommandPayload::FlowControl(c) => fits(layout::of_flow(c), payload.len()),
        CommandPayload::Screen(c) => fits(layout::of_screen(c, stored, payload), payload.len()),
        CommandPayload::Ack(_) => fits(layout::of_ack(stored), payload.len()),
    }
}

// The payload read once: its layout, or the refusal that answers every edit of it.
pub(crate) fn open(payload: &[u8]) -> Result<Layout, Refusal>
    ensures { Opens payload.now result }
{
    let read = commands::kind::read(payload)?;
    judge(read.payload, read.len, payload)
}
