// 0x08 VTX.
ghost use Rattle.std.specs.Prelude.{Bool, ◌≡◌, ◌≤◌, length, drop, ◌∷◌, []};
ghost use Rattle.codec.specs.Sheet.{said};
ghost use Rattle.codec.specs.Digits.{join, split};
ghost use Rattle.codec.specs.Reading.{read_item, read_body};
ghost use Rattle.codec.specs.Writing.{ok_item, write_body};
ghost use Rattle.codec.specs.Told.{WritesValuesFirst, bit, told_number};
ghost use Rattle.families.specs.Sheets.{vtx_rows, frequency, pit};
ghost use Rattle.families.specs.Vtx.{vtx_says, told_vtx};

use codec::reader::{Width, read_byte, read_number};
use codec::refusal::Refusal;
use codec::writer::{
    SUB_COMMAND_LEN, WITH_BYTE_LEN, put_byte, put_number, values_first, write_alone,
    write_with_byte,
};

pub const SUB_COMMAND_ID_VTX_SET_FREQUENCY: u8 = 0x02;

pub const SUB_COMMAND_ID_VTX_ENABLE_PIT_MODE_ON_POWER_UP: u8 = 0x04;

pub const SUB_COMMAND_ID_VTX_POWER_UP_FROM_PIT_MODE: u8 = 0x05;

pub const SUB_COMMAND_ID_VTX_SET_DYNAMIC_POWER: u8 = 0x06;

pub const SUB_COMMAND_ID_VTX_SET_POWER: u8 = 0x08;

#[derive(Clone, Copy)]
pub enum VtxCommand {
    SetFrequency(u16),
    EnablePitModeOnPowerUp {
        pit_mode: bool,
        pit_mode_control: u8,
        pit_mode_switch: u8,
    },
    PowerUpFromPitMode,
    SetDynamicPower(u8),
    SetPower(u8),
}

const LOWEST_FREQUENCY: u32 = 5000;

const HIGHEST_FREQUENCY: u32 = 6000;

fn enable_pit(mode: bool, control: u8, switch: u8) -> VtxCommand
    ensures { vtx_says result ≡ said 0x04 ((switch ∷ control ∷ bit mode ∷ []) ∷ []) }
{
    VtxCommand::EnablePitModeOnPowerUp {
        pit_mode: mode,
        pit_mode_control: control,
        pit_mode_switch: switch,
    }
}

// Bit 7 is ignored.
fn unpacked(byte: u8) -> VtxCommand
    ensures { vtx_says result ≡ said 0x04 (split (4 ∷ 2 ∷ 1 ∷ []) byte ∷ []) }
{
    let mode = byte % 2 == 1;
    let control = byte / 2 % 4;
    let switch = byte / 8 % 16;
    enable_pit(mode, control, switch)
}

fn read_frequency(body: &[u8]) -> Result<u16, Refusal>
    ensures { told_number result ≡ read_item frequency (drop 1 body.now) }
{
    Ok(read_number(body, 1, Width::Two, LOWEST_FREQUENCY, HIGHEST_FREQUENCY)? as u16)
}

pub fn read(body: &[u8]) -> Result<VtxCommand, Refusal>
    ensures { told_vtx result ≡ read_body vtx_rows body.now }
{
    match read_byte(body, 0)? {
        SUB_COMMAND_ID_VTX_SET_FREQUENCY => Ok(VtxCommand::SetFrequency(read_frequency(body)?)),
        SUB_COMMAND_ID_VTX_ENABLE_PIT_MODE_ON_POWER_UP => Ok(unpacked(read_byte(body, 1)?)),
        SUB_COMMAND_ID_VTX_POWER_UP_FROM_PIT_MODE => Ok(VtxCommand::PowerUpFromPitMode),
        SUB_COMMAND_ID_VTX_SET_DYNAMIC_POWER => Ok(VtxCommand::SetDynamicPower(read_byte(
            body, 1,
        )?)),
        SUB_COMMAND_ID_VTX_SET_POWER => Ok(VtxCommand::SetPower(read_byte(body, 1)?)),
        _ => Err(Refusal::InvalidPayload),
    }
}

fn in_band(f: u32) -> bool
    ensures { result ≡ ok_item frequency (f ∷ []) }
{
    if f < LOWEST_FREQUENCY {
        return false;
    }
    if HIGHEST_FREQUENCY < f {
        return false;
    }
    true
}

// A frequency's body; that of a pit byte is `WITH_BYTE_LEN`.
const SET_FREQUENCY_LEN: usize = 3;

fn write_frequency(f: u16, body: &mut [u8]) -> Result<usize, Refusal>
    ensures { WritesValuesFirst vtx_rows (said 0x02 ((f ∷ []) ∷ [])) result body.old body.new }
{
    let ok = in_band(f as u32);
    let n = values_first(ok, body.len(), SET_FREQUENCY_LEN)?;
    put_byte(body, 0, SUB_COMMAND_ID_VTX_SET_FREQUENCY);
    put_number(body, 1, Width::Two, f as u32);
    Ok(n)
}

// Whether control and switch have room in their bits; the mode always has.
fn in_bits(control: u8, switch: u8) -> bool
    ensures { (mode : Bool) → result ≡ ok_item pit (switch ∷ control ∷ bit mode ∷ []) }
{
    if 15 < switch {
        return false;
    }
    if 3 < control {
        return false;
    }
    true
}

fn packed(mode: bool, control: u8, switch: u8) -> u32
    ensures { result ≡ join (4 ∷ 2 ∷ 1 ∷ []) (switch ∷ control ∷ bit mode ∷ []) }
{
    if mode {
        (switch as u32) * 8 + (control as u32) * 2 + 1
    } else {
        (switch as u32) * 8 + (control as u32) * 2
    }
}

fn write_pit(mode: bool, control: u8, switch: u8, body: &mut [u8]) -> Result<usize, Refusal>
    ensures { WritesValuesFirst vtx_rows (said 0x04 ((switch ∷ control ∷ bit mode ∷ []) ∷ [])) result body.old body.new }
{
    let ok = in_bits(control, switch);
    let n = values_first(ok, body.len(), WITH_BYTE_LEN)?;
    let byte = packed(mode, control, switch);
    put_byte(body, 0, SUB_COMMAND_ID_VTX_ENABLE_PIT_MODE_ON_POWER_UP);
    put_number(body, 1, Width::One, byte);
    Ok(n)
}

pub fn write_to(command: VtxCommand, body: &mut [u8]) -> Result<usize, Refusal>
    ensures { WritesValuesFirst vtx_rows (vtx_says command) result body.old body.new }
{
    match command {
        VtxCommand::SetFrequency(megahertz) => write_frequency(megahertz, body),
        VtxCommand::EnablePitModeOnPowerUp {
            pit_mode,
            pit_mode_control,
            pit_mode_switch,
        } => write_pit(pit_mode, pit_mode_control, pit_mode_switch, body),
        VtxCommand::PowerUpFromPitMode => write_alone(
            SUB_COMMAND_ID_VTX_POWER_UP_FROM_PIT_MODE,
            body,
        ),
        VtxCommand::SetDynamicPower(power) => write_with_byte(
            SUB_COMMAND_ID_VTX_SET_DYNAMIC_POWER,
            power,
            body,
        ),
        VtxCommand::SetPower(power) => write_with_byte(SUB_COMMAND_ID_VTX_SET_POWER, power, body),
    }
}

// How many bytes `write_to` writes, counted and not written.
pub fn written_len(command: VtxCommand) -> usize
    ensures value { result ≡ length (write_body vtx_rows (vtx_says command)) }
    ensures upper_bound { result ≤ 9 }
{
    match command {
        VtxCommand::SetFrequency(_) => SET_FREQUENCY_LEN,
        VtxCommand::EnablePitModeOnPowerUp { .. } => WITH_BYTE_LEN,
        VtxCommand::PowerUpFromPitMode => SUB_COMMAND_LEN,
        VtxCommand::SetDynamicPower(_) => WITH_BYTE_LEN,
        VtxCommand::SetPower(_) => WITH_BYTE_LEN,
    }
}
