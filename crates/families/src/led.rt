// 0x09 LED.
ghost use Rattle.std.specs.Prelude.{◌≡◌, ◌∷◌, [], ◌+◌, ◌≤◌, length};
ghost use Rattle.std.proofs.lemmas.List.Edits.{sets};
ghost use Rattle.codec.specs.Sheet.{said, got, and_then, word};
ghost use Rattle.codec.specs.Digits.{join, split};
ghost use Rattle.codec.specs.Reading.{read_items, read_body};
ghost use Rattle.codec.specs.Writing.{ok_item, items_of, counted, write_body};
ghost use Rattle.codec.specs.Told.{WritesInOrder, told_written};
ghost use Rattle.families.specs.Sheets.{led_rows, colour};
ghost use Rattle.families.specs.Led.{color_says, led_says, told_led, TakesColor, told_fade, fade_says, stop_first, timed_bytes};

use codec::reader::{Reader, Width};
use codec::refusal::Refusal;
use codec::writer::{SUB_COMMAND_LEN, put_byte, put_number, values_first, write_alone};

#[derive(Clone, Copy)]
pub struct LedColor {
    pub hue: u16,
    pub saturation: u8,
    pub value: u8,
}

#[derive(Clone, Copy)]
pub enum LedCommand {
    SetDefault,
    OverrideColor(LedColor),
    OverridePulse {
        duration_ms: u16,
        start: LedColor,
        stop: LedColor,
    },
    OverrideBlink {
        interval_ms: u16,
        start: LedColor,
        stop: LedColor,
    },
    OverrideShift {
        interval_ms: u16,
        color: LedColor,
    },
}

// What a pulse and a blink hold.
#[derive(Clone, Copy)]
pub(crate) struct Fade {
    pub(crate) time: u16,
    pub(crate) start: LedColor,
    pub(crate) stop: LedColor,
}

pub const SUB_COMMAND_ID_LED_SET_DEFAULT: u8 = 0x01;

pub const SUB_COMMAND_ID_LED_OVERRIDE_COLOR: u8 = 0x02;

pub const SUB_COMMAND_ID_LED_OVERRIDE_PULSE: u8 = 0x03;

pub const SUB_COMMAND_ID_LED_OVERRIDE_BLINK: u8 = 0x04;

pub const SUB_COMMAND_ID_LED_OVERRIDE_SHIFT: u8 = 0x05;

const HIGHEST_HUE: u16 = 359;

const HIGHEST_SATURATION: u8 = 100;

const HIGHEST_VALUE: u8 = 100;

fn valid(color: LedColor) -> bool
    ensures { result ≡ ok_item colour (color_says color) }
{
    if HIGHEST_HUE < color.hue {
        return false;
    }
    if HIGHEST_SATURATION < color.saturation {
        return false;
    }
    if HIGHEST_VALUE < color.value {
        return false;
    }
    true
}

// "9 bits hue (0-359), 7 saturation (0-100), 8 value (0-100)", of a colour's three bytes.
fn unpacked(n: u32) -> LedColor
    ensures { color_says result ≡ split (9 ∷ 7 ∷ 8 ∷ []) n }
{
    LedColor {
        hue: (n / 32768 % 512) as u16,
        saturation: (n / 256 % 128) as u8,
        value: (n % 256) as u8,
    }
}

// "A colour is one item": its three bytes are there before it is judged.
fn take_color(input: &mut Reader) -> Result<LedColor, Refusal>
    ensures { TakesColor result input.old.remaining.now input.new.remaining.now }
{
    let color = unpacked(input.u24()?);
    if valid(color) {
        Ok(color)
    } else {
        Err(Refusal::InvalidPayload)
    }
}

// "02 colour", behind the sub-command.
fn read_color(rest: &[u8]) -> Result<LedCommand, Refusal>
    ensures { told_led result ≡ and_then (read_items (colour ∷ []) rest.now 0) (λ vs. got (said 0x02 vs)) }
{
    let mut input = Reader::new(rest);
    Ok(LedCommand::OverrideColor(take_color(&mut input)?))
}

// "03 time(2), start, stop; 04 the same", behind the sub-command.
fn read_fade(rest: &[u8]) -> Result<Fade, Refusal>
    ensures { told_fade result ≡ read_items (word ∷ colour ∷ colour ∷ []) rest.now 0 }
{
    let mut input = Reader::new(rest);
    let time = input.u16()?;
    let start = take_color(&mut input)?;
    let stop = take_color(&mut input)?;
    Ok(Fade { time, start, stop })
}

// "05 time(2), colour", behind the sub-command.
fn read_shift(rest: &[u8]) -> Result<LedCommand, Refusal>
    ensures { told_led result ≡ and_then (read_items (word ∷ colour ∷ []) rest.now 0) (λ vs. got (said 0x05 vs)) }
{
    let mut input = Reader::new(rest);
    Ok(LedCommand::OverrideShift {
        interval_ms: input.u16()?,
        color: take_color(&mut input)?,
    })
}

// A pulse and a blink differ in their case alone: a closure that gives it is no plainer.
fn read_pulse(rest: &[u8]) -> Result<LedCommand, Refusal>
    ensures { told_led result ≡ and_then (read_items (word ∷ colour ∷ colour ∷ []) rest.now 0) (λ vs. got (said 0x03 vs)) }
{
    let Fade { time, start, stop } = read_fade(rest)?;
    Ok(LedCommand::OverridePulse {
        duration_ms: time,
        start,
        stop,
    })
}

fn read_blink(rest: &[u8]) -> Result<LedCommand, Refusal>
    ensures { told_led result ≡ and_then (read_items (word ∷ colour ∷ colour ∷ []) rest.now 0) (λ vs. got (said 0x04 vs)) }
{
    let Fade { time, start, stop } = read_fade(rest)?;
    Ok(LedCommand::OverrideBlink {
        interval_ms: time,
        start,
        stop,
    })
}

pub fn read(body: &[u8]) -> Result<LedCommand, Refusal>
    ensures { told_led result ≡ read_body led_rows body.now }
{
    let mut input = Reader::new(body);
    match input.byte()? {
        SUB_COMMAND_ID_LED_SET_DEFAULT => Ok(LedCommand::SetDefault),
        SUB_COMMAND_ID_LED_OVERRIDE_COLOR => read_color(input.remaining),
        SUB_COMMAND_ID_LED_OVERRIDE_PULSE => read_pulse(input.remaining),
        SUB_COMMAND_ID_LED_OVERRIDE_BLINK => read_blink(input.remaining),
        SUB_COMMAND_ID_LED_OVERRIDE_SHIFT => read_shift(input.remaining),
        _ => Err(Refusal::InvalidPayload),
    }
}

fn packed(color: LedColor) -> u32
    ensures { result ≡ join (9 ∷ 7 ∷ 8 ∷ []) (color_says color) }
{
    (color.hue as u32) * 32768 + (color.saturation as u32) * 256 + (color.value as u32)
}

// A colour's bytes; and a body up to the end of an item: of a colour, of a time, of a colour behind the time, and of a second one.
const COLOR_LEN: usize = 3;

const SUB_COLOR_LEN: usize = 4;

const TIMED_LEN: usize = 3;

const TIMED_COLOR_LEN: usize = 6;

const TIMED_COLORS_LEN: usize = 9;

// "sub-command and time need room; each colour is judged (2), then needs room": those `before` the first colour, and that colour.
fn judge_first(color: LedColor, before: usize, room: usize) -> Result<usize, Refusal>
    requires { before ≤ 3 }
    ensures { told_written result ≡ counted (stop_first before room (color_says color)) (before + 3) }
{
    if room < before {
        return Err(Refusal::BufferOverflow);
    }
    values_first(valid(color), room, before + COLOR_LEN)
}

fn write_color(color: LedColor, body: &mut [u8]) -> Result<usize, Refusal>
    ensures { WritesInOrder led_rows (said 0x02 (color_says color ∷ [])) result body.old body.new }
{
    let n = judge_first(color, SUB_COMMAND_LEN, body.len())?;
    put_byte(body, 0, SUB_COMMAND_ID_LED_OVERRIDE_COLOR);
    put_number(body, SUB_COMMAND_LEN, Width::Three, packed(color));
    Ok(n)
}

// Sub-command, time and first colour, into a body that has room for them.
fn put_timed(sub: u8, time: u16, color: LedColor, body: &mut [u8])
    requires { 6 ≤ length body.old }
    ensures { body.new ≡ sets body.old 0 (timed_bytes sub time (color_says color)) }
{
    put_byte(body, 0, sub);
    put_number(body, SUB_COMMAND_LEN, Width::Two, time as u32);
    put_number(body, TIMED_LEN, Width::Three, packed(color));
}

// A pulse or a blink, by its sub-command.
fn write_fade(
    sub: u8,
    time: u16,
    start: LedColor,
    stop: LedColor,
    body: &mut [u8],
) -> Result<usize, Refusal>
    requires { items_of led_rows sub ≡ word ∷ colour ∷ colour ∷ [] }
    ensures { WritesInOrder led_rows (fade_says sub time start stop) result body.old body.new }
{
    judge_first(start, TIMED_LEN, body.len())?;
    let n = values_first(valid(stop), body.len(), TIMED_COLORS_LEN)?;
    put_timed(sub, time, start, body);
    put_number(body, TIMED_COLOR_LEN, Width::Three, packed(stop));
    Ok(n)
}

fn write_shift(time: u16, color: LedColor, body: &mut [u8]) -> Result<usize, Refusal>
    ensures { WritesInOrder led_rows (said 0x05 ((time ∷ []) ∷ color_says color ∷ [])) result body.old body.new }
{
    let n = judge_first(color, TIMED_LEN, body.len())?;
    put_timed(SUB_COMMAND_ID_LED_OVERRIDE_SHIFT, time, color, body);
    Ok(n)
}

// Item by item: sub-command and time need room; each colour is judged (2), then needs room (3).
pub fn write_to(command: LedCommand, body: &mut [u8]) -> Result<usize, Refusal>
    ensures { WritesInOrder led_rows (led_says command) result body.old body.new }
{
    match command {
        LedCommand::SetDefault => write_alone(SUB_COMMAND_ID_LED_SET_DEFAULT, body),
        LedCommand::OverrideColor(color) => write_color(color, body),
        LedCommand::OverridePulse {
            duration_ms,
            start,
            stop,
        } => write_fade(
            SUB_COMMAND_ID_LED_OVERRIDE_PULSE,
            duration_ms,
            start,
            stop,
            body,
        ),
        LedCommand::OverrideBlink {
            interval_ms,
            start,
            stop,
        } => write_fade(
            SUB_COMMAND_ID_LED_OVERRIDE_BLINK,
            interval_ms,
            start,
            stop,
            body,
        ),
        LedCommand::OverrideShift { interval_ms, color } => write_shift(interval_ms, color, body),
    }
}

// How many bytes `write_to` writes, counted and not written.
pub fn written_len(command: LedCommand) -> usize
    ensures value { result ≡ length (write_body led_rows (led_says command)) }
    ensures upper_bound { result ≤ 9 }
{
    match command {
        LedCommand::SetDefault => SUB_COMMAND_LEN,
        LedCommand::OverrideColor(_) => SUB_COLOR_LEN,
        LedCommand::OverridePulse { .. } => TIMED_COLORS_LEN,
        LedCommand::OverrideBlink { .. } => TIMED_COLORS_LEN,
        LedCommand::OverrideShift { .. } => TIMED_COLOR_LEN,
    }
}
