// The check of document 01, "The payload and its check": the Rust's COMMAND_CRC_ALGO, by bit.
#![tactic(auto)]

ghost use Rattle.std.specs.Prelude.{◌≡◌, ◌-◌, ◌*◌, replicate};
ghost use Rattle.crc.specs.Check.{command_polynomial, check_from, typed_check};
ghost use Rattle.crc.specs.Steps.{step, steps};

// x^8+x^7+x^5+x^4+x^3+x without its x^8.
const COMMAND_POLYNOMIAL: u8 = 0xBA;

// One step of the long division. With the polynomial a constant here the compiler makes a table of the loop below.
fn shift(r: u8) -> u8
    ensures { result ≡ step command_polynomial r }
{
    if r < 128 {
        r * 2
    } else {
        (r - 128) * 2 ^ COMMAND_POLYNOMIAL
    }
}

// The eight steps of one byte.
fn eight_steps(r: u8) -> u8
    ensures { result ≡ steps command_polynomial 8 r }
{
    let mut s = r;
    for _ in 0..8u32 {
        s = shift(s);
    }
    s
}

// The check of `bytes`, from the check `start` of what came before them, or from 0.
pub fn check(bytes: &[u8], start: u8) -> u8
    ensures { result ≡ check_from command_polynomial start bytes.now }
{
    let mut r = start;
    for byte in bytes {
        r = eight_steps(r ^ *byte);
    }
    r
}

// n times the eight steps.
fn turns(r: u8, n: usize) -> u8
    ensures { result ≡ steps command_polynomial (8 * n) r }
{
    let mut s = r;
    for _ in 0..n {
        s = eight_steps(s);
    }
    s
}

// The check after n more bytes 00, at a cost that does not grow with n: behind one of them seven more change nothing, for x^64 and
// x^8 leave the same remainder.
pub fn check_with_zeros(check: u8, n: usize) -> u8
    ensures { result ≡ check_from command_polynomial check (replicate n 0) }
{
    if 7 < n {
        turns(check, (n - 1) % 7 + 1)
    } else {
        turns(check, n)
    }
}

// The check that belongs into the last byte of `payload`, whatever stands there. The frame type is the first byte of the message.
pub fn payload_check(packet_type: u8, payload: &[u8]) -> u8
    ensures { result ≡ typed_check packet_type payload.now }
{
    let end = payload.len().saturating_sub(1);
    // from start 0, the type taken in
    check(&payload[..end], eight_steps(0 ^ packet_type))
}
