// The functions of the C boundary: numbers and byte slices only (include/crsf.h). crsf_c exports each under its name.
#![tactic(auto)]

pub mod command;
pub mod edit;
pub mod log;
pub mod made;
pub mod question;

ghost use Rattle.std.specs.Prelude.{◌≡◌};
ghost use Rattle.crc.specs.Check.{command_polynomial, check_from};

// The check of `bytes` from `start`, which is 0 or the check of what came before.
pub fn crsf_check(bytes: &[u8], start: u8) -> u8
    ensures { result ≡ check_from command_polynomial start bytes.now }
{
    crc::check(bytes, start)
}
