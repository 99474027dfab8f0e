// Codes and bits.
ghost use Rattle.std.specs.Prelude.{◌≡◌};
ghost use Rattle.message.specs.Fields.{known, status_from, status_of, packed};

use crate::Status;

// Whether a code of a field whose codes are 00 to last, and FF, is not a reserved one.
pub fn known(last: u8, code: u8) -> bool
    ensures { result ≡ known last code }
{
    (code <= last) | (code == 0xFF)
}

// D.9: whether the code is not a reserved one.
pub fn is_pool_code(code: u8) -> bool
    ensures { result ≡ known 0x0C code }
{
    match code {
        0x00..=0x0C => true,
        0x0D..=0xFE => false,
        0xFF => true,
    }
}

// Of two bits. A number above 11 is no status: who takes one from outside refuses it first (`flat`).
pub fn status_from(number: u8) -> Status
    ensures { result ≡ status_from number }
{
    Status::try_from(number).unwrap_or(Status::Failed)
}

// The status in bits 7 and 8 of a byte.
pub fn status_of(octet: u8) -> Status
    ensures { result ≡ status_of octet }
{
    status_from(octet / 64)
}

// A byte with the state in bits 1 to 6 and the status in bits 7 and 8.
#[tactic(auto, unfolding(crate::specs::Fields::packed))]
pub fn packed(state: u8, status: Status) -> u8
    ensures { result ≡ packed state status }
{
    state % 64 + 64 * status.number()
}
