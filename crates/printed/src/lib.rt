// The shown value as text, from the exact sum and the exact scale as whole numbers: what is printed is never made from what was rounded.
#![tactic(auto)]

ghost use Rattle.std.specs.Prelude.{◌≡◌, true, ◌≤◌};
ghost use Rattle.std.specs.Float.{binary32};
ghost use Rattle.std.specs.Float.Ieee.{of_bits};
ghost use Rattle.std.specs.Float.Ieee.Positive.{positive};
ghost use Rattle.printed.specs.Printing.{Prints, printed_as};
ghost use Rattle.printed.specs.LaidOut.{LaidOut};
ghost use Rattle.printed.specs.Promises.{PrintedText};
ghost use Rattle.printed.specs.Examples.{PrintedExamples};

use octets::numbers::{DONE, Refusal};

mod digits;
mod number;
mod text;

pub use text::Laid;

// Number 0 and how many bytes of text were written, or the refusal and length 0.
#[repr(C)]
#[derive(Clone, Copy)]
pub struct Printed {
    pub number: u8,
    pub length: usize,
}

impl From<Result<usize, Refusal>> for Printed {
    ghost from_gives = { λ outcome printed. printed ≡ printed_as outcome };

    fn from(outcome: Result<usize, Refusal>) -> Printed {
        match outcome {
            Ok(length) => Printed {
                number: DONE,
                length,
            },
            Err(why) => Printed {
                number: why.number(),
                length: 0,
            },
        }
    }
}

// The number that is printed, taken apart.
fn laid_out(value: u32, offset: i32, scale: u32, decimals: u32) -> Laid
    requires { (positive (of_bits binary32 scale) ≡ true) × (decimals ≤ 7) }
    ensures { LaidOut value offset (of_bits binary32 scale) decimals result }
{
    let fraction = shown::fraction_of(value, offset, scale);
    let tens = number::ten_to(decimals);
    let printed = number::number_of(fraction.size, fraction.power, tens);
    let digits = digits::digits_of(printed, tens);
    Laid {
        below: fraction.below & ((printed.whole != 0) | (printed.part != 0)),
        places: digits::places_of(&digits, decimals as usize),
        decimals: decimals as usize,
        digits,
    }
}

// From the scale's 32 bits: how many bytes of text were written.
fn print_bits(
    value: u32,
    offset: i32,
    scale: u32,
    decimals: u32,
    out: &mut [u8],
) -> Result<usize, Refusal>
    ensures { Prints value offset (of_bits binary32 scale) decimals out.old out.new (printed_as result) }
{
    if !shown::finite_above_zero(scale) {
        return Err(Refusal::WrongValue);
    }
    if 7 < decimals {
        return Err(Refusal::WrongValue);
    }
    let laid = laid_out(value, offset, scale, decimals);
    let length = laid.length();
    if out.len() < length {
        return Err(Refusal::TooShort);
    }
    laid.put(out);
    Ok(length)
}

// From an f32. A NaN has no bits of its own.
pub fn print(value: u32, offset: i32, scale: f32, decimals: u32, out: &mut [u8]) -> Printed
    ensures { Prints value offset scale decimals out.old out.new result }
{
    if scale.is_nan() {
        return Printed::from(Err(Refusal::WrongValue));
    }
    Printed::from(print_bits(value, offset, scale.to_bits(), decimals, out))
}

// The worked examples hold of the definitions that the contracts above cite.
pub fn examples()
    ensures { PrintedExamples }
{}

// The rules of the printed text hold of the definitions that the contracts above cite: nothing is done, the contract says so.
pub fn promises()
    ensures { PrintedText }
{}
