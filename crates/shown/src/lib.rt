// The shown value, (value + offset) * scale: a function of what is kept, and never kept itself.
#![tactic(auto)]

ghost use Rattle.std.specs.Prelude.{◌≡◌, ◌<◌, ◌^◌, nat_abs};
ghost use Rattle.std.specs.Float.{binary32};
ghost use Rattle.std.specs.Float.Ieee.{of_bits};
ghost use Rattle.std.specs.Float.Ieee.Positive.{positive};
ghost use Rattle.shown.specs.Value.{sum_of, negative, shown_of, shown_as, Exact};
ghost use Rattle.shown.specs.Whole.{digits_of, power_of, fraction_of, is_held};
ghost use Rattle.shown.specs.Promises.{ShownValue};
ghost use Rattle.shown.specs.Examples.{ShownExamples};

use octets::numbers::{DONE, Refusal};

// Number 0, the shown value, and exact 1 where it is the exact product, else 0; or number 4, value 0 and exact 0.
#[repr(C)]
#[derive(Clone, Copy)]
pub struct Shown {
    pub number: u8,
    pub exact: u8,
    pub value: f64,
}

// The product as the nearest f64, and whether that is the exact product.
#[derive(Clone, Copy)]
pub struct Rounded {
    pub value: f64,
    pub exact: bool,
}

impl From<Result<Rounded, Refusal>> for Shown {
    ghost from_gives = { λ outcome shown. shown ≡ shown_as outcome };

    fn from(outcome: Result<Rounded, Refusal>) -> Shown {
        match outcome {
            Ok(product) => Shown {
                number: DONE,
                exact: product.exact as u8,
                value: product.value,
            },
            Err(why) => Shown {
                number: why.number(),
                exact: 0,
                value: 0.0,
            },
        }
    }
}

// The exact product as a fraction: size * 2^power / 2^149, and below zero where the sum is.
#[derive(Clone, Copy)]
pub struct Fraction {
    pub below: bool,
    pub size: u64,
    pub power: u64,
}

// Finite and above zero, of the 32 bits of a scale: 1 to 7F7FFFFF.
pub fn finite_above_zero(scale: u32) -> bool
    ensures { result ≡ positive (of_bits binary32 scale) }
{
    (1 <= scale) & (scale <= 0x7f7f_ffff)
}

// "the sum exact"
fn sum_of(value: u32, offset: i32) -> i64
    ensures { result ≡ sum_of value offset }
{
    value as i64 + offset as i64
}

// The size of the sum: below 2^33.
fn sum_size(value: u32, offset: i32) -> u64
    ensures { result ≡ nat_abs (sum_of value offset) }
{
    sum_of(value, offset).unsigned_abs()
}

fn sum_below(value: u32, offset: i32) -> bool
    ensures { result ≡ negative (sum_of value offset) }
{
    sum_of(value, offset) < 0
}

// At most 24 digits, in binary.
fn digits_of(scale: u32) -> u64
    ensures { result ≡ digits_of scale }
{
    let low = (scale % 0x80_0000) as u64;
    if scale / 0x80_0000 == 0 {
        low
    } else {
        0x80_0000 + low
    }
}

fn power_of(scale: u32) -> u64
    ensures { result ≡ power_of scale }
{
    let field = (scale / 0x80_0000) as u64;
    if field == 0 { 0 } else { field - 1 }
}

// The exact product; it means something where the scale is finite and above zero.
pub fn fraction_of(value: u32, offset: i32, scale: u32) -> Fraction
    ensures { result ≡ fraction_of value offset scale }
{
    Fraction {
        below: sum_below(value, offset),
        size: sum_size(value, offset) * digits_of(scale),
        power: power_of(scale),
    }
}

// Whether an f64, which has 53 digits, holds a whole number of at most 57.
fn held(size: u64) -> bool
    requires { size < 2 ^ 57 }
    ensures { result ≡ is_held size }
{
    (size < 0x20_0000_0000_0000)
        | ((size % 2 == 0) & (size / 2 < 0x20_0000_0000_0000))
        | ((size % 4 == 0) & (size / 4 < 0x20_0000_0000_0000))
        | ((size % 8 == 0) & (size / 8 < 0x20_0000_0000_0000))
        | (size % 16 == 0)
}

// From the scale's 32 bits: "A scale not finite and above zero, as style 00 has it, gives 4".
fn product_of(value: u32, offset: i32, scale: u32) -> Result<Rounded, Refusal>
    ensures value { shown_as result ≡ shown_of value offset (of_bits binary32 scale) }
    ensures exact { Exact value offset (of_bits binary32 scale) (shown_as result) }
{
    if !finite_above_zero(scale) {
        return Err(Refusal::WrongValue);
    }
    let product = sum_of(value, offset) as f64 * f32::from_bits(scale) as f64;
    Ok(Rounded {
        value: product,
        exact: held(fraction_of(value, offset, scale).size),
    })
}

// From the scale's 32 bits, as they stand in a pool.
pub fn shown_bits(value: u32, offset: i32, scale: u32) -> Shown
    ensures value { result ≡ shown_of value offset (of_bits binary32 scale) }
    ensures exact { Exact value offset (of_bits binary32 scale) result }
{
    Shown::from(product_of(value, offset, scale))
}

// From an f32. A NaN has no bits of its own.
pub fn shown_of(value: u32, offset: i32, scale: f32) -> Shown
    ensures value { result ≡ shown_of value offset scale }
    ensures exact { Exact value offset scale result }
{
    if scale.is_nan() {
        return Shown::from(Err(Refusal::WrongValue));
    }
    shown_bits(value, offset, scale.to_bits())
}

// The worked examples hold of the definitions that the contracts above cite.
pub fn examples()
    ensures { ShownExamples }
{}

// The rules of the shown value hold of the definition that the contracts above cite: nothing is done, the contract says so.
pub fn promises()
    ensures { ShownValue }
{}
