// The decimal digits of a number, the lowest first: 56 are enough for every number that is printed.
ghost use Rattle.std.specs.Prelude.{◌≡◌, ◌+◌, ◌*◌, ◌/◌, ◌^◌, ◌<◌, ◌≤◌};
ghost use Rattle.printed.specs.Text.{places};
ghost use Rattle.printed.specs.Steps.{together, low_digits, number_in};

use crate::number::{Number, two_to};

// The number times another, plus a third; what goes beyond 56 digits is left out.
fn scaled(digits: &[u8; 56], times: u64, plus: u64) -> [u8; 56]
    requires { (times ≤ 2 ^ 26) × (plus < 2 ^ 57) }
    ensures { result ≡ low_digits 56 (number_in digits.now * times + plus) }
{
    let mut r = [0u8; 56];
    let mut carry = plus;
    for k in 0..56 {
        let sum = digits[k] as u64 * times + carry;
        r[k] = (sum % 10) as u8;
        carry = sum / 10;
    }
    r
}

// 26 powers of two at a time.
fn doubled(digits: &[u8; 56], power: u64) -> [u8; 56]
    requires { power < 105 }
    ensures { result ≡ low_digits 56 (number_in digits.now * 2 ^ power) }
{
    if power <= 26 {
        return scaled(digits, two_to(power), 0);
    }
    let more = scaled(digits, 0x400_0000, 0);
    doubled(&more, power - 26)
}

pub fn digits_of(number: Number, tens: u64) -> [u8; 56]
    requires { (number.whole < 2 ^ 57) × (number.power < 105) × (number.part < 2 ^ 57) × (tens ≤ 10 ^ 7) }
    ensures { result ≡ low_digits 56 (together number tens) }
{
    let whole = scaled(&[0u8; 56], 0, number.whole);
    let doubles = doubled(&whole, number.power);
    scaled(&doubles, tens, number.part)
}

// How many digits stand before the point: at least one, and no zero before others.
pub fn places_of(digits: &[u8; 56], decimals: usize) -> usize
    requires { (decimals ≤ 7) × (digits.now ≡ low_digits 56 (number_in digits.now)) }
    ensures { result ≡ places (number_in digits.now / 10 ^ decimals) }
{
    match digits.iter().rposition(|digit| *digit != 0) {
        Some(top) if decimals < top => top + 1 - decimals,
        _ => 1,
    }
}
