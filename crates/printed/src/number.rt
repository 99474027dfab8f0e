// The number that is printed, in whole numbers of 64 bits: size * 2^power * tens / 2^149, to the nearest, ties to the even one.
ghost use Rattle.std.specs.Prelude.{◌≡◌, ◌*◌, ◌^◌, ◌<◌, ◌≤◌};
ghost use Rattle.std.specs.Float.Ieee.Nearest.{closest};
ghost use Rattle.printed.specs.Steps.{round_halves, Splits, Rounds};

// whole * 2^power before the point, and part behind it, in last digits.
#[derive(Clone, Copy)]
pub struct Number {
    pub whole: u64,
    pub power: u64,
    pub part: u64,
}

pub fn two_to(k: u64) -> u64
    requires { k < 64 }
    ensures { result ≡ 2 ^ k }
{
    1 << k
}

// What one is in last digits.
pub fn ten_to(decimals: u32) -> u64
    requires { decimals ≤ 7 }
    ensures { result ≡ 10 ^ decimals }
{
    10u64.pow(decimals)
}

// To the nearest, from halves of a last digit; more where something is left over. One half and nothing more is a tie.
fn nearest_of(halves: u64, more: bool) -> u64
    requires { halves < 2 ^ 63 }
    ensures { result ≡ round_halves halves more }
{
    if (halves % 4 == 1) & !more {
        halves / 2
    } else {
        (halves + 1) / 2
    }
}

// rest * tens / 2^shift: the product has up to 84 bits, high * 2^29 and the last 29 of low.
fn nearest_part(rest: u64, shift: u64, tens: u64) -> u64
    requires { (rest < 2 ^ 60) × (30 ≤ shift) × (shift ≤ 82) × (tens ≤ 10 ^ 7) }
    ensures { result ≡ closest (rest * tens) (2 ^ shift) }
{
    let low = rest % 0x2000_0000 * tens;
    let high = rest / 0x2000_0000 * tens + low / 0x2000_0000;
    let half = two_to(shift - 30);
    let more = (high % half != 0) | (low % 0x2000_0000 != 0);
    nearest_of(high / half, more)
}

// size * tens / 2^shift. Pairs of ones are even in last digits, so they are taken off first, and what is rounded stays small. Where 64 bits do not hold
// a pair, the size is below one, and nothing is taken off.
fn split(size: u64, shift: u64, tens: u64) -> Number
    requires { (size < 2 ^ 57) × (1 ≤ shift) × (shift ≤ 82) × (1 ≤ tens) × (tens ≤ 10 ^ 7) }
    ensures { Splits size shift tens result }
{
    let pair = two_to(if shift < 62 { shift + 1 } else { 63 });
    let rest = size % pair;
    let part = if shift < 30 {
        nearest_part(rest * 0x4000_0000, shift + 30, tens)
    } else {
        nearest_part(rest, shift, tens)
    };
    Number {
        whole: 2 * (size / pair) + part / tens,
        power: 0,
        part: part % tens,
    }
}

// From 149 on it is whole; below 67 it is less than half a last digit, whatever the size and the decimals.
pub fn number_of(size: u64, power: u64, tens: u64) -> Number
    requires { (size < 2 ^ 57) × (power < 254) × (1 ≤ tens) × (tens ≤ 10 ^ 7) }
    ensures { Rounds size power tens result }
{
    if 149 <= power {
        Number {
            whole: size,
            power: power - 149,
            part: 0,
        }
    } else if power < 67 {
        Number {
            whole: 0,
            power: 0,
            part: 0,
        }
    } else {
        split(size, 149 - power, tens)
    }
}
