// The characters: a minus sign or none, the digits before the point, and with decimals above 0 a point and the digits behind it.
ghost use Rattle.std.specs.Prelude.{◌≡◌, ◌++◌, ◌+◌, ◌/◌, ◌^◌, ◌≤◌, length};
ghost use Rattle.std.proofs.lemmas.List.Edits.{sets};
ghost use Rattle.printed.specs.Text.{last_digits, part_of};
ghost use Rattle.printed.specs.Steps.{low_digits, number_in, sign_bytes};

use octets::put_byte;

const MINUS: u8 = 45;

const POINT: u8 = 46;

const ZERO: u8 = 48;

// What is written: a minus sign or none, and the digits, the lowest first, so many of which stand before the point and behind it.
#[derive(Clone, Copy)]
pub struct Laid {
    pub below: bool,
    pub places: usize,
    pub decimals: usize,
    pub digits: [u8; 56],
    ghost room: { places + decimals ≤ 56 },
    ghost few: { decimals ≤ 7 },
    ghost are: { digits ≡ low_digits 56 (number_in digits) },
}

fn sign_length(below: bool) -> usize
    ensures { result ≡ length (sign_bytes below) }
{
    if below { 1 } else { 0 }
}

fn part_length(decimals: usize) -> usize
    requires { decimals ≤ 7 }
    ensures { result ≡ length (part_of decimals 0) }
{
    if decimals == 0 { 0 } else { decimals + 1 }
}

fn put_sign(out: &mut [u8], below: bool)
    ensures { out.new ≡ sets out.old 0 (sign_bytes below) }
{
    if below {
        put_byte(out, 0, MINUS);
    }
}

impl Laid {
    pub fn length(&self) -> usize
        ensures { result ≡ length (sign_bytes self.now.below) + self.now.places + length (part_of self.now.decimals 0) }
    {
        sign_length(self.below) + self.places + part_length(self.decimals)
    }

    // So many digits from the given one on, the highest first, from a place of out on.
    fn put_digits(&self, out: &mut [u8], place: usize, from: usize, count: usize)
        requires { (place ≤ 57) × (from + count ≤ 56) }
        ensures { out.new ≡ sets out.old place (last_digits count (number_in self.now.digits / 10 ^ from)) }
    {
        for k in 0..count {
            let at = from + (count - 1 - k);
            put_byte(out, place + k, ZERO + self.digits[at] % 10);
        }
    }

    fn put_part(&self, out: &mut [u8], place: usize)
        requires { place + self.now.decimals ≤ 57 }
        ensures { out.new ≡ sets out.old place (part_of self.now.decimals (number_in self.now.digits)) }
    {
        if 0 < self.decimals {
            put_byte(out, place, POINT);
            self.put_digits(out, place + 1, 0, self.decimals);
        }
    }

    pub fn put(&self, out: &mut [u8])
        ensures { out.new ≡ sets out.old 0 (sign_bytes self.now.below
            ++ last_digits self.now.places (number_in self.now.digits / 10 ^ self.now.decimals)
            ++ part_of self.now.decimals (number_in self.now.digits)) }
    {
        let sign = sign_length(self.below);
        put_sign(out, self.below);
        self.put_digits(out, sign, self.decimals, self.places);
        self.put_part(out, sign + self.places);
    }
}
