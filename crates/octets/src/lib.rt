// Numbers in byte slices, least significant byte first, and sets of small numbers as bits.
// A byte past the end of a slice is read as 0 and is not written, so a call of `.._at` or `put` has not to show that it is within; one of `.._in`
// has, and one of `put_bytes`, and makes no test.
#![tactic(auto)]

ghost use Rattle.std.specs.Prelude.{◌≡◌, ◌+◌, ◌≤◌, ◌<◌, ◌^◌, length, get_or, set, take, drop};
ghost use Rattle.std.proofs.lemmas.List.Edits.{sets};
ghost use Rattle.octets.specs.Octets.{number_at, bytes_of};
ghost use Rattle.octets.specs.Bits.{has_bit, with_bit};

pub mod label;
pub mod numbers;

pub fn byte_at(s: &[u8], i: usize) -> u8
    ensures { result ≡ get_or s.now i 0 }
{
    if i < s.len() { s[i] } else { 0 }
}

// The bytes from place i on, of more than n the first n.
pub fn part(s: &[u8], i: usize, n: usize) -> &[u8]
    ensures { result.now ≡ take n (drop i s.now) }
{
    let rest = &s[i.min(s.len())..];
    &rest[..n.min(rest.len())]
}

// The number that some bytes are.
fn number_of(bytes: &[u8]) -> u64
    requires { length bytes.now ≤ 8 }
    ensures { result ≡ number_at 8 bytes.now 0 }
{
    let mut all = [0u8; 8];
    all[..bytes.len()].copy_from_slice(bytes);
    u64::from_le_bytes(all)
}

// The number of W bytes at a place.
fn number_in<const W: usize>(s: &[u8], i: usize) -> u64
    requires width { W ≤ 8 }
    requires within { i + W ≤ length s.now }
    ensures value { result ≡ number_at W s.now i }
    ensures fits { result < 256 ^ W }
{
    number_of(&s[i..i + W])
}

// The number of some bytes at a place, 0 for those past the end.
#[cold]
#[inline(never)]
fn number_near_end(s: &[u8], i: usize, width: usize) -> u64
    requires { width ≤ 8 }
    ensures value { result ≡ number_at width s.now i }
    ensures fits { result < 256 ^ width }
{
    number_of(part(s, i, width))
}

// The same where bytes may be past the end.
fn number_at<const W: usize>(s: &[u8], i: usize) -> u64
    requires width { W ≤ 8 }
    requires place { i + W ≤ 2 ^ 32 }
    ensures value { result ≡ number_at W s.now i }
    ensures fits { result < 256 ^ W }
{
    if i + W <= s.len() {
        return number_in::<W>(s, i);
    }
    number_near_end(s, i, W)
}

pub fn u16_in(s: &[u8], i: usize) -> u16
    requires { i + 2 ≤ length s.now }
    ensures { result ≡ number_at 2 s.now i }
{
    number_in::<2>(s, i) as u16
}

pub fn u32_in(s: &[u8], i: usize) -> u32
    requires { i + 4 ≤ length s.now }
    ensures { result ≡ number_at 4 s.now i }
{
    number_in::<4>(s, i) as u32
}

pub fn u64_in(s: &[u8], i: usize) -> u64
    requires { i + 8 ≤ length s.now }
    ensures { result ≡ number_at 8 s.now i }
{
    number_in::<8>(s, i)
}

pub fn u16_at(s: &[u8], i: usize) -> u16
    requires { i + 2 ≤ 2 ^ 32 }
    ensures { result ≡ number_at 2 s.now i }
{
    number_at::<2>(s, i) as u16
}

pub fn u32_at(s: &[u8], i: usize) -> u32
    requires { i + 4 ≤ 2 ^ 32 }
    ensures { result ≡ number_at 4 s.now i }
{
    number_at::<4>(s, i) as u32
}

pub fn u64_at(s: &[u8], i: usize) -> u64
    requires { i + 8 ≤ 2 ^ 32 }
    ensures { result ≡ number_at 8 s.now i }
{
    number_at::<8>(s, i)
}

pub fn put_byte(out: &mut [u8], i: usize, b: u8)
    ensures { out.new ≡ set out.old i b }
{
    if i < out.len() {
        out[i] = b;
    }
}

// The lowest width bytes of v, where they have room.
fn put_in(out: &mut [u8], i: usize, width: usize, v: u64)
    requires { i + width ≤ length out.old }
    ensures { out.new ≡ sets out.old i (bytes_of width v) }
{
    let mut rest = v;
    for k in 0..width {
        out[i + k] = (rest % 256) as u8;
        rest /= 256;
    }
}

// The lowest width bytes of v. One test says whether all have room, and where they have, none is made for each byte.
pub fn put(out: &mut [u8], i: usize, width: usize, v: u64)
    requires { i + width ≤ 2 ^ 32 }
    ensures { out.new ≡ sets out.old i (bytes_of width v) }
{
    if i + width <= out.len() {
        put_in(out, i, width, v);
    } else if i < out.len() {
        put_in(out, i, out.len() - i, v);
    }
}

pub fn put_u16(out: &mut [u8], i: usize, v: u16)
    requires { i + 2 ≤ 2 ^ 32 }
    ensures { out.new ≡ sets out.old i (bytes_of 2 v) }
{
    put(out, i, 2, v as u64);
}

pub fn put_u32(out: &mut [u8], i: usize, v: u32)
    requires { i + 4 ≤ 2 ^ 32 }
    ensures { out.new ≡ sets out.old i (bytes_of 4 v) }
{
    put(out, i, 4, v as u64);
}

pub fn put_u64(out: &mut [u8], i: usize, v: u64)
    requires { i + 8 ≤ 2 ^ 32 }
    ensures { out.new ≡ sets out.old i (bytes_of 8 v) }
{
    put(out, i, 8, v);
}

// The bytes of a slice, where they have room.
pub fn put_bytes(out: &mut [u8], i: usize, bytes: &[u8])
    requires { i + length bytes.now ≤ length out.old }
    ensures { out.new ≡ sets out.old i bytes.now }
{
    // By `copy_from_slice` the archive would call `memmove` of the C library.
    for (k, byte) in bytes.iter().enumerate() {
        out[i + k] = *byte;
    }
}

#[tactic(auto, unfolding(crate::specs::Bits::has_bit))]
pub fn has_bit(x: u64, k: u64) -> bool
    requires { k < 64 }
    ensures { result ≡ has_bit x k }
{
    (x >> k) % 2 == 1
}

pub fn with_bit(x: u64, k: u64) -> u64
    requires { k < 64 }
    ensures { result ≡ with_bit x k }
{
    x | (1 << k)
}
