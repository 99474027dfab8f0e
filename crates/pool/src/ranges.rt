// The ranges of an object's fields.
ghost use Rattle.std.specs.Prelude.{◌≡◌};
ghost use Rattle.pool.specs.Ranges.{label_right, number_right, names_right, base_right, state_right, trigger_right, scale_right, unshown_right, shown_right, value_right, function_right, head_right};

use crate::{BaseHead, FunctionHead, Head, StateHead};

pub fn label_right(n: u8) -> bool
    ensures { result ≡ label_right n }
{
    (1 <= n) & (n <= 63)
}

fn number_right(n: u16) -> bool
    ensures { result ≡ number_right n }
{
    (1 <= n) & (n <= 65534)
}

fn names_right(name: u16, picture: u16) -> bool
    ensures { result ≡ names_right name picture }
{
    (name != 0xFFFF) & (picture != 0xFFFF)
}

pub fn base_right(h: &BaseHead) -> bool
    ensures { result ≡ base_right h.now }
{
    (h.number == 0) & (h.version <= 2) & (1 <= h.o) & names_right(h.name, h.picture)
}

pub fn state_right(h: &StateHead) -> bool
    ensures { result ≡ state_right h.now }
{
    number_right(h.number) & (h.state <= 63) & names_right(h.name, h.picture)
}

fn trigger_right(t: u8) -> bool
    ensures { result ≡ trigger_right t }
{
    (t == 1) | (t == 2) | (t == 255)
}

fn scale_right(bits: u32) -> bool
    ensures { result ≡ scale_right bits }
{
    (1 <= bits) & (bits <= 0x7F7FFFFF)
}

fn unshown_right(h: &FunctionHead) -> bool
    ensures { result ≡ unshown_right h.now }
{
    (h.minimum == 0xFFFFFFFF)
        & (h.maximum == 0xFFFFFFFF)
        & (h.offset == 0xFFFFFFFF)
        & (h.scale == 0xFFFFFFFF)
        & (h.decimals == 0xFF)
        & (h.unit == 0xFFFF)
}

fn shown_right(h: &FunctionHead) -> bool
    ensures { result ≡ shown_right h.now }
{
    scale_right(h.scale) & (h.decimals <= 7) & (h.unit != 0xFFFF)
}

fn value_right(h: &FunctionHead) -> bool
    ensures { result ≡ value_right h.now }
{
    if h.attribute == 0 {
        return unshown_right(h);
    }
    if h.attribute == 1 {
        return (h.minimum == 0xFFFFFFFF) & (h.maximum == 0xFFFFFFFF) & shown_right(h);
    }
    (h.attribute == 2) & (h.minimum <= h.maximum) & shown_right(h)
}

pub fn function_right(h: &FunctionHead) -> bool
    ensures { result ≡ function_right h.now }
{
    let others = number_right(h.number)
        & trigger_right(h.trigger)
        & (h.s <= 64)
        & names_right(h.name, h.picture);
    if !others {
        return false;
    }
    value_right(h)
}

// Every field is in its range.
pub fn head_right(h: Head) -> bool
    ensures { result ≡ head_right h }
{
    match h {
        Head::Base(b) => base_right(&b),
        Head::Function(f) => function_right(&f),
        Head::State(s) => state_right(&s),
    }
}
