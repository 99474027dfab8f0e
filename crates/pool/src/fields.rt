// An object's length and the fields of its fixed part, by its place. Places are below 65,536.
ghost use Rattle.std.specs.Prelude.{◌≡◌, ◌+◌, ◌≤◌, ◌<◌, length, get_or};
ghost use Rattle.pool.specs.Fields.{object_number, kind_at, id_at, base_at, function_at, state_at, head_at, fixed_of, rest_at, size_at, version_label, configuration_label, numbers_at, functions_of, states_of};

use crate::{
    BASE_FIXED, BASE_TYPE, BaseHead, FUNCTION_FIXED, FUNCTION_TYPE, FunctionHead, Head,
    STATE_FIXED, StateHead,
};
use octets::label::{Label, label_at};
use octets::{byte_at, u16_at, u16_in, u32_at, u32_in, u64_at};

pub fn object_number(s: &[u8], at: usize) -> u16
    requires { at < 65536 }
    ensures { result ≡ object_number s.now at }
{
    u16_at(s, at)
}

pub fn kind_at(s: &[u8], at: usize) -> u8
    requires { at < 65536 }
    ensures { result ≡ kind_at s.now at }
{
    byte_at(s, at + 2)
}

pub fn id_at(s: &[u8], at: usize) -> u8
    requires { at < 65536 }
    ensures { result ≡ id_at s.now at }
{
    byte_at(s, at + 3)
}

// The preferred trigger of the function at a place.
pub fn trigger_at(s: &[u8], at: usize) -> u8
    requires { at < 65536 }
    ensures { result ≡ (function_at s.now at).trigger }
{
    byte_at(s, at + 4)
}

// S: how many states the function at a place lists.
pub fn state_count(s: &[u8], at: usize) -> u8
    requires { at < 65536 }
    ensures { result ≡ (function_at s.now at).s }
{
    byte_at(s, at + 29)
}

pub fn base_at(s: &[u8], at: usize) -> BaseHead
    requires { at < 65536 }
    ensures { result ≡ base_at s.now at }
{
    BaseHead {
        number: object_number(s, at),
        version: byte_at(s, at + 3),
        master: u64_at(s, at + 4),
        mask: u64_at(s, at + 12),
        name: u16_at(s, at + 20),
        picture: u16_at(s, at + 22),
        n: byte_at(s, at + 24),
        m: byte_at(s, at + 25),
        o: byte_at(s, at + 26),
    }
}

pub fn function_at(s: &[u8], at: usize) -> FunctionHead
    requires { at < 65536 }
    ensures { result ≡ function_at s.now at }
{
    FunctionHead {
        number: object_number(s, at),
        function: id_at(s, at),
        trigger: trigger_at(s, at),
        attribute: byte_at(s, at + 5),
        minimum: u32_at(s, at + 6),
        maximum: u32_at(s, at + 10),
        offset: u32_at(s, at + 14),
        scale: u32_at(s, at + 18),
        decimals: byte_at(s, at + 22),
        unit: u16_at(s, at + 23),
        name: u16_at(s, at + 25),
        picture: u16_at(s, at + 27),
        s: state_count(s, at),
    }
}

// The same where its bytes are there: no test is made for them, so that the compiler lays it into the walk over the objects.
pub fn function_in(s: &[u8], at: usize) -> FunctionHead
    requires { at + 30 ≤ length s.now }
    ensures { result ≡ function_at s.now at }
{
    FunctionHead {
        number: u16_in(s, at),
        function: s[at + 3],
        trigger: s[at + 4],
        attribute: s[at + 5],
        minimum: u32_in(s, at + 6),
        maximum: u32_in(s, at + 10),
        offset: u32_in(s, at + 14),
        scale: u32_in(s, at + 18),
        decimals: s[at + 22],
        unit: u16_in(s, at + 23),
        name: u16_in(s, at + 25),
        picture: u16_in(s, at + 27),
        s: s[at + 29],
    }
}

pub fn state_at(s: &[u8], at: usize) -> StateHead
    requires { at < 65536 }
    ensures { result ≡ state_at s.now at }
{
    StateHead {
        number: object_number(s, at),
        state: id_at(s, at),
        name: u16_at(s, at + 4),
        picture: u16_at(s, at + 6),
    }
}

// The fixed part of the object at a place, by its type. The byte is compared here, and no type is made of it: any other than the first two is read as a
// state's, whether the object is one or not.
pub fn head_at(s: &[u8], at: usize) -> Head
    requires { at < 65536 }
    ensures { result ≡ head_at s.now at }
{
    let kind = kind_at(s, at);
    if kind == BASE_TYPE {
        return Head::Base(base_at(s, at));
    }
    if kind == FUNCTION_TYPE {
        return Head::Function(function_at(s, at));
    }
    Head::State(state_at(s, at))
}

fn fixed_of(kind: u8) -> usize
    ensures value { result ≡ fixed_of kind }
    ensures upper_bound { result ≤ 30 }
{
    if kind == BASE_TYPE {
        return BASE_FIXED;
    }
    if kind == FUNCTION_TYPE {
        return FUNCTION_FIXED;
    }
    STATE_FIXED
}

fn rest_at(s: &[u8], at: usize) -> usize
    requires { at < 65536 }
    ensures value { result ≡ rest_at s.now at }
    ensures upper_bound { result ≤ 1020 }
{
    let kind = kind_at(s, at);
    if kind == BASE_TYPE {
        let base = base_at(s, at);
        return base.n as usize + base.m as usize + 2 * (base.o as usize);
    }
    if kind == FUNCTION_TYPE {
        return 2 * (state_count(s, at) as usize);
    }
    0
}

pub fn size_at(s: &[u8], at: usize) -> usize
    requires { at < 65536 }
    ensures value { result ≡ size_at s.now at }
    ensures upper_bound { result ≤ 1050 }
{
    let kind = kind_at(s, at);
    fixed_of(kind) + rest_at(s, at)
}

// The labels of the base at a place.
pub fn version_label(s: &[u8], b: usize) -> Label
    requires { b < 65536 }
    ensures { result ≡ version_label s.now b }
{
    let base = base_at(s, b);
    label_at(s, b + BASE_FIXED, base.n)
}

pub fn configuration_label(s: &[u8], b: usize) -> Label
    requires { b < 65536 }
    ensures { result ≡ configuration_label s.now b }
{
    let base = base_at(s, b);
    label_at(s, b + BASE_FIXED + base.n as usize, base.m)
}

// A list of count numbers, of two bytes each, at a place.
#[derive(Clone, Copy)]
pub struct Listed {
    pub at: usize,
    pub count: usize,
    pub ghost bounded: { (at < 131072) × (count ≤ 255) },
}

impl Listed {
    pub fn number(self, s: &[u8], k: usize) -> u16
        requires { k < self.count }
        ensures { result ≡ get_or (numbers_at 2 s.now self.at self.count) k 0 }
    {
        u16_at(s, self.at + 2 * k)
    }
}

// The functions that the base at a place lists.
pub fn functions_of(s: &[u8], b: usize) -> Listed
    requires { b < 65536 }
    ensures { numbers_at 2 s.now result.at result.count ≡ functions_of s.now b }
{
    let base = base_at(s, b);
    Listed {
        at: b + BASE_FIXED + base.n as usize + base.m as usize,
        count: base.o as usize,
    }
}

// The states that the function at a place lists.
pub fn states_of(s: &[u8], f: usize) -> Listed
    requires { f < 65536 }
    ensures { numbers_at 2 s.now result.at result.count ≡ states_of s.now f }
{
    Listed {
        at: f + FUNCTION_FIXED,
        count: state_count(s, f) as usize,
    }
}
