// Stage one: the objects in their order, and the first fault of one of them.
ghost use Rattle.std.specs.Prelude.{◌≡◌, ◌&&◌, ◌+◌, ◌≤◌, ◌<◌, eqb, length, unwrap_or, IfSome, IfOk};
ghost use Rattle.pool.specs.Faults.{answer_code, said};
ghost use Rattle.pool.specs.Fields.{kind_at, base_type, function_type, state_type};
ghost use Rattle.pool.specs.StageOne.{code_at, name_at, stage_one};
ghost use Rattle.pool.specs.Search.Walk.{Walks, base_from};

use crate::fields::{
    base_at, function_at, function_in, kind_at, object_number, size_at, state_at, state_count,
};
use crate::ranges::{base_right, function_right, label_right, state_right};
use crate::verdicts::{Code, Fault};
use crate::{
    BASE_FIXED, BASE_TYPE, FUNCTION_FIXED, FUNCTION_TYPE, ObjectType, STATE_FIXED, STATE_TYPE,
};

// The code of the fault of the base, the function or the state at a place.
fn base_code(s: &[u8], at: usize) -> Result<(), Code>
    requires { (at < 65536) × (at + 3 ≤ length s.now) × (kind_at s.now at ≡ base_type) }
    ensures { answer_code result ≡ code_at s.now at }
{
    let left = s.len() - at;
    if left < BASE_FIXED {
        return Err(Code::Other);
    }
    let base = base_at(s, at);
    if !label_right(base.n) {
        return Err(Code::VersionLength);
    }
    if !label_right(base.m) {
        return Err(Code::ConfigurationLength);
    }
    if left < size_at(s, at) {
        return Err(Code::Other);
    }
    if base_right(&base) {
        Ok(())
    } else {
        Err(Code::Other)
    }
}

fn function_code(s: &[u8], at: usize) -> Result<(), Code>
    requires { (at < 65536) × (at + 3 ≤ length s.now) × (kind_at s.now at ≡ function_type) }
    ensures { answer_code result ≡ code_at s.now at }
{
    let left = s.len() - at;
    if left < FUNCTION_FIXED {
        return Err(Code::Other);
    }
    if left < size_at(s, at) {
        return Err(Code::Other);
    }
    if function_right(&function_at(s, at)) {
        Ok(())
    } else {
        Err(Code::Other)
    }
}

fn state_code(s: &[u8], at: usize) -> Result<(), Code>
    requires { (at < 65536) × (at + 3 ≤ length s.now) × (kind_at s.now at ≡ state_type) }
    ensures { answer_code result ≡ code_at s.now at }
{
    if s.len() - at < STATE_FIXED {
        return Err(Code::Other);
    }
    if state_right(&state_at(s, at)) {
        Ok(())
    } else {
        Err(Code::Other)
    }
}

// The code of the fault of the object at a place.
pub fn code_at(s: &[u8], at: usize) -> Result<(), Code>
    requires { (at < 65536) × (at ≤ length s.now) }
    ensures { answer_code result ≡ code_at s.now at }
{
    if s.len() - at < 3 {
        return Err(Code::Other);
    }
    match ObjectType::try_from(kind_at(s, at))? {
        ObjectType::Function => function_code(s, at),
        ObjectType::State => state_code(s, at),
        ObjectType::Base => base_code(s, at),
    }
}

// Whether a state without a fault stands at a place.
fn right_state(s: &[u8], at: usize) -> bool
    requires { (at < 65536) × (at ≤ length s.now) }
    ensures { result ≡ (eqb (code_at s.now at) 0x00 && eqb (kind_at s.now at) state_type) }
{
    if s.len() - at < STATE_FIXED {
        return false;
    }
    if kind_at(s, at) != STATE_TYPE {
        return false;
    }
    state_right(&state_at(s, at))
}

fn name_at(s: &[u8], at: usize) -> u16
    requires { (at < 65536) × (at ≤ length s.now) }
    ensures { result ≡ name_at s.now at }
{
    if s.len() - at < 3 {
        return 0xFFFF;
    }
    object_number(s, at)
}

// Whether a function without a fault stands at a place.
fn right_function(s: &[u8], at: usize) -> bool
    requires { (at < 65536) × (at ≤ length s.now) }
    ensures { result ≡ (eqb (code_at s.now at) 0x00 && eqb (kind_at s.now at) function_type) }
{
    if kind_at(s, at) != FUNCTION_TYPE {
        return false;
    }
    let left = s.len() - at;
    if left < FUNCTION_FIXED {
        return false;
    }
    if left < FUNCTION_FIXED + 2 * (state_count(s, at) as usize) {
        return false;
    }
    function_right(&function_in(s, at))
}

// Where the first base stands, this object taken in: at it, if it is one and none was met before.
fn base_from(s: &[u8], at: usize, base: Option<usize>) -> Option<usize>
    requires at_in { (at < 65536) × (at < length s.now) }
    requires base_in { IfSome base (λ b. b < length s.now) }
    ensures place { unwrap_or result (length s.now) ≡ base_from s.now at (unwrap_or base (length s.now)) }
    ensures within { IfSome result (λ b. b < length s.now) }
{
    if base.is_some() {
        return base;
    }
    let number = object_number(s, at);
    let kind = kind_at(s, at);
    if (number == 0) & (kind == BASE_TYPE) {
        Some(at)
    } else {
        None
    }
}

// How many objects there are, and where the first base stands.
#[derive(Clone, Copy)]
pub struct Met {
    pub count: usize,
    pub base: Option<usize>,
}

// An object has 8 bytes at least, so a pool holds at most 2,048. Most are states, then functions, so it is asked first whether one of these stands there
// without a fault; a base, and the object at fault, come to `code_at`. A turn goes on by the length of what it has judged, so no `for` is plainer.
pub fn stage_one(s: &[u8], places: &mut [u16]) -> Result<Met, Fault>
    requires { (length s.now ≤ 16384) × (length places.old ≡ 2048) }
    ensures verdict_value { said result ≡ stage_one s.now }
    ensures walks { IfOk result (λ met. Walks s.now places.new met.count (unwrap_or met.base (length s.now))) }
    ensures within { IfOk result (λ met. IfSome met.base (λ b. b < length s.now)) }
{
    let mut count: usize = 0;
    let mut base = None;
    let mut at: usize = 0;
    while at < s.len() {
        if right_state(s, at) {
            places[count] = at as u16;
            count += 1;
            at += STATE_FIXED;
            continue;
        }
        if right_function(s, at) {
            let size = FUNCTION_FIXED + 2 * (state_count(s, at) as usize);
            places[count] = at as u16;
            count += 1;
            at += size;
            continue;
        }
        if let Err(code) = code_at(s, at) {
            let object = name_at(s, at);
            return Err(Fault { code, object });
        }
        let size = size_at(s, at);
        base = base_from(s, at, base);
        places[count] = at as u16;
        count += 1;
        at += size;
    }
    Ok(Met { count, base })
}
