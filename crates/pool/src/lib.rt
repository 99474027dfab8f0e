// The object pool of a client (ISO 11783-14, annex A): its objects, and the check that takes or refuses it with a code of D.9.
#![tactic(auto)]

pub mod fields;
pub mod ranges;
pub mod seen;
pub mod stage_one;
pub mod stage_two;
pub mod verdicts;

ghost use Rattle.std.specs.Prelude.{◌≡◌, ◌≤◌, length, take, IfOk};
ghost use Rattle.pool.specs.Faults.{said};
ghost use Rattle.pool.specs.Types.{type_number, IsType};
ghost use Rattle.pool.specs.Verdicts.{first, first_of};
ghost use Rattle.pool.specs.StageOne.{stage_one};
ghost use Rattle.pool.specs.Search.Walk.{Walks, rules};
ghost use Rattle.pool.specs.Pool.{verdict_of};
ghost use Rattle.pool.specs.Cases.{Cases};
ghost use Rattle.pool.specs.Codes.{Codes};
ghost use Rattle.pool.specs.Edges.{Edges};

use crate::stage_two::Index;
use crate::verdicts::{Code, Fault, TOO_LONG, said};

// A code of D.9, 0 for success, and the number of the object it is about.
#[repr(C)]
#[derive(Clone, Copy)]
pub struct Verdict {
    pub code: u8,
    pub object: u16,
}

// "Success is 00, object FFFF."
pub const FINE: Verdict = Verdict {
    code: 0x00,
    object: 0xFFFF,
};

// The types of objects: byte 3 of tables A.1 to A.3.
#[derive(Clone, Copy, Debug, PartialEq, Eq)]
pub enum ObjectType {
    Base = 0,
    Function = 1,
    State = 2,
}

impl ObjectType {
    pub fn number(self) -> u8
        ensures { result ≡ type_number self }
    {
        self as u8
    }
}

impl TryFrom<u8> for ObjectType {
    type Error = Code;

    ghost try_from_gives = { IsType };

    fn try_from(number: u8) -> Result<ObjectType, Code> {
        match number {
            0 => Ok(ObjectType::Base),
            1 => Ok(ObjectType::Function),
            2 => Ok(ObjectType::State),
            _ => Err(Code::UnknownType),
        }
    }
}

// As the byte that a pool has: a byte that is none of the three is compared too.
pub const BASE_TYPE: u8 = ObjectType::Base as u8;

pub const FUNCTION_TYPE: u8 = ObjectType::Function as u8;

pub const STATE_TYPE: u8 = ObjectType::State as u8;

// How many bytes the fixed part of each has.
pub const BASE_FIXED: usize = 27;

pub const FUNCTION_FIXED: usize = 30;

pub const STATE_FIXED: usize = 8;

// The fixed part of a base: table A.1, bytes 1 to 27. n and m are the labels' lengths, o the number of functions listed.
#[derive(Clone, Copy)]
pub struct BaseHead {
    pub number: u16,
    pub version: u8,
    pub master: u64,
    pub mask: u64,
    pub name: u16,
    pub picture: u16,
    pub n: u8,
    pub m: u8,
    pub o: u8,
}

// The fixed part of a function: table A.2, bytes 1 to 30. The offset and the scale are their bits; s is the number of states listed.
#[derive(Clone, Copy)]
pub struct FunctionHead {
    pub number: u16,
    pub function: u8,
    pub trigger: u8,
    pub attribute: u8,
    pub minimum: u32,
    pub maximum: u32,
    pub offset: u32,
    pub scale: u32,
    pub decimals: u8,
    pub unit: u16,
    pub name: u16,
    pub picture: u16,
    pub s: u8,
}

// A state: table A.3.
#[derive(Clone, Copy)]
pub struct StateHead {
    pub number: u16,
    pub state: u8,
    pub name: u16,
    pub picture: u16,
}

#[derive(Clone, Copy)]
pub enum Head {
    Base(BaseHead),
    Function(FunctionHead),
    State(StateHead),
}

// How many objects there are, and where the base stands.
#[derive(Clone, Copy)]
pub struct Walked {
    pub count: usize,
    pub base: usize,
}

// The walk of stage one and, where it finds no fault, the rules that need no list.
pub fn before_lists(pool: &[u8], places: &mut [u16]) -> Result<Walked, Fault>
    requires { (length pool.now ≤ 16384) × (length places.old ≡ 2048) }
    ensures verdict_value { said result ≡ first (stage_one pool.now) (first_of (take 4 (rules pool.now))) }
    ensures walks { IfOk result (λ walked. Walks pool.now places.new walked.count walked.base) }
{
    let met = stage_one::stage_one(pool, places)?;
    let base = stage_two::objects_fault(pool, &places[..met.count], met.base)?;
    Ok(Walked {
        count: met.count,
        base,
    })
}

// The first fault of any bytes at all.
fn first_fault(pool: &[u8]) -> Result<(), Fault>
    ensures { said result ≡ verdict_of pool.now }
{
    if 16384 < pool.len() {
        return Err(TOO_LONG);
    }
    let mut places = [0u16; 2048];
    let walked = before_lists(pool, &mut places)?;
    let mut chain = [0xFFFFu16; 18432];
    let index = Index::new(pool, &places[..walked.count], &mut chain);
    let mut sets = [0u64; 255];
    index.lists_fault(walked.base, &mut sets)
}

// The verdict on any bytes at all.
pub fn check(pool: &[u8]) -> Verdict
    ensures { result ≡ verdict_of pool.now }
{
    said(first_fault(pool))
}

// The worked cases of document 01 that concern pools hold of the definition: nothing is done, the contract says so.
pub fn cases()
    ensures { Cases }
{}

// Which codes the check gives, and that each is given: nothing is done, the contract says so.
pub fn codes()
    ensures { Codes }
{}

// The ranges at their edges, in codes that pools get: nothing is done, the contract says so.
pub fn edges()
    ensures { Edges }
{}
