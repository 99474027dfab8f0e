// Stage two: the rules over the whole pool, in their order.
ghost use Rattle.std.specs.Prelude.{◌≡◌, map, [], ◌+◌, ◌-◌, ◌≤◌, ◌<◌, length, take, drop, replicate, unwrap_or, IfSome, IfOk, OnOk};
ghost use Rattle.std.specs.List.{list_all};
ghost use Rattle.octets.specs.Bits.{bits_of};
ghost use Rattle.pool.specs.Faults.{code_number, said};
ghost use Rattle.pool.specs.Types.{type_number};
ghost use Rattle.pool.specs.Verdicts.{first_of, first_fault};
ghost use Rattle.pool.specs.Verdicts as Verdicts;
ghost use Rattle.pool.specs.Fields.{object_number, state_type, numbers_at, functions_of, version_label};
ghost use Rattle.pool.specs.Search.Index.{Within, Indexed};
ghost use Rattle.pool.specs.Search.Look.{Right, set_of, Sets};
ghost use Rattle.pool.specs.StageTwo.{object_of, id_of, first_repeat, label_bytes, is_forbidden, character_right, repeat_fault, character_fault, absent_fault, ids_fault, states_absent, states_alike, rules_of};

use crate::fields::{Listed, base_at, functions_of, id_at, states_of, version_label};
use crate::seen::Seen;
use crate::verdicts::{Code, Fault};
use crate::{ObjectType, STATE_TYPE};
use octets::{has_bit, u16_in, with_bit};

// How many chains there are.
const CHAINS: u16 = 16384;

// A pool, the places of its objects, and the chains of the objects whose numbers agree modulo 16,384: which object is the first of each chain, and
// after 16,384 cells which is the next after each; 65,535 ends a chain.
#[derive(Clone, Copy)]
pub struct Index<'a> {
    pub pool: &'a [u8],
    pub places: &'a [u16],
    pub chain: &'a [u16],
    pub ghost indexed: { Indexed pool.now places.now chain.now },
}

// The chains, built from the last object to the first.
pub fn chain_of(s: &[u8], ps: &[u16], chain: &mut [u16])
    requires { (length s.now ≤ 16384) × (length ps.now ≤ 2048) × Within s.now ps.now × (chain.old ≡ replicate 18432 65535) }
    ensures { Indexed s.now ps.now chain.new }
{
    for k in (0..ps.len()).rev() {
        let p = ps[k] as usize;
        let b = (u16_in(s, p) % CHAINS) as usize;
        let next = chain[b];
        chain[16384 + k] = next;
        chain[b] = k as u16;
    }
}

impl<'a> Index<'a> {
    pub fn new(pool: &'a [u8], places: &'a [u16], chain: &'a mut [u16]) -> Index<'a>
        requires { (length pool.now ≤ 16384) × (length places.now ≤ 2048) × Within pool.now places.now × (chain.old ≡ replicate 18432 65535) }
        ensures { (result.pool.now ≡ pool.now) × (result.places.now ≡ places.now) }
    {
        chain_of(pool, places, chain);
        Index {
            pool,
            places,
            chain,
        }
    }

    // The place of the object of this number and type, which is a byte as it stands in a pool.
    pub fn find_object(&self, kind: u8, n: u16) -> Option<usize>
        ensures place { unwrap_or result (length self.now.pool.now) ≡ object_of self.now.pool.now self.now.places.now kind n }
        ensures within { IfSome result (λ p. p + 8 ≤ length self.now.pool.now) }
    {
        let b = (n % CHAINS) as usize;
        let mut i = self.chain[b] as usize;
        // Where the chain goes on stands in its cells: nothing is counted, and no `for` is plainer.
        while i < self.places.len() {
            let p = self.places[i] as usize;
            let number = u16_in(self.pool, p);
            let found = self.pool[p + 2];
            if (number == n) & (found == kind) {
                return Some(p);
            }
            i = self.chain[16384 + i] as usize;
        }
        None
    }

    // The same of one of the three types; past the pool's end, where every byte reads as 0, where there is none.
    pub fn place_of(&self, kind: ObjectType, n: u16) -> usize
        ensures place { result ≡ object_of self.now.pool.now self.now.places.now (type_number kind) n }
        ensures within { result ≤ 16384 }
    {
        self.find_object(kind.number(), n)
            .unwrap_or(self.pool.len())
    }

    // The ID of each object of this type in a list of numbers, at the front; the other cells are 0.
    fn ids_of(&self, kind: ObjectType, list: Listed) -> [u16; 255]
        ensures { (take list.count result ≡ map (id_of self.now.pool.now self.now.places.now (type_number kind)) (numbers_at 2 self.now.pool.now list.at list.count)) × (drop list.count result ≡ replicate (255 - list.count) 0) }
    {
        let mut ids = [0u16; 255];
        for k in 0..list.count {
            let p = self.place_of(kind, list.number(self.pool, k));
            ids[k] = id_at(self.pool, p) as u16;
        }
        ids
    }

    // The first number of a list of which no object of this type is there.
    fn absent_fault(&self, code: Code, kind: ObjectType, list: Listed) -> Result<(), Fault>
        ensures { said result ≡ first_fault (absent_fault self.now.pool.now self.now.places.now (code_number code) (type_number kind)) (numbers_at 2 self.now.pool.now list.at list.count) }
    {
        for k in 0..list.count {
            let object = list.number(self.pool, k);
            if self.find_object(kind.number(), object).is_none() {
                return Err(Fault { code, object });
            }
        }
        Ok(())
    }

    // The first number of a list whose object has an ID that stood before.
    fn ids_fault(&self, code: Code, kind: ObjectType, list: Listed) -> Result<(), Fault>
        ensures { said result ≡ ids_fault self.now.pool.now self.now.places.now (code_number code) (type_number kind) (numbers_at 2 self.now.pool.now list.at list.count) }
    {
        let ids = self.ids_of(kind, list);
        match first_repeat(&ids[..list.count]) {
            Some(k) => Err(Fault {
                code,
                object: list.number(self.pool, k),
            }),
            None => Ok(()),
        }
    }

    // The set of the IDs of a list of states.
    fn set_at(&self, list: Listed) -> u64
        ensures { result ≡ set_of self.now.pool.now self.now.places.now (numbers_at 2 self.now.pool.now list.at list.count) }
    {
        let ids = self.ids_of(ObjectType::State, list);
        bits_of(&ids[..list.count])
    }

    // The set of the IDs of a list of states that is right: no state is absent and no ID stands twice. Most lists are right, and one look is enough.
    // The list is taken from the last to the first.
    fn look(&self, list: Listed) -> Option<u64>
        ensures { IfSome result (Right self.now.pool.now self.now.places.now (numbers_at 2 self.now.pool.now list.at list.count)) }
    {
        let mut ids: u64 = 0;
        for k in (0..list.count).rev() {
            let p = self.find_object(STATE_TYPE, list.number(self.pool, k))?;
            let id = self.pool[p + 3];
            if 63 < id {
                return None;
            }
            if has_bit(ids, id as u64) {
                return None;
            }
            ids = with_bit(ids, id as u64);
        }
        Some(ids)
    }

    fn list_at(&self, list: Listed) -> Found
        ensures absent_value { said result.absent ≡ first_fault (absent_fault self.now.pool.now self.now.places.now 0x04 state_type) (numbers_at 2 self.now.pool.now list.at list.count) }
        ensures alike_value { said result.alike ≡ ids_fault self.now.pool.now self.now.places.now 0x07 state_type (numbers_at 2 self.now.pool.now list.at list.count) }
        ensures ids_value { result.ids ≡ set_of self.now.pool.now self.now.places.now (numbers_at 2 self.now.pool.now list.at list.count) }
    {
        if let Some(ids) = self.look(list) {
            return Found {
                absent: Ok(()),
                alike: Ok(()),
                ids,
            };
        }
        let absent = self.absent_fault(Code::NoState, ObjectType::State, list);
        let alike = self.ids_fault(Code::StateTwice, ObjectType::State, list);
        let ids = self.set_at(list);
        Found { absent, alike, ids }
    }

    // "a listed state absent, 04, likewise; two states of one function with one state ID, 07": every 04 comes before any 07. The functions are taken
    // from the last to the first, so that the fault of the first stays. The set of the states of each function listed is
    // stored in a lent array: a result that held them would be copied, which took 4 KB more of stack.
    fn states_fault(&self, list: Listed, sets: &mut [u64; 255]) -> Result<(), Fault>
        ensures verdict_value { said result ≡ Verdicts.first (first_fault (states_absent self.now.pool.now self.now.places.now 0x04) (numbers_at 2 self.now.pool.now list.at list.count)) (first_fault (states_alike self.now.pool.now self.now.places.now 0x07) (numbers_at 2 self.now.pool.now list.at list.count)) }
        ensures sets { Sets self.now.pool.now self.now.places.now (numbers_at 2 self.now.pool.now list.at list.count) sets.new 0 }
    {
        let mut absent = Ok(());
        let mut alike = Ok(());
        for k in (0..list.count).rev() {
            let p = self.place_of(ObjectType::Function, list.number(self.pool, k));
            let found = self.list_at(states_of(self.pool, p));
            absent = found.absent.and(absent);
            alike = found.alike.and(alike);
            sets[k] = found.ids;
        }
        absent.and(alike)
    }

    // "a listed function absent, 03, naming the listed number; two listed functions with one function ID, 06"; then 04 and 07.
    pub fn lists_fault(&self, b: usize, sets: &mut [u64; 255]) -> Result<(), Fault>
        requires { b < 65536 }
        ensures verdict_value { said result ≡ first_of (drop 4 (rules_of self.now.pool.now self.now.places.now b)) }
        ensures sets { OnOk result (Sets self.now.pool.now self.now.places.now (functions_of self.now.pool.now b) sets.new 0) }
    {
        let list = functions_of(self.pool, b);
        self.absent_fault(Code::NoFunction, ObjectType::Function, list)?;
        self.ids_fault(Code::FunctionTwice, ObjectType::Function, list)?;
        self.states_fault(list, sets)
    }
}

// What is found in the list of a function's states: the first that is absent, the first with the ID of one before it, and the set of the IDs.
#[derive(Clone, Copy)]
struct Found {
    absent: Result<(), Fault>,
    alike: Result<(), Fault>,
    ids: u64,
}

// Where the first key stands that stood before.
fn first_repeat(keys: &[u16]) -> Option<usize>
    requires { length keys.now ≤ 2048 }
    ensures place { unwrap_or result (length keys.now) ≡ first_repeat [] keys.now }
    ensures within { IfSome result (λ k. k < length keys.now) }
{
    let mut seen = Seen::new();
    for (k, key) in keys.iter().enumerate() {
        if !seen.insert(*key) {
            return Some(k);
        }
    }
    None
}

// A set of IDs. One above 63 is no state's.
fn bits_of(ids: &[u16]) -> u64
    ensures { result ≡ bits_of ids.now }
{
    let mut bits: u64 = 0;
    for k in (0..ids.len()).rev() {
        let id = ids[k];
        if id < 64 {
            bits = with_bit(bits, id as u64);
        }
    }
    bits
}

// "object number seen before, 05"
fn numbers_fault(s: &[u8], ps: &[u16]) -> Result<(), Fault>
    requires { Within s.now ps.now }
    ensures { said result ≡ repeat_fault 0x05 (map (object_number s.now) ps.now) (map (object_number s.now) ps.now) }
{
    let mut seen = Seen::new();
    for p in ps {
        let object = u16_in(s, *p as usize);
        if !seen.insert(object) {
            return Err(Fault {
                code: Code::NumberTwice,
                object,
            });
        }
    }
    Ok(())
}

// The eleven characters that A.3 forbids, in its order.
const FORBIDDEN: [u8; 11] = [
    0x5C, // \ backslash
    0x22, // " quotation mark
    0x27, // ' apostrophe
    0x60, // ` grave accent
    0x2F, // / slash
    0x3A, // : colon
    0x2A, // * asterisk
    0x3C, // < less-than sign
    0x3E, // > greater-than sign
    0x7C, // | vertical line
    0x3F, // ? question mark
];

fn is_forbidden(c: u8) -> bool
    ensures { result ≡ is_forbidden c }
{
    FORBIDDEN.contains(&c)
}

pub fn character_right(c: u8) -> bool
    ensures { result ≡ character_right c }
{
    (((0x20 <= c) & (c <= 0x7E)) | (0xA0 <= c)) & !is_forbidden(c)
}

fn characters_right(bytes: &[u8]) -> bool
    ensures { result ≡ list_all character_right bytes.now }
{
    bytes.iter().all(|c| character_right(*c))
}

// "a version label byte outside 20–7E and A0–FF or one of the eleven characters that A.3 forbids, 0A"
fn label_fault(s: &[u8], b: usize) -> Result<(), Fault>
    requires { b < 65536 }
    ensures { said result ≡ first_fault (character_fault 0x0A) (label_bytes (version_label s.now b)) }
{
    let label = version_label(s, b);
    if !characters_right(&label.bytes[..label.length as usize]) {
        return Err(Fault {
            code: Code::VersionBytes,
            object: 0x0000,
        });
    }
    Ok(())
}

const NO_BASE: Fault = Fault {
    code: Code::NoBase,
    object: 0x0000,
};

// The rules that need no list, in their order: 02, 05, 0C, 0A. Where they find no fault, the place of the base.
pub fn objects_fault(s: &[u8], ps: &[u16], base: Option<usize>) -> Result<usize, Fault>
    requires places_in { Within s.now ps.now }
    requires base_in { IfSome base (λ b. b < 65536) }
    ensures verdict_value { said result ≡ first_of (take 4 (rules_of s.now ps.now (unwrap_or base (length s.now)))) }
    ensures base_value { IfOk result (λ b. base ≡ Some b) }
{
    let Some(b) = base else {
        return Err(NO_BASE);
    };
    if s.len() <= b {
        return Err(NO_BASE);
    }
    numbers_fault(s, ps)?;
    if base_at(s, b).version != 2 {
        return Err(Fault {
            code: Code::WrongVersion,
            object: 0x0000,
        });
    }
    label_fault(s, b)?;
    Ok(b)
}
