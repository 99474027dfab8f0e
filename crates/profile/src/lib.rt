// What the master keeps of an accepted pool: the bytes stay with the host.
#![tactic(auto)]

ghost use Rattle.std.specs.Prelude.{◌≡◌, ◌<◌};
ghost use Rattle.octets.specs.Bits.{bits_of};
ghost use Rattle.pool.specs.Fields.{numbers_at, functions_of};
ghost use Rattle.pool.specs.Pool.{verdict_of};
ghost use Rattle.std.specs.Result.{result_unwrap_or};
ghost use Rattle.pool.specs.Faults.{said};
ghost use Rattle.pool.specs.Search.Look.{Sets};
ghost use Rattle.profile.specs.Profile.{table_of, trigger_in, states_in, kept_at, blank_profile, profile_of, trigger, has_state};
ghost use Rattle.profile.specs.Promises.{SaysOf, KeptOf};

use octets::has_bit;
use octets::label::{Label, blank};
use pool::fields::{
    Listed, base_at, configuration_label, functions_of, id_at, trigger_at, version_label,
};
use pool::stage_two::Index;
use pool::verdicts::{Fault, TOO_LONG};
use pool::{ObjectType, before_lists};

// trigger[f] is the preferred trigger of function f, 0 where the pool lists none; bit s of states[f] says that f has state s.
#[repr(C)]
#[derive(Clone, Copy)]
pub struct Profile {
    pub master: u64,
    pub mask: u64,
    pub version: Label,
    pub configuration: Label,
    pub trigger: [u8; 256],
    pub states: [u64; 256],
}

impl Profile {
    // The preferred trigger of a function, 0 where the pool lists none.
    pub fn trigger_of(&self, function: u8) -> u8
        ensures { result ≡ trigger self.now function }
    {
        let at = function as usize;
        self.trigger[at]
    }

    // Whether the pool lists the function with this state.
    pub fn has_state(&self, function: u8, state: u8) -> bool
        requires { state < 64 }
        ensures { result ≡ has_state self.now function state }
    {
        let at = function as usize;
        has_bit(self.states[at], state as u64)
    }
}

#[derive(Clone, Copy)]
struct Tables {
    trigger: [u8; 256],
    states: [u64; 256],
}

// The trigger and the states of each function ID, from a list of functions and the set of the states of each; taken from the last to the first, so that
// the first of an ID stays.
fn tables_of(index: &Index, list: Listed, sets: &[u64; 255]) -> Tables
    requires { Sets index.now.pool.now index.now.places.now (numbers_at 2 index.now.pool.now list.at list.count) sets.now 0 }
    ensures trigger_value { result.trigger ≡ table_of (trigger_in index.now.pool.now index.now.places.now (numbers_at 2 index.now.pool.now list.at list.count)) }
    ensures states_value { result.states ≡ table_of (λ id. bits_of (states_in index.now.pool.now index.now.places.now (numbers_at 2 index.now.pool.now list.at list.count) id)) }
{
    let mut trigger = [0u8; 256];
    let mut states = [0u64; 256];
    for k in (0..list.count).rev() {
        let p = index.place_of(ObjectType::Function, list.number(index.pool, k));
        let id = id_at(index.pool, p) as usize;
        trigger[id] = trigger_at(index.pool, p);
        states[id] = sets[k];
    }
    Tables { trigger, states }
}

// What is kept of a pool with its base at b and the set of the states of each function that this lists.
fn kept_at(index: &Index, b: usize, sets: &[u64; 255]) -> Profile
    requires { (b < 65536) × Sets index.now.pool.now index.now.places.now (functions_of index.now.pool.now b) sets.now 0 }
    ensures { result ≡ kept_at index.now.pool.now index.now.places.now b }
{
    let base = base_at(index.pool, b);
    let tables = tables_of(index, functions_of(index.pool, b), sets);
    let trigger = tables.trigger;
    let states = tables.states;
    let version = version_label(index.pool, b);
    let configuration = configuration_label(index.pool, b);
    Profile {
        master: base.master,
        mask: base.mask,
        version,
        configuration,
        trigger,
        states,
    }
}

// What is kept where there is no pool.
pub fn blank_profile() -> Profile
    ensures { result ≡ blank_profile }
{
    let version = blank();
    let configuration = blank();
    Profile {
        master: 0,
        mask: 0,
        version,
        configuration,
        trigger: [0u8; 256],
        states: [0u64; 256],
    }
}

// The first fault of any bytes at all, or what is kept of them, with the chains that the check has built.
pub fn judge(pool: &[u8]) -> Result<Profile, Fault>
    ensures verdict_value { said result ≡ verdict_of pool.now }
    ensures profile_value { result_unwrap_or result blank_profile ≡ profile_of pool.now }
{
    if 16384 < pool.len() {
        return Err(TOO_LONG);
    }
    let mut places = [0u16; 2048];
    let walked = before_lists(pool, &mut places)?;
    let mut chain = [0xFFFFu16; 18432];
    let index = Index::new(pool, &places[..walked.count], &mut chain);
    let mut sets = [0u64; 255];
    index.lists_fault(walked.base, &mut sets)?;
    Ok(kept_at(&index, walked.base, &sets))
}

// What is kept of any bytes at all: of a pool that the check refuses, nothing.
pub fn profile_of(pool: &[u8]) -> Profile
    ensures { result ≡ profile_of pool.now }
{
    match judge(pool) {
        Ok(profile) => profile,
        Err(_fault) => blank_profile(),
    }
}

// What is kept of every accepted pool says what its lists say, and what is kept of one: nothing is done, the contract says so.
pub fn says()
    ensures says_of { SaysOf }
    ensures kept_of { KeptOf }
{}
