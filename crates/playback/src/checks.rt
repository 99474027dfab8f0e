// The checks of a start: each is done where it holds, and else gives its number.
ghost use Rattle.std.specs.Prelude.{◌≡◌, not, position};
ghost use mathlib.Core.List.{flat_map};
ghost use Rattle.octets.specs.Refusals.{answer_number};
ghost use Rattle.playback.specs.Pairs.{pairs};
ghost use Rattle.playback.specs.Verification.{first_failing, agree_under, masters_agree, names_agree, rule_of, same_label, labels_agree, is_listed, is_in_pool, client_checks, ready_checks};
ghost use Rattle.playback.specs.Named.{fails};

use client::{Client, ClientRecord, Report, SLOTS};
use octets::has_bit;
use octets::label::Label;
use octets::numbers::Refusal;
use profile::Profile;
use sequence::{SECOND_EDITION, Sequence, Step};

// The identity number of a NAME: its lowest 21 bits.
const IDENTITY_BITS: u64 = 0x1FFFFF;

// Two NAMEs agree on every bit that is set in the mask.
fn agree_under(mask: u64, a: u64, b: u64) -> bool
    ensures { result ≡ agree_under mask a b }
{
    (a & mask) == (b & mask)
}

// The master NAMEs agree under the mask where each is its client's own NAME, and else in all 64 bits.
#[tactic(auto, unfolding(octets::specs::Pick::pick))]
fn masters_agree(owned: bool, mask: u64, loaded: u64, recorded: u64) -> bool
    ensures { result ≡ masters_agree owned mask loaded recorded }
{
    if owned {
        return agree_under(mask, loaded, recorded);
    }
    loaded == recorded
}

fn names_agree(client: &Client, recorded: &ClientRecord) -> bool
    ensures { result ≡ names_agree client.now recorded.now }
{
    let profile = &client.profile;
    let owned = (recorded.master == recorded.name) & (profile.master == client.name);
    agree_under(profile.mask, client.name, recorded.name)
        & masters_agree(owned, profile.mask, profile.master, recorded.master)
}

// By the rule of an edition: in edition 2 the identity numbers agree too, no matter what the mask says.
#[tactic(auto, unfolding(crate::specs::Verification::rule_of))]
fn agree_by(edition: u32, client: &Client, recorded: &ClientRecord) -> bool
    ensures { result ≡ rule_of edition client.now recorded.now }
{
    ((edition != SECOND_EDITION) | agree_under(IDENTITY_BITS, client.name, recorded.name))
        & names_agree(client, recorded)
}

#[tactic(auto, unfolding(crate::specs::Verification::same_label))]
fn same_label(a: &Label, b: &Label) -> bool
    ensures { result ≡ same_label a.now b.now }
{
    *a == *b
}

#[tactic(auto, unfolding(crate::specs::Verification::labels_agree))]
fn labels_agree(client: &Client, recorded: &ClientRecord) -> bool
    ensures { result ≡ labels_agree client.now recorded.now }
{
    let profile = &client.profile;
    same_label(&profile.version, &recorded.version)
        & same_label(&profile.configuration, &recorded.configuration)
}

// 8, 9, 10; done also where the slot is not one of the sequence.
#[tactic(auto, unfolding(crate::specs::Verification::first_failing, crate::specs::Verification::of_sequence, crate::specs::Verification::client_checks, octets::specs::Pick::pick))]
pub fn client_check(edition: u32, client: &Client, recorded: &ClientRecord) -> Result<(), Refusal>
    ensures { answer_number result ≡ first_failing (client_checks (rule_of edition) (client.now, recorded.now)) }
{
    if recorded.used == 0 {
        return Ok(());
    }
    if !client.is_enabled() {
        return Err(Refusal::NotEnabled);
    }
    if !agree_by(edition, client, recorded) {
        return Err(Refusal::NameDiffers);
    }
    if !labels_agree(client, recorded) {
        return Err(Refusal::LabelDiffers);
    }
    Ok(())
}

// 8, 9 and 10 by slot, the lowest first.
pub fn client_checks(slots: &[Client; SLOTS], sequence: &Sequence) -> Result<(), Refusal>
    ensures { answer_number result ≡ first_failing (flat_map (client_checks (rule_of sequence.now.edition)) (pairs slots.now sequence.now.records)) }
{
    for (client, recorded) in slots.iter().zip(&sequence.records) {
        client_check(sequence.edition, client, recorded)?;
    }
    Ok(())
}

// The pool lists the function, with this state: by the function's trigger and its states in the tables of the pool.
#[tactic(auto, unfolding(crate::specs::Verification::is_listed, profile::specs::Profile::trigger, profile::specs::Profile::has_state))]
fn is_listed(pool: &Profile, function: u8, state: u8) -> bool
    ensures { result ≡ is_listed pool.now function state }
{
    let at = function as usize;
    (state < 64) && (pool.trigger[at] != 0) && has_bit(pool.states[at], state as u64)
}

// In the pool that is loaded in the step's slot; above slot 7 there is none.
#[tactic(auto, unfolding(crate::specs::Verification::is_in_pool))]
fn is_in_pool(slots: &[Client; SLOTS], step: &Step) -> bool
    ensures { result ≡ is_in_pool slots.now step.now }
{
    slots.get(step.slot as usize).is_some_and(|client| is_listed(
        &client.profile,
        step.function,
        step.state,
    ))
}

// The first step of which 11 does not hold.
pub fn first_missing(slots: &[Client; SLOTS], steps: &[Step]) -> Option<usize>
    ensures { result ≡ position (λ s. not (is_in_pool slots.now s)) steps.now }
{
    steps.iter().position(|step| !is_in_pool(slots, step))
}

#[tactic(auto, unfolding(crate::specs::Verification::first_failing, crate::specs::Verification::of_sequence, crate::specs::Verification::ready_checks, octets::specs::Pick::pick))]
fn is_not_ready(client: &Client, recorded: &ClientRecord) -> bool
    ensures { result ≡ fails ready_checks (client.now, recorded.now) }
{
    (recorded.used != 0) & (client.report != Report::Ready as u8)
}

// The lowest slot of which 12 does not hold.
pub fn lowest_not_ready(slots: &[Client; SLOTS], records: &[ClientRecord; SLOTS]) -> Option<usize>
    ensures { result ≡ position (fails ready_checks) (pairs slots.now records.now) }
{
    let mut clients = slots.iter().zip(records);
    clients.position(|(client, recorded)| is_not_ready(client, recorded))
}
