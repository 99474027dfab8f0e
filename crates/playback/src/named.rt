// The first check of a start that does not hold, with its slot and its step: for the screen.
ghost use Rattle.std.specs.Prelude.{◌≡◌, get_or, position};
ghost use Rattle.sequence.specs.Sequence.{blank_step};
ghost use Rattle.playback.specs.Pairs.{pairs};
ghost use Rattle.playback.specs.Verification.{rule_of, client_checks};
ghost use Rattle.playback.specs.Named.{fails, named_by, named_of};

pub use crate::checks::lowest_not_ready;
use crate::checks::{client_check, first_missing};
use crate::verify;
use client::{Client, SLOTS};
use octets::numbers::{Refusal, number_of};
use sequence::{MOST_STEPS, Sequence};

// As numbers, since any may be named.
const NOT_ENABLED: u8 = Refusal::NotEnabled as u8;

const NOT_IN_POOL: u8 = Refusal::NotInPool as u8;

const NOT_READY: u8 = Refusal::NotReady as u8;

// Of the numbers that a start gives, slot is that of 8, 9, 10, 11 and 12, step that of 11; else they are 0.
// The number stays one, since a host reads this struct.
#[repr(C)]
#[derive(Clone, Copy)]
pub struct Named {
    pub number: u8,
    pub slot: usize,
    pub step: usize,
}

// The lowest slot of which 8, 9 or 10 does not hold.
fn lowest_failing(slots: &[Client; SLOTS], sequence: &Sequence) -> Option<usize>
    ensures { result ≡ position (fails (client_checks (rule_of sequence.now.edition))) (pairs slots.now sequence.now.records) }
{
    let mut clients = slots.iter().zip(&sequence.records);
    clients.position(|(client, recorded)| client_check(sequence.edition, client, recorded).is_err())
}

// The slot of a step, 0 past the last.
fn slot_of(sequence: &Sequence, i: usize) -> usize
    ensures { result ≡ (get_or sequence.now.steps i blank_step).slot }
{
    match sequence.steps.get(i) {
        Some(step) => step.slot as usize,
        None => 0,
    }
}

// A number, with the slot and the step that it is about.
pub fn named_by(number: u8, slots: &[Client; SLOTS], sequence: &Sequence) -> Named
    ensures { result ≡ named_by number slots.now sequence.now }
{
    match number {
        NOT_IN_POOL => {
            let step = first_missing(slots, sequence.steps()).unwrap_or(MOST_STEPS);
            Named {
                number,
                slot: slot_of(sequence, step),
                step,
            }
        }
        NOT_READY => Named {
            number,
            slot: lowest_not_ready(slots, &sequence.records).unwrap_or(SLOTS),
            step: 0,
        },
        NOT_ENABLED..=255 => Named {
            number,
            slot: lowest_failing(slots, sequence).unwrap_or(SLOTS),
            step: 0,
        },
        _ => Named {
            number,
            slot: 0,
            step: 0,
        },
    }
}

// Done, or the first check that does not hold, with its slot and its step.
#[tactic(auto, unfolding(crate::specs::Named::named_of))]
pub fn first_named(slots: &[Client; SLOTS], sequence: &Sequence) -> Named
    ensures { result ≡ named_of slots.now sequence.now }
{
    named_by(number_of(verify(slots, sequence)), slots, sequence)
}
