// What a terminal reads of the master for its screen and for the status message. A reader is handed the part of the master that it reads; one that
// reads the slots, the whole.
ghost use Rattle.std.specs.Prelude.{◌≡◌, leb, length, get_or};
ghost use Rattle.octets.specs.Pick.{pick};
ghost use Rattle.octets.specs.Numbers.{completed, wrong_slot};
ghost use Rattle.sequence.specs.Editions.{edition_of};
ghost use Rattle.recording.specs.State.{blank_taken};
ghost use Rattle.playback.specs.State.{blank_sent};
ghost use Rattle.master.specs.Readers.{state_of, slot_view, step_view, client_view, verify_view, progress_of, taken_view, sent_view};

use crate::{Master, State};
use arrays::at_most;
use client::{ClientRecord, blank_record};
use octets::numbers::{DONE, Refusal};
use playback::named::Named;
use playback::{Playback, Sent, first_named};
use recording::{Recording, Taken};
use sequence::{MOST_STEPS, Sequence, Step, blank_step};

// number is 0, or 3 where there is no such slot, and all else is 0 then.
#[repr(C)]
#[derive(Clone, Copy)]
pub struct SlotView {
    pub number: u8,
    pub taken: u8,
    pub wanted: u8,
    pub report: u8,
    pub name: u64,
}

// number is 0, or 3 past the last step, and all else is 0 then.
#[repr(C)]
#[derive(Clone, Copy)]
pub struct StepView {
    pub number: u8,
    pub step: Step,
}

// number is 0, or 3 where there is no such slot, and all else is 0 then.
#[repr(C)]
#[derive(Clone, Copy)]
pub struct ClientView {
    pub number: u8,
    pub client: ClientRecord,
}

// The ticks and millimetres of a recording or a playback so far, and how many steps are taken or have left.
#[repr(C)]
#[derive(Clone, Copy)]
pub struct Progress {
    pub ticks: u32,
    pub distance: u32,
    pub count: usize,
}

// number is 0, or 3 past the last step that is taken, and all else is 0 then.
#[repr(C)]
#[derive(Clone, Copy)]
pub struct TakenView {
    pub number: u8,
    pub taken: Taken,
}

// number is 0, or 3 past the last command that has left, and all else is 0 then.
#[repr(C)]
#[derive(Clone, Copy)]
pub struct SentView {
    pub number: u8,
    pub sent: Sent,
}

// The state, by its number.
#[tactic(auto, unfolding(crate::specs::Readers::state_of))]
pub fn state_of(state: u8) -> u8
    ensures { result ≡ state_of state }
{
    state.min(State::Abort as u8)
}

// The edition of the sequence, 0 where there is none.
#[tactic(auto, unfolding(sequence::specs::Editions::edition_of, octets::specs::Pick::pick))]
pub fn edition_of(sequence: &Sequence) -> u32
    ensures { result ≡ edition_of sequence.now }
{
    if sequence.len() == 0 {
        return 0;
    }
    sequence.edition
}

// The item at a place with number 0, or past the last a blank one with number 3.
#[tactic(auto, unfolding(octets::specs::Pick::pick))]
fn found<T: Copy>(items: &[T], i: usize, blank: T) -> (u8, T)
    ensures number { result.0 ≡ pick (leb (length items.now) i) wrong_slot completed }
    ensures item { result.1 ≡ get_or items.now i blank }
{
    match items.get(i) {
        Some(item) => (DONE, *item),
        None => (Refusal::WrongSlot.number(), blank),
    }
}

// Step i of the sequence, counted from 0.
#[tactic(auto, unfolding(crate::specs::Readers::step_view))]
pub fn step_at(sequence: &Sequence, i: usize) -> StepView
    ensures { result ≡ step_view sequence.now i }
{
    let (number, step) = found(sequence.steps(), i, blank_step());
    StepView { number, step }
}

// The record of a slot's client in the sequence.
#[tactic(auto, unfolding(crate::specs::Readers::client_view))]
pub fn client_at(sequence: &Sequence, slot: usize) -> ClientView
    ensures { result ≡ client_view sequence.now slot }
{
    let (number, client) = found(&sequence.records, slot, blank_record());
    ClientView { number, client }
}

// How far a playback has come, or a recording.
#[tactic(auto, unfolding(crate::specs::Readers::progress_of, octets::specs::Pick::pick))]
pub fn progress_of(state: u8, recording: &Recording, playback: &Playback) -> Progress
    ensures { result ≡ progress_of state recording.now playback.now }
{
    if state == State::Playback as u8 {
        return Progress {
            ticks: playback.ticks,
            distance: playback.distance,
            count: at_most(playback.sent, MOST_STEPS),
        };
    }
    Progress {
        ticks: recording.ticks,
        distance: recording.distance,
        count: at_most(recording.count, MOST_STEPS),
    }
}

// Step i of the recording, counted from 0.
#[tactic(auto, unfolding(crate::specs::Readers::taken_view))]
pub fn taken_at(recording: &Recording, i: usize) -> TakenView
    ensures { result ≡ taken_view recording.now i }
{
    let used = at_most(recording.count, MOST_STEPS);
    let (number, taken) = found(&recording.steps[..used], i, blank_taken());
    TakenView { number, taken }
}

// Command i of the playback, counted from 0: that of step i of the sequence.
#[tactic(auto, unfolding(crate::specs::Readers::sent_view))]
pub fn sent_at(playback: &Playback, i: usize) -> SentView
    ensures { result ≡ sent_view playback.now i }
{
    let left = at_most(playback.sent, MOST_STEPS);
    let (number, sent) = found(&playback.commands[..left], i, blank_sent());
    SentView { number, sent }
}

fn blank_taken() -> Taken
    ensures { result ≡ blank_taken }
{
    Taken {
        step: blank_step(),
        tan: 0,
        status: 0,
    }
}

fn blank_sent() -> Sent
    ensures { result ≡ blank_sent }
{
    Sent {
        tan: 0,
        answer: 0,
        left: 0,
    }
}

impl Master {
    #[tactic(auto, unfolding(crate::specs::Readers::slot_view, octets::specs::Pick::pick))]
    pub fn slot(&self, slot: usize) -> SlotView
        ensures { result ≡ slot_view self.now slot }
    {
        match self.slots.get(slot) {
            Some(client) => SlotView {
                number: DONE,
                taken: client.taken,
                wanted: client.wanted,
                report: client.report,
                name: client.name,
            },
            None => SlotView {
                number: Refusal::WrongSlot.number(),
                taken: 0,
                wanted: 0,
                report: 0,
                name: 0,
            },
        }
    }

    // The first check of a start that does not hold, with its slot and its step.
    #[tactic(auto, unfolding(crate::specs::Readers::verify_view))]
    pub fn verify(&self) -> Named
        ensures { result ≡ verify_view self.now }
    {
        first_named(&self.slots, &self.sequence)
    }
}
