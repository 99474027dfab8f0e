// The master: its states, and a method for each event, which takes the old state and hands the new one back.
#![tactic(auto)]

ghost use Rattle.std.specs.Prelude.{◌≡◌, ◌<◌, not, eqb, OnOk};
ghost use Rattle.octets.specs.Refusals.{answer_number};
ghost use Rattle.octets.specs.declared.numbers.Refusal.TheVariants.{WrongState, WrongSlot};
ghost use Rattle.arrays.specs.Arrays.{some};
ghost use Rattle.client.specs.Clients.{is_awake, is_enabled, is_named, is_other};
ghost use Rattle.client.specs.Reports.{report_number};
ghost use Rattle.master.specs.Call.{gives, counted, is_absent, Refuses};
ghost use Rattle.master.specs.Named.{state_number};
ghost use Rattle.master.specs.States.{new_master, is_inactive, is_recording, ended, settled};

use client::{Client, Report, blank_slot};
use octets::numbers::{Refusal, number_of};
use playback::{Playback, blank_playback};
use recording::{Recording, blank_recording};
use sequence::{Sequence, blank_sequence};

pub mod clients;
pub mod editions;
pub mod messages;
pub mod playing;
pub mod readers;
pub mod records;
pub mod storing;
pub mod ticks;

// A state; the numbering is the library's own. A number that is not here counts as abort. There is no `From<u8>`: a method asks whether the master is in one
// state (`is`), which is plainer than a state made from the number beside it.
#[derive(Clone, Copy, Debug, PartialEq, Eq)]
pub enum State {
    Inactive = 0,
    Ready = 1,
    Record = 2,
    RecordComplete = 3,
    Playback = 4,
    Abort = 5,
}

// tan is the TAN of the last command. recording is blank outside record and record complete, playback outside playback.
#[repr(C)]
#[derive(Clone, Copy)]
pub struct Master {
    pub state: u8,
    pub tan: u8,
    pub slots: [Client; 8],
    pub sequence: Sequence,
    pub recording: Recording,
    pub playback: Playback,
}

// What a call gives back. With number 6 code and object are the pool's; count is the frames of a tick, or the bytes that a store wrote. All else is 0.
#[repr(C)]
#[derive(Clone, Copy)]
pub struct Outcome {
    pub number: u8,
    pub code: u8,
    pub object: u16,
    pub count: u32,
    pub master: Master,
}

// A method that a host's call makes takes the master and gives an outcome; what it calls changes the master where it stands. Of these the larger are not
// inlined: laid into their caller they would have the master copied once or twice more.
impl Master {
    #[tactic(auto, unfolding(crate::specs::States::new_master))]
    pub fn new() -> Master
        ensures { result ≡ new_master }
    {
        let slot = blank_slot();
        Master {
            state: State::Inactive as u8,
            tan: 0,
            slots: [slot; 8],
            sequence: blank_sequence(),
            recording: blank_recording(),
            playback: blank_playback(),
        }
    }

    // What a call gives back that is done or refused.
    #[tactic(auto, unfolding(crate::specs::Call::gives))]
    pub(crate) fn answers(&self, answer: Result<(), Refusal>) -> Outcome
        ensures { result ≡ gives (answer_number answer) self.now }
    {
        Outcome {
            number: number_of(answer),
            code: 0,
            object: 0,
            count: 0,
            master: *self,
        }
    }

    // The same of a call that says how many frames or bytes there are.
    #[tactic(auto, unfolding(crate::specs::Call::gives))]
    pub(crate) fn counts(&self, answer: Result<u32, Refusal>) -> Outcome
        ensures { result ≡ counted answer self.now }
    {
        let mut outcome = self.answers(answer.map(|_| ()));
        outcome.count = answer.unwrap_or(0);
        outcome
    }

    // The master is in this state.
    pub(crate) fn is(&self, state: State) -> bool
        ensures { result ≡ eqb self.now.state (state_number state) }
    {
        self.state == state as u8
    }

    // Record or record complete.
    pub(crate) fn is_recording(&self) -> bool
        ensures { result ≡ is_recording self.now }
    {
        self.is(State::Record) | self.is(State::RecordComplete)
    }

    // Number 2 in another state than this.
    pub(crate) fn in_state(&self, state: State) -> Result<(), Refusal>
        ensures { Refuses (not (eqb self.now.state (state_number state))) WrongState result }
    {
        if !self.is(state) {
            return Err(Refusal::WrongState);
        }
        Ok(())
    }

    // Number 2 while the master is inactive.
    pub(crate) fn active(&self) -> Result<(), Refusal>
        ensures { Refuses (is_inactive self.now) WrongState result }
    {
        if self.is(State::Inactive) {
            return Err(Refusal::WrongState);
        }
        Ok(())
    }

    // Number 3 without a client in the slot.
    pub(crate) fn attached(&self, slot: usize) -> Result<(), Refusal>
        ensures refused { Refuses (is_absent self.now slot) WrongSlot result }
        ensures seat { OnOk result (slot < 8) }
    {
        match self.slots.get(slot) {
            Some(client) if client.is_taken() => Ok(()),
            _ => Err(Refusal::WrongSlot),
        }
    }

    // Some attached client is not disabled.
    pub(crate) fn any_awake(&self) -> bool
        ensures { result ≡ some is_awake self.now.slots }
    {
        self.slots.iter().any(|s| s.is_awake())
    }

    // Some client is enabled.
    pub(crate) fn any_enabled(&self) -> bool
        ensures { result ≡ some is_enabled self.now.slots }
    {
        self.slots.iter().any(|s| s.is_enabled())
    }

    // A client of this NAME is attached.
    pub(crate) fn any_named(&self, name: u64) -> bool
        ensures { result ≡ some (is_named name) self.now.slots }
    {
        self.slots.iter().any(|s| s.is_named(name))
    }

    // Some enabled client last reported something else than this.
    pub(crate) fn any_other(&self, report: Report) -> bool
        ensures { result ≡ some (is_other (report_number report)) self.now.slots }
    {
        self.slots.iter().any(|s| s.is_other(report))
    }

    // A recording or a playback is over.
    #[tactic(auto, unfolding(crate::specs::States::ended))]
    pub(crate) fn end(&mut self, state: State)
        ensures { self.new ≡ ended self.old (state_number state) }
    {
        self.state = state as u8;
        self.recording = blank_recording();
        self.playback = blank_playback();
    }

    // Abort is left where every enabled client has followed.
    #[tactic(auto, unfolding(crate::specs::States::settled, octets::specs::Pick::pick))]
    pub(crate) fn settle(&mut self)
        ensures { self.new ≡ settled self.old }
    {
        if (State::Abort as u8 <= self.state) & !self.any_other(Report::Abort) {
            self.state = State::Ready as u8;
        }
    }
}
