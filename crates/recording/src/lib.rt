// Recording: the steps taken so far, what an E.4 does, and what stays at the end.
// The definitions that the search of proofs opens.
#![tactic(auto, unfolding(octets::specs::Pick::pick, crate::specs::State::blank_recording, crate::specs::Indication::counted_recording, crate::specs::Indication::has_open, crate::specs::Indication::again_error, crate::specs::Indication::step_after, crate::specs::Indication::heard_again, crate::specs::Indication::error_by, crate::specs::Indication::first_error, crate::specs::Indication::first_value, crate::specs::Indication::new_step, crate::specs::Indication::records_after, crate::specs::Indication::with_new, crate::specs::Indication::heard_first, crate::specs::Indication::place_of, crate::specs::Indication::heard_of, crate::specs::Kept::record_kept, crate::specs::Kept::kept_sequence))]

ghost use Rattle.std.specs.Prelude.{◌≡◌, ◌≤◌, ◌<◌, length, min};
ghost use Rattle.std.specs.Option.{unwrap_or, IfSome};
ghost use Rattle.std.specs.Result.{OnOk};
ghost use Rattle.arrays.specs.Arrays.{some, pad_to};
ghost use Rattle.message.specs.Fields.{status_number};
ghost use Rattle.sequence.specs.Sequence.{blank_step};
ghost use Rattle.sequence.specs.Sound.{is_of};
ghost use Rattle.sequence.specs.declared.Sequence.{Sequence};
ghost use Rattle.recording.specs.State.{blank_recording};
ghost use Rattle.recording.specs.Indication.{held_of, counted_recording, is_open, has_open, is_step_of, place_of, is_same, takes, held_number, error_number, answer_number, again_error, done_with, step_after, heard_again, is_known, first_error, first_value, new_step, records_after, with_new, heard_first, heard_of};
ghost use Rattle.recording.specs.Promises.{Promises};
ghost use Rattle.recording.specs.Kept.{stays, stayed, records_from, kept_sequence};

use arrays::{at_most, more};
use client::{Client, ClientRecord, SLOTS, blank_record};
use message::{Execution, Status};
use profile::Profile;
use sequence::{FIRST_EDITION, MOST_STEPS, Sequence, Step, blank_sequence, blank_step};

// The status of a step that is held, in the order of its numbers.
#[derive(Clone, Copy, Debug, PartialEq, Eq)]
pub enum Held {
    OneShot = 0,
    Opened = 1,
    Done = 2,
    Failed = 3,
}

// A number that is not here is failed.
impl From<u8> for Held {
    ghost use Rattle.recording.specs.Indication.{held_number};

    ghost from_gives = { λ status held. held_number held ≡ min status 3 };

    fn from(status: u8) -> Held {
        match status {
            0 => Held::OneShot,
            1 => Held::Opened,
            2 => Held::Done,
            3..=255 => Held::Failed,
        }
    }
}

impl Held {
    // Whether a step of this status takes a message of that one.
    fn takes(self, status: Status) -> bool
        ensures { result ≡ takes (held_number self) (status_number status) }
    {
        match self {
            Held::OneShot => matches!(status, Status::AtOnce),
            Held::Opened => !matches!(status, Status::AtOnce),
            Held::Done => matches!(status, Status::Started | Status::Done),
            Held::Failed => matches!(status, Status::Started | Status::Failed),
        }
    }
}

// Why a message is answered otherwise than by 00: the errors of E.5.
#[derive(Clone, Copy, Debug, PartialEq, Eq)]
pub enum Error {
    UnknownFunction = 0x01,
    UnknownState = 0x02,
    WrongStatus = 0x03,
    Full = 0x04,
    Other = 0xFF,
}

impl Error {
    fn number(self) -> u8
        ensures { result ≡ error_number self }
    {
        self as u8
    }
}

// The error of E.5: 00 where there is none.
pub fn number_of(answer: Result<(), Error>) -> u8
    ensures { result ≡ answer_number answer }
{
    match answer {
        Ok(()) => 0x00,
        Err(why) => why.number(),
    }
}

// A step that is held, its TAN and its status. It lies in memory that a C host lends, where any number may stand: so the status is one, read as `Held`.
#[repr(C)]
#[derive(Clone, Copy)]
pub struct Taken {
    pub step: Step,
    pub tan: u8,
    pub status: u8,
}

// ticks and distance are counted since the start. The first count of steps are held; records stand by slot. Unused cells are blank. In a C host's memory a
// count stands beside its array: `used` is the slice.
#[repr(C)]
#[derive(Clone, Copy)]
pub struct Recording {
    pub ticks: u32,
    pub distance: u32,
    pub count: usize,
    pub steps: [Taken; MOST_STEPS],
    pub records: [ClientRecord; SLOTS],
}

pub fn blank_recording() -> Recording
    ensures { result ≡ blank_recording }
{
    let taken = Taken {
        step: blank_step(),
        tan: 0,
        status: 0,
    };
    Recording {
        ticks: 0,
        distance: 0,
        count: 0,
        steps: [taken; MOST_STEPS],
        records: [blank_record(); SLOTS],
    }
}

impl Taken {
    fn is_open(&self) -> bool
        ensures { result ≡ is_open self.now }
    {
        Held::from(self.status) == Held::Opened
    }

    fn does_stay(&self) -> bool
        ensures { result ≡ stays self.now }
    {
        matches!(Held::from(self.status), Held::OneShot | Held::Done)
    }

    fn is_step_of(&self, slot: u8, tan: u8) -> bool
        ensures { result ≡ is_step_of slot tan self.now }
    {
        (self.step.slot, self.tan) == (slot, tan)
    }

    fn is_same(&self, e: Execution) -> bool
        ensures { result ≡ is_same self.now e }
    {
        (self.step.function, self.step.state) == (e.function, e.state)
    }

    // The answer to a message of this step.
    fn again_error(&self, e: Execution) -> Result<(), Error>
        ensures { answer_number result ≡ again_error self.now e }
    {
        if !self.is_same(e) || !Held::from(self.status).takes(e.status) {
            return Err(Error::WrongStatus);
        }
        match e.status {
            Status::Failed => Err(Error::Other),
            _ => Ok(()),
        }
    }

    // The step, done with this value.
    fn done_with(&self, value: u32) -> Taken
        ensures { result ≡ done_with self.now value }
    {
        Taken {
            step: Step { value, ..self.step },
            status: Held::Done as u8,
            ..*self
        }
    }

    // What a message of this step changes in it.
    fn change(&mut self, e: Execution)
        ensures { self.new ≡ step_after self.old e }
    {
        if !(self.is_same(e) & self.is_open()) {
            return;
        }
        match e.status {
            Status::AtOnce | Status::Started => {}
            Status::Done => *self = self.done_with(e.value),
            Status::Failed => self.status = Held::Failed as u8,
        }
    }
}

// Whether the loaded pool lists the function with this state.
fn is_known(profile: &Profile, e: Execution) -> bool
    ensures { result ≡ is_known profile.now e }
{
    e.state < 64 && profile.has_state(e.function, e.state)
}

// The value of a new step: that of the message where it says that the step is done.
fn first_value(e: Execution) -> u32
    ensures { result ≡ first_value (status_number e.status) e.value }
{
    match e.status {
        Status::AtOnce => e.value,
        _ => 0,
    }
}

// A client's record is stored with its first step.
fn keep_record(records: &mut [ClientRecord; SLOTS], slot: u8, client: &Client)
    ensures { records.new ≡ records_after records.old slot client.now }
{
    let at = slot as usize;
    if at < SLOTS && records[at].used == 0 {
        records[at] = client.kept_record();
    }
}

// Some step is of this slot.
fn has_step(steps: &[Step], slot: usize) -> bool
    ensures { result ≡ some (is_of slot) steps.now }
{
    steps.iter().any(|step| step.slot as usize == slot)
}

// The records of clients of which no step stays are dropped.
fn drop_records(records: &mut [ClientRecord; SLOTS], steps: &[Step])
    ensures { records.new ≡ records_from steps.now 0 records.old }
{
    for (slot, record) in records.iter_mut().enumerate() {
        if !has_step(steps, slot) {
            *record = blank_record();
        }
    }
}

// The steps that stay, in their order: as a sequence that has no edition and no records yet.
fn kept_steps(taken: &[Taken]) -> Sequence
    requires { length taken.now ≤ 64 }
    ensures few { result.count ≤ 64 }
    ensures count { result.count ≡ length (stayed taken.now) }
    ensures steps { result.steps ≡ pad_to blank_step 64 (stayed taken.now) }
{
    let mut kept = blank_sequence();
    for t in taken {
        if t.does_stay() {
            kept.steps[kept.count] = t.step;
            kept.count += 1;
        }
    }
    kept
}

impl Recording {
    // A tick and its millimetres are counted.
    pub fn counted(&mut self, mm: u32)
        ensures { self.new ≡ counted_recording self.old mm }
    {
        self.ticks = more(self.ticks, 1);
        self.distance = more(self.distance, mm);
    }

    // The steps that are held.
    fn used(&self) -> &[Taken]
        ensures { result.now ≡ held_of self.now }
    {
        &self.steps[..at_most(self.count, MOST_STEPS)]
    }

    // Some step is open.
    pub fn has_open(&self) -> bool
        ensures { result ≡ has_open self.now }
    {
        self.used().iter().any(|taken| taken.is_open())
    }

    // The number of this client's step with this TAN.
    fn find(&self, slot: u8, tan: u8) -> Option<usize>
        ensures value { result ≡ place_of self.now slot tan }
        ensures within { IfSome result (λ i. i < 64) }
    {
        self.used()
            .iter()
            .position(|taken| taken.is_step_of(slot, tan))
    }

    // A message of the step i, which is held.
    fn again(&mut self, i: usize, e: Execution) -> Result<(), Error>
        requires { i < 64 }
        ensures value { answer_number result ≡ (heard_again self.old i e).error }
        ensures after { self.new ≡ (heard_again self.old i e).recording }
    {
        let taken = &mut self.steps[i];
        let answer = taken.again_error(e);
        taken.change(e);
        answer
    }

    // The answer to a message of a step that is not held.
    fn first_error(&self, profile: &Profile, complete: bool, e: Execution) -> Result<(), Error>
        ensures value { answer_number result ≡ first_error profile.now complete self.now.count e }
        ensures room { OnOk result (self.now.count < 64) }
    {
        if profile.trigger_of(e.function) == 0 {
            return Err(Error::UnknownFunction);
        }
        if !is_known(profile, e) {
            return Err(Error::UnknownState);
        }
        if matches!(e.status, Status::Done | Status::Failed) {
            return Err(Error::WrongStatus);
        }
        if complete {
            return Err(Error::Other);
        }
        if MOST_STEPS <= self.count {
            return Err(Error::Full);
        }
        Ok(())
    }

    // A new step.
    fn new_step(&self, trigger: u8, slot: u8, e: Execution) -> Taken
        ensures { result ≡ new_step self.now trigger slot e }
    {
        let (distance, mark) = if trigger == 2 {
            (1, self.distance)
        } else {
            (0, self.ticks)
        };
        let step = Step {
            slot,
            function: e.function,
            state: e.state,
            distance,
            value: first_value(e),
            mark,
        };
        Taken {
            step,
            tan: e.tan,
            status: e.status.number(),
        }
    }

    // A step is stored after the others, and its client's record with its first.
    fn add(&mut self, taken: Taken, client: &Client)
        requires { self.old.count < 64 }
        ensures { self.new ≡ with_new self.old taken client.now }
    {
        self.steps[self.count] = taken;
        self.count += 1;
        keep_record(&mut self.records, taken.step.slot, client);
    }

    // A message of a step that is not held.
    fn first(
        &mut self,
        slot: u8,
        client: &Client,
        complete: bool,
        e: Execution,
    ) -> Result<(), Error>
        ensures value { answer_number result ≡ (heard_first self.old slot client.now complete e).error }
        ensures after { self.new ≡ (heard_first self.old slot client.now complete e).recording }
    {
        self.first_error(&client.profile, complete, e)?;
        let trigger = client.profile.trigger_of(e.function);
        let taken = self.new_step(trigger, slot, e);
        self.add(taken, client);
        Ok(())
    }

    // An E.4 that counts; complete: the master is in record complete.
    pub fn heard(
        &mut self,
        slot: u8,
        client: &Client,
        complete: bool,
        e: Execution,
    ) -> Result<(), Error>
        ensures value { answer_number result ≡ (heard_of self.old slot client.now complete e).error }
        ensures after { self.new ≡ (heard_of self.old slot client.now complete e).recording }
    {
        match self.find(slot, e.tan) {
            Some(i) => self.again(i, e),
            None => self.first(slot, client, complete, e),
        }
    }

    // The sequence after the end: the steps that stay, with their clients' records, in edition 1. None: no step stays, and the old sequence does.
    pub fn kept(&self) -> Option<Sequence>
        ensures { (old : Sequence) → unwrap_or result old ≡ kept_sequence self.now old }
    {
        let mut kept = kept_steps(self.used());
        if kept.count == 0 {
            return None;
        }
        kept.edition = FIRST_EDITION;
        kept.records = self.records;
        drop_records(&mut kept.records, &kept.steps[..kept.count]);
        Some(kept)
    }
}

// What holds of the definitions that the contracts above cite.
pub fn promises()
    ensures { Promises }
{}
