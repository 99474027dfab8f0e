// A sequence: the steps that a recording has kept or that blocks said, the records of their clients, and its edition.
#![tactic(auto)]

ghost use Rattle.std.specs.Prelude.{◌≡◌, length};
ghost use Rattle.sequence.specs.Sequence.{blank_step, blank_sequence, length_of, steps_of};
ghost use Rattle.sequence.specs.Editions.{is_edition, with_edition};

use client::{ClientRecord, SLOTS, blank_record};

// How many steps a recording, a sequence and a playback have room for.
pub const MOST_STEPS: usize = 64;

// The last tick of a recording and of a playback.
pub const LAST_TICK: u32 = 36000;

// The editions: by the second identity numbers agree too. Numbers and no enum: a host may hand any, and a Sequence lies in its memory.
pub const FIRST_EDITION: u32 = 1;

pub const SECOND_EDITION: u32 = 2;

// distance is 0 where the mark is in ticks; any other number: in millimetres.
#[repr(C)]
#[derive(Clone, Copy)]
pub struct Step {
    pub slot: u8,
    pub function: u8,
    pub state: u8,
    pub distance: u8,
    pub value: u32,
    pub mark: u32,
}

// The first count of steps are used, in the order of their start, or of their blocks; records stand by slot. Unused cells are blank. edition is 1 or 2, and 0
// where there is no step. A count beside an array, since it lies in a host's memory: `steps` lends those that are used.
#[repr(C)]
#[derive(Clone, Copy)]
pub struct Sequence {
    pub count: usize,
    pub edition: u32,
    pub steps: [Step; MOST_STEPS],
    pub records: [ClientRecord; SLOTS],
}

pub fn blank_step() -> Step
    ensures { result ≡ blank_step }
{
    Step {
        slot: 0,
        function: 0,
        state: 0,
        distance: 0,
        value: 0,
        mark: 0,
    }
}

#[tactic(auto, unfolding(crate::specs::Sequence::blank_sequence))]
pub fn blank_sequence() -> Sequence
    ensures { result ≡ blank_sequence }
{
    Sequence {
        count: 0,
        edition: 0,
        steps: [blank_step(); MOST_STEPS],
        records: [blank_record(); SLOTS],
    }
}

pub fn is_edition(edition: u32) -> bool
    ensures { result ≡ is_edition edition }
{
    matches!(edition, FIRST_EDITION | SECOND_EDITION)
}

impl Sequence {
    // How many steps there are.
    pub fn len(&self) -> usize
        ensures { result ≡ length_of self.now }
    {
        self.count.min(MOST_STEPS)
    }

    // The steps that are used, in their order.
    #[tactic(auto, using(std::proofs::lemmas::List::take_min), unfolding(crate::specs::Sequence::steps_of))]
    pub fn steps(&self) -> &[Step]
        ensures used { result.now ≡ steps_of self.now }
        ensures as_many { length (steps_of self.now) ≡ length_of self.now }
    {
        &self.steps[..self.len()]
    }

    // The same sequence in this edition.
    pub fn with_edition(self, edition: u32) -> Sequence
        ensures { result ≡ with_edition self edition }
    {
        Sequence { edition, ..self }
    }
}
