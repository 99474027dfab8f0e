// Playback: verification in its order, which step leaves at a tick, the frames of a tick, and what an answer does.
#![tactic(auto)]

ghost use Rattle.std.specs.Prelude.{◌≡◌, ◌++◌, ◌≤◌, ◌<◌, length, take, drop, unwrap_or, IfSome};
ghost use Rattle.octets.specs.Refusals.{answer_number};
ghost use Rattle.sequence.specs.Sequence.{length_of};
ghost use Rattle.playback.specs.State.{heard_number, blank_sent, blank_playback};
ghost use Rattle.playback.specs.Verification.{verify_of};
ghost use Rattle.playback.specs.Tick.{is_late, some_late, does_stop, is_due, does_leave, next_tan, counted_playback, after_leaving, ticked, tick_of};
ghost use Rattle.playback.specs.Frames.{frames_of, frame_count_of};
ghost use Rattle.playback.specs.Answer.{find_answered, is_all_done, with_answer, answered, answered_of, has_function};
ghost use Rattle.playback.specs.Promises.{Verifies, Agrees, Changes, Framing};
ghost use Rattle.playback.specs.Cases.{Cases};

use arrays::more;
use client::{Client, SLOTS};
use message::Reply;
use octets::numbers::Refusal;
use sequence::{LAST_TICK, MOST_STEPS, Sequence, Step};

mod answers;
mod buffer;
mod checks;
pub mod named;

pub use named::first_named;

// The answer to a sent step. A number that is not here counts as started.
#[derive(Clone, Copy, Debug, PartialEq, Eq)]
pub enum Heard {
    Nothing = 0,
    Started = 1,
    Done = 2,
}

// What becomes of a playback at a tick or an answer.
#[derive(Clone, Copy, Debug, PartialEq, Eq)]
pub enum End {
    GoesOn,
    ToReady,
    ToAbort,
}

// The ticks after which a sent step must have an answer.
const ANSWER_TICKS: u64 = 16;

// A step that has left: its TAN, its answer, and the tick at which it first left. The answer stays a number, since a host reads and hands in this struct.
#[repr(C)]
#[derive(Clone, Copy)]
pub struct Sent {
    pub tan: u8,
    pub answer: u8,
    pub left: u32,
}

// ticks and distance are counted since the start; the first sent of commands belong to the steps that have left. Unused cells are blank.
// A host reads and hands in this struct, so the count stands beside its cells.
#[repr(C)]
#[derive(Clone, Copy)]
pub struct Playback {
    pub ticks: u32,
    pub distance: u32,
    pub sent: usize,
    pub commands: [Sent; MOST_STEPS],
}

// A playback that starts.
#[tactic(auto, unfolding(crate::specs::State::blank_playback))]
pub fn blank_playback() -> Playback
    ensures { result ≡ blank_playback }
{
    let sent = Sent {
        tan: 0,
        answer: Heard::Nothing as u8,
        left: 0,
    };
    let commands = [sent; MOST_STEPS];
    Playback {
        ticks: 0,
        distance: 0,
        sent: 0,
        commands,
    }
}

// The first check that does not hold is the refusal.
pub fn verify(slots: &[Client; SLOTS], sequence: &Sequence) -> Result<(), Refusal>
    ensures { answer_number result ≡ verify_of slots.now sequence.now }
{
    if sequence.count == 0 {
        return Err(Refusal::NoStep);
    }
    checks::client_checks(slots, sequence)?;
    if checks::first_missing(slots, sequence.steps()).is_some() {
        return Err(Refusal::NotInPool);
    }
    if checks::lowest_not_ready(slots, &sequence.records).is_some() {
        return Err(Refusal::NotReady);
    }
    Ok(())
}

// ---- a tick

fn is_late(sent: &Sent, ticks: u32) -> bool
    ensures { result ≡ is_late ticks sent.now }
{
    (sent.answer == Heard::Nothing as u8)
        & (u64::from(sent.left) + ANSWER_TICKS <= u64::from(ticks))
}

fn is_due(step: &Step, ticks: u32, distance: u32) -> bool
    ensures { result ≡ is_due step.now ticks distance }
{
    ((step.distance == 0) & (step.mark <= ticks)) | ((step.distance != 0) & (step.mark <= distance))
}

impl Playback {
    // What has left, oldest first.
    fn left(&self) -> &[Sent]
        ensures { result.now ≡ take self.now.sent self.now.commands }
    {
        &self.commands[..self.sent.min(MOST_STEPS)]
    }

    // The tick and its millimetres are counted.
    #[tactic(auto, unfolding(crate::specs::Tick::counted_playback))]
    fn count(&mut self, mm: u32)
        ensures { self.new ≡ counted_playback self.old mm }
    {
        self.ticks = more(self.ticks, 1);
        self.distance = more(self.distance, mm);
    }

    #[tactic(auto, unfolding(crate::specs::Tick::some_late))]
    fn some_late(&self) -> bool
        ensures { result ≡ some_late self.now.ticks self.now.sent self.now.commands }
    {
        self.left().iter().any(|sent| is_late(sent, self.ticks))
    }

    #[tactic(auto, unfolding(crate::specs::Tick::does_stop))]
    fn does_stop(&self) -> bool
        ensures { result ≡ does_stop self.now }
    {
        (self.ticks >= LAST_TICK) | self.some_late()
    }

    // There is a next step, and it is due.
    fn does_leave(&self, sequence: &Sequence) -> bool
        ensures { result ≡ does_leave self.now sequence.now.steps (length_of sequence.now) }
    {
        match sequence.steps().get(self.sent) {
            Some(step) => is_due(step, self.ticks, self.distance),
            None => false,
        }
    }

    // The next step leaves with this TAN.
    #[tactic(auto, unfolding(crate::specs::Tick::after_leaving))]
    fn leave(&mut self, tan: u8)
        requires { self.old.sent < 64 }
        ensures { self.new ≡ after_leaving self.old tan }
    {
        self.commands[self.sent] = Sent {
            tan,
            answer: Heard::Nothing as u8,
            left: self.ticks,
        };
        self.sent += 1;
    }

    // A tick, of so many millimetres. The TAN is that of the last command.
    pub fn tick(&mut self, sequence: &Sequence, tan: &mut u8, mm: u32) -> End
        ensures { ticked result tan.new self.new ≡ tick_of self.old sequence.now tan.old mm }
    {
        self.count(mm);
        if self.does_stop() {
            return End::ToAbort;
        }
        if self.does_leave(sequence) {
            *tan = next_tan(*tan);
            self.leave(*tan);
        }
        End::GoesOn
    }
}

#[tactic(auto, unfolding(crate::specs::Tick::next_tan, octets::specs::Pick::pick))]
fn next_tan(tan: u8) -> u8
    ensures { result ≡ next_tan tan }
{
    tan.wrapping_add(1)
}

// ---- the frames of a tick

// The frames of the steps that are written at the playback's tick, 576 bytes of the lent buffer; how many they are.
pub fn frames(playback: &Playback, sequence: &Sequence, out: &mut [u8]) -> u32
    requires { 576 ≤ length out.old }
    ensures value { result ≡ frame_count_of playback.now.ticks playback.now.sent playback.now.commands }
    ensures out_after { out.new ≡ frames_of playback.now sequence.now.steps ++ drop 576 out.old }
{
    let mut filled = [0u8; 576];
    let count = buffer::fill(
        playback.ticks,
        playback.left(),
        &sequence.steps,
        &mut filled,
    );
    octets::put_bytes(out, 0, &filled);
    count
}

// ---- an answer

impl Playback {
    #[tactic(auto, unfolding(crate::specs::Answer::is_all_done, crate::specs::Answer::some_undone))]
    fn is_all_done(&self, count: usize) -> bool
        ensures { result ≡ is_all_done self.now count }
    {
        (count <= self.sent) & !answers::some_undone(self.left())
    }

    #[tactic(auto, unfolding(crate::specs::Answer::with_answer))]
    fn set_answer(&mut self, i: usize, heard: Heard)
        requires { i < 64 }
        ensures { self.new ≡ with_answer self.old i (heard_number heard) }
    {
        self.commands[i].answer = heard as u8;
    }

    // The sent step that an answer of this slot matches, by its number.
    fn matched(&self, sequence: &Sequence, slot: u8, reply: Reply) -> Option<usize>
        ensures number { unwrap_or result 64 ≡ find_answered sequence.now.steps self.now.commands self.now.sent slot reply.tan reply.function reply.state }
        ensures within { IfSome result (λ i. i < 64) }
    {
        answers::find(&sequence.steps, self.left(), slot, reply)
    }

    // E.7: the client of a slot answers a command. An answer that matches none is refused.
    pub fn answer(&mut self, sequence: &Sequence, slot: u8, reply: Reply) -> Result<End, Refusal>
        ensures { answered result self.new ≡ answered_of self.old sequence.now slot reply }
    {
        let Some(i) = self.matched(sequence, slot, reply) else {
            return Err(Refusal::NoMatch);
        };
        if self.commands[i].answer == Heard::Done as u8 {
            return Ok(End::GoesOn);
        }
        if answers::is_error(reply) {
            return Ok(End::ToAbort);
        }
        self.set_answer(i, answers::heard_from(reply.status));
        if self.is_all_done(sequence.len()) {
            return Ok(End::ToReady);
        }
        Ok(End::GoesOn)
    }
}

// ---- an E.4 of status 11 in playback

// Some step of the sequence is this slot's function.
#[tactic(auto, unfolding(crate::specs::Answer::has_function))]
pub fn has_function(sequence: &Sequence, slot: u8, function: u8) -> bool
    ensures { result ≡ has_function sequence.now slot function }
{
    answers::some_function(sequence.steps(), slot, function)
}

// What holds of the definitions that the contracts above cite.
pub fn promises()
    ensures verifies { Verifies }
    ensures agrees { Agrees }
    ensures changes { Changes }
    ensures framing { Framing }
    ensures cases { Cases }
{}
