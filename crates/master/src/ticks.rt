// A tick: 100 ms, and the millimetres driven.
ghost use Rattle.std.specs.Prelude.{◌≡◌, ◌++◌, ◌≤◌, ltb, length, drop};
ghost use Rattle.octets.specs.declared.numbers.Refusal.TheVariants.{WrongValue};
ghost use Rattle.master.specs.Call.{Refuses, counted, outcome_of, leaves_of};
ghost use Rattle.master.specs.Tick.{tick_call, recording_ticked, playback_ticked, ticked, frames_in, count_in};

use crate::messages::has_room;
use crate::{Master, Outcome, State};
use octets::numbers::Refusal;
use playback::{End, blank_playback, frames};
use sequence::LAST_TICK;

impl Master {
    // Fills 576 bytes: nine to a frame, the slot and E.6.
    pub fn tick(mut self, mm: u32, out: &mut [u8]) -> Outcome
        ensures value { result ≡ outcome_of self (tick_call self mm out.old) }
        ensures out_after { out.new ≡ leaves_of (tick_call self mm out.old) }
    {
        let answer = self.pass(mm, out);
        self.counts(answer)
    }

    #[inline(never)]
    #[tactic(auto, using(crate::proofs::Calls::calls), unfolding(crate::specs::Tick::tick_call))]
    fn pass(&mut self, mm: u32, out: &mut [u8]) -> Result<u32, Refusal>
        ensures value { counted result self.new ≡ outcome_of self.old (tick_call self.old mm out.old) }
        ensures out_after { out.new ≡ leaves_of (tick_call self.old mm out.old) }
    {
        has_room(out, 576)?;
        in_range(mm)?;
        self.active()?;
        self.go_on(mm);
        Ok(self.write_frames(out))
    }

    #[tactic(auto, unfolding(crate::specs::Tick::ticked, octets::specs::Pick::pick))]
    fn go_on(&mut self, mm: u32)
        ensures { self.new ≡ ticked self.old mm }
    {
        if self.is_recording() {
            self.go_on_recording(mm);
        } else if self.is(State::Playback) {
            self.go_on_playing(mm);
        } else {
            self.settle();
        }
    }

    #[tactic(auto, unfolding(crate::specs::Tick::recording_ticked, crate::specs::States::ended, octets::specs::Pick::pick))]
    fn go_on_recording(&mut self, mm: u32)
        ensures { self.new ≡ recording_ticked self.old mm }
    {
        self.recording.counted(mm);
        if LAST_TICK <= self.recording.ticks {
            self.end(State::Ready);
        }
    }

    #[tactic(auto, unfolding(crate::specs::Tick::playback_ticked, crate::specs::States::ended, octets::specs::Pick::pick))]
    fn go_on_playing(&mut self, mm: u32)
        ensures { self.new ≡ playback_ticked self.old mm }
    {
        let mut tan = self.tan;
        match self.playback.tick(&self.sequence, &mut tan, mm) {
            End::GoesOn => self.tan = tan,
            End::ToReady | End::ToAbort => self.end(State::Abort),
        }
    }

    // The frames of a tick that leaves the master like this; how many they are.
    #[tactic(auto, using(crate::proofs::Frames::without), unfolding(crate::specs::Tick::frames_in, crate::specs::Tick::count_in, octets::specs::Pick::pick))]
    fn write_frames(&self, out: &mut [u8]) -> u32
        requires { 576 ≤ length out.old }
        ensures value { result ≡ count_in self.now }
        ensures out_after { out.new ≡ frames_in self.now ++ drop 576 out.old }
    {
        if self.is(State::Playback) {
            return frames(&self.playback, &self.sequence, out);
        }
        frames(&blank_playback(), &self.sequence, out)
    }
}

// Number 4 for more millimetres than a tick may have.
fn in_range(mm: u32) -> Result<(), Refusal>
    ensures { Refuses (ltb 65535 mm) WrongValue result }
{
    if 65535 < mm {
        return Err(Refusal::WrongValue);
    }
    Ok(())
}
