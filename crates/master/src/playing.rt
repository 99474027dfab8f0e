// The way into a playback and out of it, E.3 and E.7.
ghost use Rattle.std.specs.Prelude.{◌≡◌, ◌<◌, not, OnOk, OnErr, IfOk};
ghost use Rattle.octets.specs.Refusals.{answer_number};
ghost use Rattle.octets.specs.declared.numbers.Refusal.TheVariants.{WrongValue};
ghost use Rattle.playback.specs.Verification.{verify_of};
ghost use Rattle.playback.specs.Answer.{answered_of};
ghost use Rattle.master.specs.Call.{gives, outcome_of, leaves_of, slot_at, Refuses};
ghost use Rattle.master.specs.Messages.{is_abort, is_answer, reply_in};
ghost use Rattle.master.specs.Playback.{start_call, abort_call, unheeded, client_abort_call, unmatched, replied, answer_call};

use crate::messages::{has_room, write_receipt};
use crate::{Master, Outcome, State};
use flat::kinds::{ANSWER, CLIENT_ABORT};
use message::{CLIENT, Reply};
use octets::numbers::Refusal;
use playback::{End, blank_playback, verify};

impl Master {
    pub fn start(mut self) -> Outcome
        ensures { result ≡ outcome_of self (start_call self) }
    {
        let answer = self.begin_playback();
        self.answers(answer)
    }

    // The sequence is verified only where the state allows it.
    #[inline(never)]
    #[tactic(auto, using(crate::proofs::Calls::calls), unfolding(crate::specs::Playback::start_call))]
    fn begin_playback(&mut self) -> Result<(), Refusal>
        ensures { gives (answer_number result) self.new
            ≡ outcome_of self.old (start_call self.old) }
    {
        self.in_state(State::Ready)?;
        self.verified()?;
        self.playback = blank_playback();
        self.state = State::Playback as u8;
        Ok(())
    }

    // The first check of a start that does not hold.
    fn verified(&self) -> Result<(), Refusal>
        ensures { answer_number result ≡ verify_of self.now.slots self.now.sequence }
    {
        verify(&self.slots, &self.sequence)
    }

    // The operator's word.
    pub fn abort(mut self) -> Outcome
        ensures { result ≡ outcome_of self (abort_call self) }
    {
        let answer = self.break_off();
        self.answers(answer)
    }

    #[tactic(auto, using(crate::proofs::Calls::calls), unfolding(crate::specs::Playback::abort_call))]
    fn break_off(&mut self) -> Result<(), Refusal>
        ensures { gives (answer_number result) self.new
            ≡ outcome_of self.old (abort_call self.old) }
    {
        self.in_state(State::Playback)?;
        self.end(State::Abort);
        Ok(())
    }

    // E.3.
    pub fn client_abort(mut self, slot: usize, msg: &[u8]) -> Outcome
        ensures { result ≡ outcome_of self (client_abort_call self slot msg.now) }
    {
        let answer = self.hear_abort(slot, msg);
        self.answers(answer)
    }

    #[tactic(auto, using(crate::proofs::Calls::calls), unfolding(crate::specs::Playback::client_abort_call))]
    fn hear_abort(&mut self, slot: usize, msg: &[u8]) -> Result<(), Refusal>
        ensures { gives (answer_number result) self.new
            ≡ outcome_of self.old (client_abort_call self.old slot msg.now) }
    {
        aborted(msg)?;
        self.attached(slot)?;
        self.active()?;
        self.heeds(slot)?;
        self.end(State::Abort);
        Ok(())
    }

    // Number 5 for an E.3 that does not abort.
    #[tactic(auto, unfolding(crate::specs::Playback::unheeded, octets::specs::Pick::pick))]
    fn heeds(&self, slot: usize) -> Result<(), Refusal>
        requires { slot < 8 }
        ensures { answer_number result ≡ unheeded self.now.state (slot_at self.now slot) }
    {
        if self.is(State::Playback) & self.slots[slot].is_enabled() {
            return Ok(());
        }
        Err(Refusal::NotExpected)
    }

    // E.7 in, E.8 out, 8 bytes.
    pub fn answer(mut self, slot: usize, msg: &[u8], out: &mut [u8]) -> Outcome
        ensures value { result ≡ outcome_of self (answer_call self slot msg.now out.old) }
        ensures out_after { out.new ≡ leaves_of (answer_call self slot msg.now out.old) }
    {
        let answer = self.hear_answer(slot, msg, out);
        self.answers(answer)
    }

    #[tactic(auto, using(crate::proofs::Calls::calls), unfolding(crate::specs::Playback::answer_call))]
    fn hear_answer(&mut self, slot: usize, msg: &[u8], out: &mut [u8]) -> Result<(), Refusal>
        ensures value { gives (answer_number result) self.new
            ≡ outcome_of self.old (answer_call self.old slot msg.now out.old) }
        ensures out_after { out.new ≡ leaves_of (answer_call self.old slot msg.now out.old) }
    {
        has_room(out, 8)?;
        let reply = replied(msg)?;
        self.attached(slot)?;
        self.active()?;
        self.reply(slot, reply)?;
        write_receipt(reply, out);
        Ok(())
    }

    // An answer to a sent step. Number 15 where it matches none; outside playback no step counts as sent.
    #[tactic(auto, unfolding(crate::specs::Playback::unmatched, crate::specs::Playback::replied, crate::specs::States::ended, octets::specs::Pick::pick))]
    fn reply(&mut self, slot: usize, reply: Reply) -> Result<(), Refusal>
        requires { slot < 8 }
        ensures number { answer_number result
            ≡ unmatched self.old.state (answered_of self.old.playback self.old.sequence slot reply).number }
        ensures matched { OnOk result
            (self.new ≡ replied self.old (answered_of self.old.playback self.old.sequence slot reply)) }
        ensures unmatched { OnErr result (self.new ≡ self.old) }
    {
        if !self.is(State::Playback) {
            return Err(Refusal::NoMatch);
        }
        match self.playback.answer(&self.sequence, slot as u8, reply)? {
            End::GoesOn => {}
            End::ToReady => self.end(State::Ready),
            End::ToAbort => self.end(State::Abort),
        }
        Ok(())
    }
}

// Number 4 for another message than E.3.
fn aborted(msg: &[u8]) -> Result<(), Refusal>
    ensures { Refuses (not (is_abort msg.now)) WrongValue result }
{
    if flat::read(CLIENT, msg).message.kind != CLIENT_ABORT {
        return Err(Refusal::WrongValue);
    }
    Ok(())
}

// Number 4 for another message than E.7.
fn replied(msg: &[u8]) -> Result<Reply, Refusal>
    ensures refused { Refuses (not (is_answer msg.now)) WrongValue result }
    ensures said { IfOk result (λ reply. reply ≡ reply_in msg.now) }
{
    let message = flat::read(CLIENT, msg).message;
    if message.kind != ANSWER {
        return Err(Refusal::WrongValue);
    }
    Ok(Reply::from(message.step))
}
