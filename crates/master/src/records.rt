// The way into a recording and out of it, and E.4.
ghost use Rattle.std.specs.Prelude.{◌≡◌, ◌<◌, not, IfOk};
ghost use Rattle.arrays.specs.Arrays.{some};
ghost use Rattle.octets.specs.Refusals.{answer_number};
ghost use Rattle.octets.specs.declared.numbers.Refusal.TheVariants.{WrongState, WrongValue};
ghost use Rattle.client.specs.Clients as clients;
ghost use Rattle.client.specs.Clients.{is_enabled, is_other};
ghost use Rattle.master.specs.Call.{gives, outcome_of, leaves_of, slot_at, Refuses};
ghost use Rattle.master.specs.Messages.{is_indication, execution_in, response_out};
ghost use Rattle.master.specs.States.{is_recording};
ghost use Rattle.master.specs.Recording.{unready, record_call, recording_ended, stopped, stop_call, cancel_call, untimely, recorded, interrupted, recording_heard, heard, indication_call};

use crate::messages::{has_room, write_response};
use crate::{Master, Outcome, State};
use client::Report;
use flat::kinds::INDICATION;
use message::{CLIENT, Execution, Status};
use octets::numbers::Refusal;
use playback::has_function;
use recording::{blank_recording, number_of};

impl Master {
    pub fn record(mut self) -> Outcome
        ensures { result ≡ outcome_of self (record_call self) }
    {
        let answer = self.begin_recording();
        self.answers(answer)
    }

    #[inline(never)]
    #[tactic(auto, using(crate::proofs::Calls::calls), unfolding(crate::specs::Recording::record_call))]
    fn begin_recording(&mut self) -> Result<(), Refusal>
        ensures { gives (answer_number result) self.new
            ≡ outcome_of self.old (record_call self.old) }
    {
        self.in_state(State::Ready)?;
        self.can_record()?;
        self.recording = blank_recording();
        self.state = State::Record as u8;
        Ok(())
    }

    // Number 14 without an enabled client, 12 where one reports another state than ready.
    #[tactic(auto, unfolding(crate::specs::Recording::unready, octets::specs::Pick::pick))]
    fn can_record(&self) -> Result<(), Refusal>
        ensures { answer_number result
            ≡ unready (some is_enabled self.now.slots)
            (some (is_other clients.ready_report) self.now.slots) }
    {
        if !self.any_enabled() {
            return Err(Refusal::NoneEnabled);
        }
        if self.any_other(Report::Ready) {
            return Err(Refusal::NotReady);
        }
        Ok(())
    }

    // A recording is over: what stays of it is the sequence.
    #[tactic(auto, unfolding(crate::specs::Recording::recording_ended))]
    fn keep(&mut self)
        ensures { self.new ≡ recording_ended self.old }
    {
        if let Some(kept) = self.recording.kept() {
            self.sequence = kept;
        }
        self.end(State::Ready);
    }

    pub fn stop(mut self) -> Outcome
        ensures { result ≡ outcome_of self (stop_call self) }
    {
        let answer = self.stop_recording();
        self.answers(answer)
    }

    #[tactic(auto, using(crate::proofs::Calls::calls), unfolding(crate::specs::Recording::stop_call))]
    fn stop_recording(&mut self) -> Result<(), Refusal>
        ensures { gives (answer_number result) self.new ≡ outcome_of self.old (stop_call self.old) }
    {
        self.in_state(State::Record)?;
        self.complete();
        Ok(())
    }

    // A recording that is stopped waits for the steps that are open.
    #[tactic(auto, unfolding(crate::specs::Recording::stopped, octets::specs::Pick::pick))]
    fn complete(&mut self)
        ensures { self.new ≡ stopped self.old }
    {
        if self.recording.has_open() {
            self.state = State::RecordComplete as u8;
        } else {
            self.keep();
        }
    }

    pub fn cancel(mut self) -> Outcome
        ensures { result ≡ outcome_of self (cancel_call self) }
    {
        let answer = self.drop_recording();
        self.answers(answer)
    }

    #[tactic(auto, using(crate::proofs::Calls::calls), unfolding(crate::specs::Recording::cancel_call))]
    fn drop_recording(&mut self) -> Result<(), Refusal>
        ensures { gives (answer_number result) self.new
            ≡ outcome_of self.old (cancel_call self.old) }
    {
        self.records()?;
        self.end(State::Ready);
        Ok(())
    }

    // Number 2 outside a recording.
    fn records(&self) -> Result<(), Refusal>
        ensures { Refuses (not (is_recording self.now)) WrongState result }
    {
        if !self.is_recording() {
            return Err(Refusal::WrongState);
        }
        Ok(())
    }

    // E.4 in, E.5 out, 8 bytes.
    pub fn indication(mut self, slot: usize, msg: &[u8], out: &mut [u8]) -> Outcome
        ensures value { result ≡ outcome_of self (indication_call self slot msg.now out.old) }
        ensures out_after { out.new ≡ leaves_of (indication_call self slot msg.now out.old) }
    {
        let answer = self.hear_indication(slot, msg, out);
        self.answers(answer)
    }

    #[inline(never)]
    #[tactic(auto, using(crate::proofs::Calls::calls), unfolding(crate::specs::Recording::indication_call))]
    fn hear_indication(&mut self, slot: usize, msg: &[u8], out: &mut [u8]) -> Result<(), Refusal>
        ensures value { gives (answer_number result) self.new
            ≡ outcome_of self.old (indication_call self.old slot msg.now out.old) }
        ensures out_after { out.new ≡ leaves_of (indication_call self.old slot msg.now out.old) }
    {
        has_room(out, 8)?;
        let execution = indicated(msg)?;
        self.attached(slot)?;
        self.active()?;
        self.awaits(slot, execution)?;
        let error = self.hear(slot, execution);
        write_response(execution, error, out);
        Ok(())
    }

    // Number 5 for an E.4 that does not count.
    #[tactic(auto, unfolding(crate::specs::Recording::untimely, octets::specs::Pick::pick))]
    fn awaits(&self, slot: usize, execution: Execution) -> Result<(), Refusal>
        requires { slot < 8 }
        ensures { answer_number result ≡ untimely self.now.state (slot_at self.now slot) execution }
    {
        let client = &self.slots[slot];
        let enabled = client.is_enabled();
        let failed = matches!(execution.status, Status::Failed);
        if self.is_recording() & enabled & (client.report == Report::Record as u8) {
            return Ok(());
        }
        if self.is(State::Playback) & enabled & failed {
            return Ok(());
        }
        Err(Refusal::NotExpected)
    }

    // An E.4 that counts; the error of E.5.
    #[tactic(auto, unfolding(crate::specs::Recording::heard, octets::specs::Pick::pick))]
    fn hear(&mut self, slot: usize, execution: Execution) -> u8
        requires { slot < 8 }
        ensures error { result ≡ (heard self.old slot (slot_at self.old slot) execution).error }
        ensures after { self.new ≡ (heard self.old slot (slot_at self.old slot) execution).master }
    {
        if self.is(State::Playback) {
            return self.interrupted(slot, execution.function);
        }
        self.recorded(slot, execution)
    }

    // An operator's hand on a function during playback.
    #[tactic(auto, unfolding(crate::specs::Recording::interrupted, octets::specs::Pick::pick))]
    fn interrupted(&mut self, slot: usize, function: u8) -> u8
        requires { slot < 8 }
        ensures error { result ≡ (interrupted self.old slot function).error }
        ensures after { self.new ≡ (interrupted self.old slot function).master }
    {
        if has_function(&self.sequence, slot as u8, function) {
            self.end(State::Abort);
            return 0x06;
        }
        0xFF
    }

    // Record complete ends where no step is open any more.
    #[tactic(auto, unfolding(crate::specs::Recording::recorded, octets::specs::Pick::pick))]
    fn recorded(&mut self, slot: usize, execution: Execution) -> u8
        requires { slot < 8 }
        ensures error { result
            ≡ (recording_heard self.old slot (slot_at self.old slot) execution).error }
        ensures after { self.new
            ≡ recorded self.old (recording_heard self.old slot (slot_at self.old slot) execution).recording }
    {
        let complete = self.is(State::RecordComplete);
        let client = &self.slots[slot];
        let heard = self
            .recording
            .heard(slot as u8, client, complete, execution);
        if complete & !self.recording.has_open() {
            self.keep();
        }
        number_of(heard)
    }
}

// Number 4 for another message than E.4.
fn indicated(msg: &[u8]) -> Result<Execution, Refusal>
    ensures refused { Refuses (not (is_indication msg.now)) WrongValue result }
    ensures said { IfOk result (λ execution. execution ≡ execution_in msg.now) }
{
    let message = flat::read(CLIENT, msg).message;
    if message.kind != INDICATION {
        return Err(Refusal::WrongValue);
    }
    Ok(Execution::from(message.step))
}
