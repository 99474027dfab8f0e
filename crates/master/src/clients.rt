// On and off; clients attached, enabled, disabled, reporting and lost.
ghost use Rattle.std.specs.Prelude.{◌≡◌, ◌<◌, ◌||◌, ◌≢◌, eqb, leb, OnOk, IfOk, MatchResult};
ghost use Rattle.arrays.specs.Arrays.{some};
ghost use Rattle.octets.specs.Refusals.{answer_number};
ghost use Rattle.octets.specs.declared.numbers.Refusal.TheVariants.{WrongSlot, WrongValue};
ghost use Rattle.pool.specs.Pool.{verdict_of};
ghost use Rattle.profile.specs.Profile.{kept_of_pool};
ghost use Rattle.client.specs.Clients.{is_taken, is_awake, is_named};
ghost use Rattle.client.specs.Reports.{report_number};
ghost use Rattle.master.specs.Call.{gives, outcome_of, leaves_of, slot_at, Refuses};
ghost use Rattle.master.specs.Named.{state_number};
ghost use Rattle.master.specs.Attaching.{attached_by};
ghost use Rattle.master.specs.declared.clients.NotAttached.TheVariants.{Refused, Pool};
ghost use Rattle.master.specs.Clients.{awake, no_report, report_from, unexpected, is_over, end_of, followed, reported_slot, on_call, off_call, attach_call, want_call, report_call, lost_call};

use crate::messages::has_room;
use crate::{Master, Outcome, State};
use client::{Client, Report, attached, blank_slot};
use message::Message;
use octets::label::blank;
use octets::numbers::Refusal;
use pool::Verdict;
use profile::{Profile, judge};

// Why a client is not attached: the number alone, or what is wrong with its pool.
#[derive(Clone, Copy)]
enum NotAttached {
    Refused(Refusal),
    Pool(Verdict),
}

impl From<Refusal> for NotAttached {
    ghost from_gives = { λ why answer. answer ≡ Refused why };

    fn from(why: Refusal) -> NotAttached {
        NotAttached::Refused(why)
    }
}

impl From<Verdict> for NotAttached {
    ghost from_gives = { λ verdict answer. answer ≡ Pool verdict };

    fn from(verdict: Verdict) -> NotAttached {
        NotAttached::Pool(verdict)
    }
}

impl Master {
    pub fn on(mut self) -> Outcome
        ensures { result ≡ outcome_of self (on_call self) }
    {
        let answer = self.switch_on();
        self.answers(answer)
    }

    #[tactic(auto, using(crate::proofs::Calls::calls), unfolding(crate::specs::Clients::on_call))]
    fn switch_on(&mut self) -> Result<(), Refusal>
        ensures { gives (answer_number result) self.new ≡ outcome_of self.old (on_call self.old) }
    {
        self.in_state(State::Inactive)?;
        self.state = State::Ready as u8;
        Ok(())
    }

    pub fn off(mut self) -> Outcome
        ensures { result ≡ outcome_of self (off_call self) }
    {
        let answer = self.switch_off();
        self.answers(answer)
    }

    #[tactic(auto, using(crate::proofs::Calls::calls), unfolding(crate::specs::Clients::off_call))]
    fn switch_off(&mut self) -> Result<(), Refusal>
        ensures { gives (answer_number result) self.new ≡ outcome_of self.old (off_call self.old) }
    {
        self.in_state(State::Ready)?;
        self.asleep()?;
        self.state = State::Inactive as u8;
        Ok(())
    }

    // Number 13 while an attached client is not disabled.
    #[tactic(auto, unfolding(crate::specs::Clients::awake, octets::specs::Pick::pick))]
    fn asleep(&self) -> Result<(), Refusal>
        ensures { answer_number result ≡ awake (some is_awake self.now.slots) }
    {
        if self.any_awake() {
            return Err(Refusal::NotDisabled);
        }
        Ok(())
    }

    // A client that is not yet here, with its pool; the pool's bytes stay with the host. A pool is judged only where nothing else refuses it.
    pub fn attach(mut self, slot: usize, name: u64, pool: &[u8]) -> Outcome
        ensures { result ≡ outcome_of self (attach_call self slot name pool.now) }
    {
        match self.take(slot, name, pool) {
            Ok(()) => self.answers(Ok(())),
            Err(NotAttached::Refused(why)) => self.answers(Err(why)),
            Err(NotAttached::Pool(verdict)) => Outcome {
                number: Refusal::PoolRefused as u8,
                code: verdict.code,
                object: verdict.object,
                count: 0,
                master: self,
            },
        }
    }

    #[inline(never)]
    #[tactic(auto, using(crate::proofs::Calls::calls, crate::proofs::Pools::pools), unfolding(crate::specs::Clients::attach_call))]
    fn take(&mut self, slot: usize, name: u64, pool: &[u8]) -> Result<(), NotAttached>
        ensures { attached_by result self.new
            ≡ outcome_of self.old (attach_call self.old slot name pool.now) }
    {
        self.vacant(slot, name)?;
        self.in_state(State::Ready)?;
        let profile = judged(pool)?;
        self.slots[slot] = attached(name, profile);
        Ok(())
    }

    // Number 3 unless the slot is empty and no client of this NAME is attached.
    fn vacant(&self, slot: usize, name: u64) -> Result<(), Refusal>
        ensures refused { Refuses
            (leb 8 slot || (is_taken (slot_at self.now slot) || some (is_named name) self.now.slots))
            WrongSlot result }
        ensures seat { OnOk result (slot < 8) }
    {
        match self.slots.get(slot) {
            Some(client) if !client.is_taken() & !self.any_named(name) => Ok(()),
            _ => Err(Refusal::WrongSlot),
        }
    }

    // Writes E.2, 8 bytes.
    pub fn enable(mut self, slot: usize, out: &mut [u8]) -> Outcome
        ensures value { result ≡ outcome_of self (want_call 1 self slot out.old) }
        ensures out_after { out.new ≡ leaves_of (want_call 1 self slot out.old) }
    {
        let answer = self.want(1, slot, out);
        self.answers(answer)
    }

    // Writes E.2, 8 bytes.
    pub fn disable(mut self, slot: usize, out: &mut [u8]) -> Outcome
        ensures value { result ≡ outcome_of self (want_call 0 self slot out.old) }
        ensures out_after { out.new ≡ leaves_of (want_call 0 self slot out.old) }
    {
        let answer = self.want(0, slot, out);
        self.answers(answer)
    }

    #[tactic(auto, using(crate::proofs::Calls::calls), unfolding(crate::specs::Clients::want_call))]
    fn want(&mut self, wanted: u8, slot: usize, out: &mut [u8]) -> Result<(), Refusal>
        ensures value { gives (answer_number result) self.new
            ≡ outcome_of self.old (want_call wanted self.old slot out.old) }
        ensures out_after { out.new ≡ leaves_of (want_call wanted self.old slot out.old) }
    {
        has_room(out, 8)?;
        self.attached(slot)?;
        self.in_state(State::Ready)?;
        message::write(Message::StateCommand(wanted, 1), blank(), out);
        self.slots[slot].wanted = wanted;
        Ok(())
    }

    // The state that a client reports, decoded by the host.
    pub fn report(mut self, slot: usize, report: u32) -> Outcome
        ensures { result ≡ outcome_of self (report_call self slot report) }
    {
        let answer = self.hear_report(slot, report);
        self.answers(answer)
    }

    #[inline(never)]
    #[tactic(auto, using(crate::proofs::Calls::calls), unfolding(crate::specs::Clients::report_call, crate::specs::Clients::reported))]
    fn hear_report(&mut self, slot: usize, report: u32) -> Result<(), Refusal>
        ensures { gives (answer_number result) self.new
            ≡ outcome_of self.old (report_call self.old slot report) }
    {
        let report = report_from(report)?;
        self.attached(slot)?;
        self.active()?;
        expected(&self.slots[slot], report)?;
        let over = self.is_over(slot, report);
        tell(&mut self.slots[slot], report);
        self.follow(over);
        Ok(())
    }

    // A client that is gone. One that was enabled ends what its disabling ends.
    pub fn lost(mut self, slot: usize) -> Outcome
        ensures { result ≡ outcome_of self (lost_call self slot) }
    {
        let answer = self.lose(slot);
        self.answers(answer)
    }

    #[tactic(auto, using(crate::proofs::Calls::calls), unfolding(crate::specs::Clients::lost_call, crate::specs::Clients::lost))]
    fn lose(&mut self, slot: usize) -> Result<(), Refusal>
        ensures { gives (answer_number result) self.new
            ≡ outcome_of self.old (lost_call self.old slot) }
    {
        self.attached(slot)?;
        self.active()?;
        let over = self.is_over(slot, Report::Disabled);
        self.slots[slot] = blank_slot();
        self.follow(over);
        Ok(())
    }

    // The report of an enabled client ends a recording or a playback.
    fn is_over(&self, slot: usize, report: Report) -> bool
        requires { slot < 8 }
        ensures { result ≡ is_over self.now.state (slot_at self.now slot) (report_number report) }
    {
        let gone = report == Report::Disabled;
        let stops = (report == Report::Record) | (report == Report::Abort);
        self.slots[slot].is_enabled()
            & ((self.is_recording() & gone) | (self.is(State::Playback) & (gone | stops)))
    }

    // What is over ends; else an abort may be left.
    #[tactic(auto, unfolding(crate::specs::Clients::followed, crate::specs::Clients::end_of, octets::specs::Pick::pick))]
    fn follow(&mut self, over: bool)
        ensures { self.new ≡ followed over self.old }
    {
        if !over {
            self.settle();
        } else if self.is(State::Playback) {
            self.end(State::Abort);
        } else {
            self.end(State::Ready);
        }
    }
}

// What is kept of a pool, or the verdict on one that is refused.
#[tactic(auto, using(profile::proofs::Laws::kept_profile))]
fn judged(pool: &[u8]) -> Result<Profile, Verdict>
    ensures { MatchResult result
        (λ profile. ((verdict_of pool.now).code ≡ 0) × (profile ≡ kept_of_pool pool.now))
        (λ verdict. (verdict ≡ verdict_of pool.now) × (verdict.code ≢ 0)) }
{
    Ok(judge(pool)?)
}

// Number 4 for a report that is none.
#[tactic(auto, unfolding(crate::specs::Clients::report_from, octets::specs::Pick::pick))]
fn report_from(report: u32) -> Result<Report, Refusal>
    ensures refused { Refuses (eqb (report_from report) no_report) WrongValue result }
    ensures report { IfOk result (λ said. report_number said ≡ report_from report) }
{
    Report::try_from(report)
}

// Number 5 for a report that a client may not send now.
#[tactic(auto, unfolding(crate::specs::Clients::unexpected, octets::specs::Pick::pick))]
fn expected(client: &Client, report: Report) -> Result<(), Refusal>
    ensures { answer_number result ≡ unexpected client.now (report_number report) }
{
    if (report != Report::Disabled)
        & (client.wanted == 0)
        & (client.report == Report::Disabled as u8)
    {
        return Err(Refusal::NotExpected);
    }
    Ok(())
}

// A client has reported: its slot is empty where an enabled one reports disabled.
#[tactic(auto, unfolding(crate::specs::Clients::reported_slot, octets::specs::Pick::pick))]
fn tell(client: &mut Client, report: Report)
    ensures { client.new ≡ reported_slot client.old (report_number report) }
{
    if client.is_enabled() & (report == Report::Disabled) {
        *client = blank_slot();
    } else {
        client.report = report.number();
    }
}
