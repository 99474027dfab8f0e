// The calls that include/scm.h declares: each hands its numbers and slices to a crate below and says what that crate's definition says. Crate scm_c
// exports each to C under its name by calling it. Each is laid into its export, so that the master is not copied once more.
#![tactic(auto)]

ghost use Rattle.std.specs.Prelude.{◌≡◌, [], length};
ghost use Rattle.std.specs.Float.{binary32};
ghost use Rattle.std.specs.Float.Ieee.{of_bits};
ghost use Rattle.octets.specs.Label.{blank};
ghost use Rattle.pool.specs.Pool.{verdict_of};
ghost use Rattle.objects.specs.Objects.{found_at, write_answer, write_out};
ghost use Rattle.rewrite.specs.Rewrite.{rewrite_answer, rewrite_out};
ghost use Rattle.flat_object.specs.Flat.{flat_object, object_from};
ghost use Rattle.message.specs.Messages.{written_of, written_over};
ghost use Rattle.message.specs.declared.Message.TheVariants.{Transfer};
ghost use Rattle.flat.specs.Flat.{message_from, reading_of};
ghost use Rattle.profile.specs.Profile.{profile_of};
ghost use Rattle.shown.specs.Value.{shown_of, Exact};
ghost use Rattle.printed.specs.Printing.{Prints};
ghost use Rattle.sequence.specs.Sequence.{length_of};
ghost use Rattle.sequence.specs.Editions.{edition_of};
ghost use Rattle.master.specs.States.{new_master};
ghost use Rattle.master.specs.Call.{outcome_of, leaves_of};
ghost use Rattle.master.specs.Clients.{on_call, off_call, attach_call, want_call, report_call, lost_call};
ghost use Rattle.master.specs.Recording.{record_call, stop_call, cancel_call, indication_call};
ghost use Rattle.master.specs.Playback.{start_call, abort_call, client_abort_call, answer_call};
ghost use Rattle.master.specs.Tick.{tick_call};
ghost use Rattle.master.specs.Storing.{store_call, load_call};
ghost use Rattle.master.specs.Editions.{edition_call};
ghost use Rattle.master.specs.Readers.{state_of, slot_view, step_view, client_view, verify_view, progress_of, taken_view, sent_view};
ghost use Rattle.scm.specs.Version.{version};

use flat::{Flat, FlatReading};
use flat_object::FlatObject;
use master::readers::{ClientView, Progress, SentView, SlotView, StepView, TakenView};
use master::{Master, Outcome};
use message::Written;
use playback::Playback;
use playback::named::Named;
use pool::Verdict;
use printed::Printed;
use profile::Profile;
use recording::Recording;
use rewrite::Rewritten;
use sequence::Sequence;
use shown::Shown;

// 2.1.1: major * 1,000,000 + minor * 1,000 + patch.
pub const VERSION: u32 = 2001001;

#[inline(always)]
pub fn scm_version() -> u32
    ensures { result ≡ version }
{
    VERSION
}

#[inline(always)]
pub fn scm_pool_check(bytes: &[u8]) -> Verdict
    ensures { result ≡ verdict_of bytes.now }
{
    pool::check(bytes)
}

#[inline(always)]
pub fn scm_profile_of(bytes: &[u8]) -> Profile
    ensures { result ≡ profile_of bytes.now }
{
    profile::profile_of(bytes)
}

// The object at a place of a pool.
#[inline(always)]
pub fn scm_object_at(bytes: &[u8], place: usize) -> FlatObject
    ensures { result ≡ flat_object place (found_at bytes.now place) }
{
    flat_object::object_at(bytes, place)
}

// The bytes of an object, at a place of the lent buffer.
#[inline(always)]
pub fn scm_write_object(object: FlatObject, place: usize, out: &mut [u8]) -> objects::Written
    ensures value { result ≡ write_answer (object_from object) out.old place }
    ensures out_after { out.new ≡ write_out (object_from object) out.old place }
{
    flat_object::write(&object, place, out)
}

// A pool taken apart and written again.
#[inline(always)]
pub fn scm_pool_rewrite(bytes: &[u8], out: &mut [u8]) -> Rewritten
    ensures value { result ≡ rewrite_answer bytes.now out.old }
    ensures out_after { out.new ≡ rewrite_out bytes.now out.old }
{
    rewrite::rewrite(bytes, out)
}

// What bytes that a side sent say: side 0 is a client, 1 the master.
#[inline(always)]
pub fn scm_read(side: u32, bytes: &[u8]) -> FlatReading
    ensures { result ≡ reading_of side bytes.now }
{
    flat::read(side, bytes)
}

#[inline(always)]
pub fn scm_write(message: Flat, out: &mut [u8]) -> Written
    ensures value { result ≡ written_of (message_from message) message.label [] (length out.old) }
    ensures out_after { out.new ≡ written_over (message_from message) message.label [] out.old }
{
    flat::write(message, out)
}

#[inline(always)]
pub fn scm_write_transfer(pool: &[u8], out: &mut [u8]) -> Written
    ensures value { result ≡ written_of Transfer blank pool.now (length out.old) }
    ensures out_after { out.new ≡ written_over Transfer blank pool.now out.old }
{
    message::write_transfer(pool, out)
}

#[inline(always)]
pub fn scm_shown_of(value: u32, offset: i32, scale: f32) -> Shown
    ensures value { result ≡ shown_of value offset scale }
    ensures exact { Exact value offset scale result }
{
    shown::shown_of(value, offset, scale)
}

#[inline(always)]
pub fn scm_shown_bits(value: u32, offset: i32, scale: u32) -> Shown
    ensures value { result ≡ shown_of value offset (of_bits binary32 scale) }
    ensures exact { Exact value offset (of_bits binary32 scale) result }
{
    shown::shown_bits(value, offset, scale)
}

// The shown value as text.
#[inline(always)]
pub fn scm_write_shown(
    value: u32,
    offset: i32,
    scale: f32,
    decimals: u32,
    out: &mut [u8],
) -> Printed
    ensures { Prints value offset scale decimals out.old out.new result }
{
    printed::print(value, offset, scale, decimals, out)
}

// ---- The master: each event takes the old state and gives back the new one.

#[inline(always)]
pub fn scm_master_new() -> Master
    ensures { result ≡ new_master }
{
    Master::new()
}

#[inline(always)]
pub fn scm_master_on(master: Master) -> Outcome
    ensures { result ≡ outcome_of master (on_call master) }
{
    master.on()
}

#[inline(always)]
pub fn scm_master_off(master: Master) -> Outcome
    ensures { result ≡ outcome_of master (off_call master) }
{
    master.off()
}

#[inline(always)]
pub fn scm_master_attach(master: Master, slot: usize, name: u64, pool: &[u8]) -> Outcome
    ensures { result ≡ outcome_of master (attach_call master slot name pool.now) }
{
    master.attach(slot, name, pool)
}

// E.2 out.
#[inline(always)]
pub fn scm_master_enable(master: Master, slot: usize, out: &mut [u8]) -> Outcome
    ensures value { result ≡ outcome_of master (want_call 1 master slot out.old) }
    ensures out_after { out.new ≡ leaves_of (want_call 1 master slot out.old) }
{
    master.enable(slot, out)
}

// E.2 out.
#[inline(always)]
pub fn scm_master_disable(master: Master, slot: usize, out: &mut [u8]) -> Outcome
    ensures value { result ≡ outcome_of master (want_call 0 master slot out.old) }
    ensures out_after { out.new ≡ leaves_of (want_call 0 master slot out.old) }
{
    master.disable(slot, out)
}

#[inline(always)]
pub fn scm_master_report(master: Master, slot: usize, report: u32) -> Outcome
    ensures { result ≡ outcome_of master (report_call master slot report) }
{
    master.report(slot, report)
}

#[inline(always)]
pub fn scm_master_lost(master: Master, slot: usize) -> Outcome
    ensures { result ≡ outcome_of master (lost_call master slot) }
{
    master.lost(slot)
}

#[inline(always)]
pub fn scm_master_record(master: Master) -> Outcome
    ensures { result ≡ outcome_of master (record_call master) }
{
    master.record()
}

#[inline(always)]
pub fn scm_master_stop(master: Master) -> Outcome
    ensures { result ≡ outcome_of master (stop_call master) }
{
    master.stop()
}

#[inline(always)]
pub fn scm_master_cancel(master: Master) -> Outcome
    ensures { result ≡ outcome_of master (cancel_call master) }
{
    master.cancel()
}

// E.4 in, E.5 out.
#[inline(always)]
pub fn scm_master_indication(master: Master, slot: usize, msg: &[u8], out: &mut [u8]) -> Outcome
    ensures value { result ≡ outcome_of master (indication_call master slot msg.now out.old) }
    ensures out_after { out.new ≡ leaves_of (indication_call master slot msg.now out.old) }
{
    master.indication(slot, msg, out)
}

// E.3 in.
#[inline(always)]
pub fn scm_master_client_abort(master: Master, slot: usize, msg: &[u8]) -> Outcome
    ensures { result ≡ outcome_of master (client_abort_call master slot msg.now) }
{
    master.client_abort(slot, msg)
}

#[inline(always)]
pub fn scm_master_start(master: Master) -> Outcome
    ensures { result ≡ outcome_of master (start_call master) }
{
    master.start()
}

#[inline(always)]
pub fn scm_master_abort(master: Master) -> Outcome
    ensures { result ≡ outcome_of master (abort_call master) }
{
    master.abort()
}

// The frames out: the slot and E.6.
#[inline(always)]
pub fn scm_master_tick(master: Master, mm: u32, out: &mut [u8]) -> Outcome
    ensures value { result ≡ outcome_of master (tick_call master mm out.old) }
    ensures out_after { out.new ≡ leaves_of (tick_call master mm out.old) }
{
    master.tick(mm, out)
}

// E.7 in, E.8 out.
#[inline(always)]
pub fn scm_master_answer(master: Master, slot: usize, msg: &[u8], out: &mut [u8]) -> Outcome
    ensures value { result ≡ outcome_of master (answer_call master slot msg.now out.old) }
    ensures out_after { out.new ≡ leaves_of (answer_call master slot msg.now out.old) }
{
    master.answer(slot, msg, out)
}

// The sequence's blocks out.
#[inline(always)]
pub fn scm_master_store(master: Master, blocks: &mut [u8]) -> Outcome
    ensures value { result ≡ outcome_of master (store_call master blocks.old) }
    ensures blocks_after { blocks.new ≡ leaves_of (store_call master blocks.old) }
{
    master.store(blocks)
}

#[inline(always)]
pub fn scm_master_load(master: Master, blocks: &[u8]) -> Outcome
    ensures { result ≡ outcome_of master (load_call master blocks.now) }
{
    master.load(blocks)
}

#[inline(always)]
pub fn scm_master_edition(master: Master, edition: u32) -> Outcome
    ensures { result ≡ outcome_of master (edition_call master edition) }
{
    master.edition(edition)
}

// ---- The readers: each takes the part of the master that it reads, or the whole where it reads the slots.

#[inline(always)]
pub fn scm_master_state(state: u8) -> u8
    ensures { result ≡ state_of state }
{
    master::readers::state_of(state)
}

#[inline(always)]
pub fn scm_master_slot(master: Master, slot: usize) -> SlotView
    ensures { result ≡ slot_view master slot }
{
    master.slot(slot)
}

#[inline(always)]
pub fn scm_master_step_count(sequence: Sequence) -> usize
    ensures { result ≡ length_of sequence }
{
    sequence.len()
}

#[inline(always)]
pub fn scm_master_sequence_edition(sequence: Sequence) -> u32
    ensures { result ≡ edition_of sequence }
{
    master::readers::edition_of(&sequence)
}

#[inline(always)]
pub fn scm_master_step(sequence: Sequence, i: usize) -> StepView
    ensures { result ≡ step_view sequence i }
{
    master::readers::step_at(&sequence, i)
}

#[inline(always)]
pub fn scm_master_client(sequence: Sequence, slot: usize) -> ClientView
    ensures { result ≡ client_view sequence slot }
{
    master::readers::client_at(&sequence, slot)
}

#[inline(always)]
pub fn scm_master_verify(master: Master) -> Named
    ensures { result ≡ verify_view master }
{
    master.verify()
}

#[inline(always)]
pub fn scm_master_progress(state: u8, recording: Recording, playback: Playback) -> Progress
    ensures { result ≡ progress_of state recording playback }
{
    master::readers::progress_of(state, &recording, &playback)
}

#[inline(always)]
pub fn scm_master_taken(recording: Recording, i: usize) -> TakenView
    ensures { result ≡ taken_view recording i }
{
    master::readers::taken_at(&recording, i)
}

#[inline(always)]
pub fn scm_master_sent(playback: Playback, i: usize) -> SentView
    ensures { result ≡ sent_view playback i }
{
    master::readers::sent_at(&playback, i)
}
