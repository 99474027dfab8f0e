// Each call for C gives back what the definitions say of which the theorems speak: nothing is added here, each function only makes the call.
#![tactic(auto)]

ghost use Rattle.std.specs.Prelude.{[]};
ghost use Rattle.events.specs.Events.{on, off, «record», stop, cancel, start, abort, attach, enable, disable, report, lost, indication, client_abort, tick, answer, store, load, edition};
ghost use Rattle.bound.specs.Exported.{Allowed, AllowedText, Determined};
ghost use Rattle.bound.specs.Exported.{library_version, pool_check, pool_kept, object_at, write_object, pool_rewrite, read_message, write_message, write_transfer, show, show_bits, made, event};
ghost use Rattle.bound.specs.Exported.{read_state, read_step_count, read_edition, read_slot, read_step, read_client, read_verify, read_progress, read_taken, read_sent};

use flat::{Flat, FlatReading};
use flat_object::FlatObject;
use master::readers::{ClientView, Progress, SentView, SlotView, StepView, TakenView};
use master::{Master, Outcome};
use message::Written;
use playback::Playback;
use playback::named::Named;
use pool::Verdict;
use printed::Printed;
use profile::Profile;
use recording::Recording;
use rewrite::Rewritten;
use sequence::Sequence;
use shown::Shown;

pub fn version() -> u32
    ensures { Allowed library_version (result, []) }
{
    scm::scm_version()
}

pub fn pool_check(bytes: &[u8]) -> Verdict
    ensures { Allowed (pool_check bytes.now) (result, []) }
{
    scm::scm_pool_check(bytes)
}

pub fn profile_of(bytes: &[u8]) -> Profile
    ensures { Allowed (pool_kept bytes.now) (result, []) }
{
    scm::scm_profile_of(bytes)
}

pub fn object_at(bytes: &[u8], place: usize) -> FlatObject
    ensures { Allowed (object_at bytes.now place) (result, []) }
{
    scm::scm_object_at(bytes, place)
}

pub fn write_object(object: FlatObject, place: usize, out: &mut [u8]) -> objects::Written
    ensures { Allowed (write_object object place out.old) (result, out.new) }
{
    scm::scm_write_object(object, place, out)
}

pub fn pool_rewrite(bytes: &[u8], out: &mut [u8]) -> Rewritten
    ensures { Allowed (pool_rewrite bytes.now out.old) (result, out.new) }
{
    scm::scm_pool_rewrite(bytes, out)
}

pub fn read(side: u32, bytes: &[u8]) -> FlatReading
    ensures { Allowed (read_message side bytes.now) (result, []) }
{
    scm::scm_read(side, bytes)
}

pub fn write(message: Flat, out: &mut [u8]) -> Written
    ensures { Allowed (write_message message out.old) (result, out.new) }
{
    scm::scm_write(message, out)
}

pub fn write_transfer(pool: &[u8], out: &mut [u8]) -> Written
    ensures { Allowed (write_transfer pool.now out.old) (result, out.new) }
{
    scm::scm_write_transfer(pool, out)
}

pub fn shown_of(value: u32, offset: i32, scale: f32) -> Shown
    ensures { Allowed (show value offset scale) (result, []) }
{
    scm::scm_shown_of(value, offset, scale)
}

pub fn shown_bits(value: u32, offset: i32, scale: u32) -> Shown
    ensures { Allowed (show_bits value offset scale) (result, []) }
{
    scm::scm_shown_bits(value, offset, scale)
}

pub fn write_shown(value: u32, offset: i32, scale: f32, decimals: u32, out: &mut [u8]) -> Printed
    ensures { AllowedText value offset scale decimals out.old (result, out.new) }
{
    scm::scm_write_shown(value, offset, scale, decimals, out)
}

pub fn master_new() -> Master
    ensures { Allowed made (result, []) }
{
    scm::scm_master_new()
}

pub fn master_on(master: Master) -> Outcome
    ensures { Allowed (event master on) (result, []) }
{
    scm::scm_master_on(master)
}

pub fn master_off(master: Master) -> Outcome
    ensures { Allowed (event master off) (result, []) }
{
    scm::scm_master_off(master)
}

pub fn master_attach(master: Master, slot: usize, name: u64, pool: &[u8]) -> Outcome
    ensures { Allowed (event master (attach slot name pool.now)) (result, []) }
{
    scm::scm_master_attach(master, slot, name, pool)
}

pub fn master_enable(master: Master, slot: usize, out: &mut [u8]) -> Outcome
    ensures { Allowed (event master (enable slot out.old)) (result, out.new) }
{
    scm::scm_master_enable(master, slot, out)
}

pub fn master_disable(master: Master, slot: usize, out: &mut [u8]) -> Outcome
    ensures { Allowed (event master (disable slot out.old)) (result, out.new) }
{
    scm::scm_master_disable(master, slot, out)
}

pub fn master_report(master: Master, slot: usize, number: u32) -> Outcome
    ensures { Allowed (event master (report slot number)) (result, []) }
{
    scm::scm_master_report(master, slot, number)
}

pub fn master_lost(master: Master, slot: usize) -> Outcome
    ensures { Allowed (event master (lost slot)) (result, []) }
{
    scm::scm_master_lost(master, slot)
}

pub fn master_record(master: Master) -> Outcome
    ensures { Allowed (event master «record») (result, []) }
{
    scm::scm_master_record(master)
}

pub fn master_stop(master: Master) -> Outcome
    ensures { Allowed (event master stop) (result, []) }
{
    scm::scm_master_stop(master)
}

pub fn master_cancel(master: Master) -> Outcome
    ensures { Allowed (event master cancel) (result, []) }
{
    scm::scm_master_cancel(master)
}

pub fn master_indication(master: Master, slot: usize, msg: &[u8], out: &mut [u8]) -> Outcome
    ensures { Allowed (event master (indication slot msg.now out.old)) (result, out.new) }
{
    scm::scm_master_indication(master, slot, msg, out)
}

pub fn master_client_abort(master: Master, slot: usize, msg: &[u8]) -> Outcome
    ensures { Allowed (event master (client_abort slot msg.now)) (result, []) }
{
    scm::scm_master_client_abort(master, slot, msg)
}

pub fn master_start(master: Master) -> Outcome
    ensures { Allowed (event master start) (result, []) }
{
    scm::scm_master_start(master)
}

pub fn master_abort(master: Master) -> Outcome
    ensures { Allowed (event master abort) (result, []) }
{
    scm::scm_master_abort(master)
}

pub fn master_tick(master: Master, mm: u32, out: &mut [u8]) -> Outcome
    ensures { Allowed (event master (tick mm out.old)) (result, out.new) }
{
    scm::scm_master_tick(master, mm, out)
}

pub fn master_answer(master: Master, slot: usize, msg: &[u8], out: &mut [u8]) -> Outcome
    ensures { Allowed (event master (answer slot msg.now out.old)) (result, out.new) }
{
    scm::scm_master_answer(master, slot, msg, out)
}

pub fn master_store(master: Master, blocks: &mut [u8]) -> Outcome
    ensures { Allowed (event master (store blocks.old)) (result, blocks.new) }
{
    scm::scm_master_store(master, blocks)
}

pub fn master_load(master: Master, blocks: &[u8]) -> Outcome
    ensures { Allowed (event master (load blocks.now)) (result, []) }
{
    scm::scm_master_load(master, blocks)
}

pub fn master_edition(master: Master, n: u32) -> Outcome
    ensures { Allowed (event master (edition n)) (result, []) }
{
    scm::scm_master_edition(master, n)
}

pub fn master_state(state: u8) -> u8
    ensures { Allowed (read_state state) (result, []) }
{
    scm::scm_master_state(state)
}

pub fn master_slot(master: Master, slot: usize) -> SlotView
    ensures { Allowed (read_slot master slot) (result, []) }
{
    scm::scm_master_slot(master, slot)
}

pub fn master_step_count(sequence: Sequence) -> usize
    ensures { Allowed (read_step_count sequence) (result, []) }
{
    scm::scm_master_step_count(sequence)
}

pub fn master_sequence_edition(sequence: Sequence) -> u32
    ensures { Allowed (read_edition sequence) (result, []) }
{
    scm::scm_master_sequence_edition(sequence)
}

pub fn master_step(sequence: Sequence, i: usize) -> StepView
    ensures { Allowed (read_step sequence i) (result, []) }
{
    scm::scm_master_step(sequence, i)
}

pub fn master_client(sequence: Sequence, slot: usize) -> ClientView
    ensures { Allowed (read_client sequence slot) (result, []) }
{
    scm::scm_master_client(sequence, slot)
}

pub fn master_verify(master: Master) -> Named
    ensures { Allowed (read_verify master) (result, []) }
{
    scm::scm_master_verify(master)
}

pub fn master_progress(state: u8, recording: Recording, playback: Playback) -> Progress
    ensures { Allowed (read_progress state recording playback) (result, []) }
{
    scm::scm_master_progress(state, recording, playback)
}

pub fn master_taken(recording: Recording, i: usize) -> TakenView
    ensures { Allowed (read_taken recording i) (result, []) }
{
    scm::scm_master_taken(recording, i)
}

pub fn master_sent(playback: Playback, i: usize) -> SentView
    ensures { Allowed (read_sent playback i) (result, []) }
{
    scm::scm_master_sent(playback, i)
}

// "Prove any two outcomes it allows equal", over every call for C; there is no exception.
pub fn determined()
    ensures { Determined }
{}
