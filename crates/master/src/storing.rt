// The sequence as blocks: stored, and loaded from them.
ghost use Rattle.std.specs.Prelude.{◌≡◌, IfOk};
ghost use Rattle.octets.specs.Refusals.{answer_number};
ghost use Rattle.store.specs.Loaded.{load_number, loaded_of};
ghost use Rattle.master.specs.Call.{gives, counted, outcome_of, leaves_of};
ghost use Rattle.master.specs.Storing.{unstored, store_call, load_call};

use crate::messages::has_room;
use crate::{Master, Outcome, State};
use octets::numbers::Refusal;
use sequence::Sequence;
use store::loading::load;
use store::storing::{store, store_bytes};

impl Master {
    // The blocks out; count is how many bytes they are.
    pub fn store(self, out: &mut [u8]) -> Outcome
        ensures value { result ≡ outcome_of self (store_call self out.old) }
        ensures out_after { out.new ≡ leaves_of (store_call self out.old) }
    {
        let answer = self.write_blocks(out);
        self.counts(answer)
    }

    #[inline(never)]
    #[tactic(auto, using(crate::proofs::Calls::calls, crate::proofs::Stores::few_bytes, crate::proofs::Stores::some_step), unfolding(crate::specs::Storing::store_call))]
    fn write_blocks(&self, out: &mut [u8]) -> Result<u32, Refusal>
        ensures value { counted result self.now ≡ outcome_of self.now (store_call self.now out.old) }
        ensures out_after { out.new ≡ leaves_of (store_call self.now out.old) }
    {
        let bytes = store_bytes(&self.sequence);
        has_room(out, bytes)?;
        self.in_state(State::Ready)?;
        has_steps(&self.sequence)?;
        store(&self.sequence, out);
        Ok(bytes as u32)
    }

    // Blocks are judged only where the state allows it.
    pub fn load(mut self, blocks: &[u8]) -> Outcome
        ensures { result ≡ outcome_of self (load_call self blocks.now) }
    {
        let answer = self.read_blocks(blocks);
        self.answers(answer)
    }

    #[inline(never)]
    #[tactic(auto, using(crate::proofs::Calls::calls), unfolding(crate::specs::Storing::load_call))]
    fn read_blocks(&mut self, blocks: &[u8]) -> Result<(), Refusal>
        ensures { gives (answer_number result) self.new
            ≡ outcome_of self.old (load_call self.old blocks.now) }
    {
        self.in_state(State::Ready)?;
        self.sequence = loaded(blocks)?;
        Ok(())
    }
}

// Number 7 where there is no sequence.
#[tactic(auto, unfolding(crate::specs::Storing::unstored, octets::specs::Pick::pick))]
fn has_steps(sequence: &Sequence) -> Result<(), Refusal>
    ensures { answer_number result ≡ unstored sequence.now }
{
    if sequence.len() == 0 {
        return Err(Refusal::NoStep);
    }
    Ok(())
}

// The sequence that the blocks say, or why there is none.
#[tactic(auto, unfolding(store::specs::Loaded::loaded_of, octets::specs::Pick::pick))]
fn loaded(blocks: &[u8]) -> Result<Sequence, Refusal>
    ensures number { answer_number result ≡ load_number blocks.now }
    ensures sequence { IfOk result (λ sequence. sequence ≡ (loaded_of blocks.now).sequence) }
{
    load(blocks)
}
