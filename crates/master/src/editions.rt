// The edition of the sequence: by which rule its clients' NAMEs are verified.
ghost use Rattle.std.specs.Prelude.{◌≡◌};
ghost use Rattle.octets.specs.Refusals.{answer_number};
ghost use Rattle.master.specs.Call.{gives, outcome_of};
ghost use Rattle.master.specs.Editions.{unset, edition_call};

use crate::{Master, Outcome, State};
use octets::numbers::Refusal;
use sequence::{Sequence, is_edition};

impl Master {
    // Sets the edition of the sequence.
    pub fn edition(mut self, edition: u32) -> Outcome
        ensures { result ≡ outcome_of self (edition_call self edition) }
    {
        let answer = self.set_edition(edition);
        self.answers(answer)
    }

    #[tactic(auto, using(crate::proofs::Calls::calls), unfolding(crate::specs::Editions::edition_call))]
    fn set_edition(&mut self, edition: u32) -> Result<(), Refusal>
        ensures { gives (answer_number result) self.new
            ≡ outcome_of self.old (edition_call self.old edition) }
    {
        self.in_state(State::Ready)?;
        can_set(&self.sequence, edition)?;
        self.sequence.edition = edition;
        Ok(())
    }
}

// Number 7 where there is no sequence, 17 for an unknown edition.
#[tactic(auto, unfolding(crate::specs::Editions::unset, octets::specs::Pick::pick))]
fn can_set(sequence: &Sequence, edition: u32) -> Result<(), Refusal>
    ensures { answer_number result ≡ unset sequence.now edition }
{
    if sequence.len() == 0 {
        return Err(Refusal::NoStep);
    }
    if !is_edition(edition) {
        return Err(Refusal::NotStored);
    }
    Ok(())
}
