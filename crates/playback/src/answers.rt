// What an answer says, and which step a message is for.
ghost use Rattle.std.specs.Prelude.{◌≡◌, position};
ghost use Rattle.message.specs.Fields.{status_number};
ghost use Rattle.arrays.specs.Arrays.{some};
ghost use Rattle.playback.specs.Pairs.{pairs};
ghost use Rattle.playback.specs.State.{heard_number, is_undone};
ghost use Rattle.playback.specs.Answer.{is_answer_of, is_error, answer_from, is_function_of};

use crate::{Heard, Sent};
use message::{Reply, Status};
use sequence::Step;

fn is_answer_of(step: &Step, sent: &Sent, slot: u8, reply: Reply) -> bool
    ensures { result ≡ is_answer_of slot reply.tan reply.function reply.state step.now sent.now }
{
    (step.slot == slot)
        & (sent.tan == reply.tan)
        & (step.function == reply.function)
        & (step.state == reply.state)
}

// The number of the first sent step that an answer of this slot matches.
pub fn find(steps: &[Step], left: &[Sent], slot: u8, reply: Reply) -> Option<usize>
    ensures { result ≡ position (λ x. is_answer_of slot reply.tan reply.function reply.state x.0 x.1) (pairs steps.now left.now) }
{
    steps
        .iter()
        .zip(left)
        .position(|(step, sent)| is_answer_of(step, sent, slot, reply))
}

pub fn is_error(reply: Reply) -> bool
    ensures { result ≡ is_error (status_number reply.status) reply.error }
{
    matches!(reply.status, Status::Failed) | (reply.error != 0)
}

#[tactic(auto, unfolding(crate::specs::Answer::answer_from, octets::specs::Pick::pick))]
pub fn heard_from(status: Status) -> Heard
    ensures { heard_number result ≡ answer_from (status_number status) }
{
    match status {
        Status::Started => Heard::Started,
        Status::AtOnce | Status::Done | Status::Failed => Heard::Done,
    }
}

fn is_undone(sent: &Sent) -> bool
    ensures { result ≡ is_undone sent.now }
{
    sent.answer != Heard::Done as u8
}

pub fn some_undone(left: &[Sent]) -> bool
    ensures { result ≡ some is_undone left.now }
{
    left.iter().any(is_undone)
}

fn is_function_of(step: &Step, slot: u8, function: u8) -> bool
    ensures { result ≡ is_function_of slot function step.now }
{
    (step.slot == slot) & (step.function == function)
}

pub fn some_function(steps: &[Step], slot: u8, function: u8) -> bool
    ensures { result ≡ some (is_function_of slot function) steps.now }
{
    steps
        .iter()
        .any(|step| is_function_of(step, slot, function))
}
