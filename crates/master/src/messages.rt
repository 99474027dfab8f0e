// What a call reads and writes: the room for it, and the answers E.5 and E.8.
ghost use Rattle.std.specs.Prelude.{◌≡◌, ltb, length};
ghost use Rattle.octets.specs.declared.numbers.Refusal.TheVariants.{TooShort};
ghost use Rattle.master.specs.Call.{Refuses};
ghost use Rattle.master.specs.Messages.{response_out, receipt_out};

use message::{Execution, Message, Receipt, Reply};
use octets::label::blank;
use octets::numbers::Refusal;

// E.5.
#[tactic(auto, unfolding(crate::specs::Messages::response_out))]
pub(crate) fn write_response(e: Execution, error: u8, out: &mut [u8])
    ensures { out.new ≡ response_out e error out.old }
{
    let status = e.status;
    let reply = Reply {
        function: e.function,
        state: e.state,
        status,
        error,
        tan: e.tan,
    };
    message::write(Message::IndicationResponse(reply), blank(), out);
}

// E.8.
#[tactic(auto, unfolding(crate::specs::Messages::receipt_out))]
pub(crate) fn write_receipt(r: Reply, out: &mut [u8])
    ensures { out.new ≡ receipt_out r out.old }
{
    let status = r.status;
    let receipt = Receipt {
        function: r.function,
        state: r.state,
        status,
        tan: r.tan,
    };
    message::write(Message::AnswerAcknowledgement(receipt), blank(), out);
}

// Number 1 where fewer bytes are lent than are needed.
pub(crate) fn has_room(out: &[u8], needs: usize) -> Result<(), Refusal>
    ensures { Refuses (ltb (length out.now) needs) TooShort result }
{
    if out.len() < needs {
        return Err(Refusal::TooShort);
    }
    Ok(())
}
