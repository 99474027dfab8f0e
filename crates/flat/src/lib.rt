// A message as a C caller has it: numbers only, with the label's bytes.
#![tactic(auto)]

ghost use Rattle.std.specs.Prelude.{◌≡◌, [], length};
ghost use Rattle.message.specs.Messages.{written_of, written_over};
ghost use Rattle.flat.specs.Flat.{kind_of, bare_flat, execution_step, reply_step, order_step, receipt_step, flat_of, stated, execution_from, reply_from, order_from, receipt_from, message_from, reading_of, BackAgain};
ghost use Rattle.flat.specs.ReadBack.{ReadBack};

use message::fields::status_from;
use message::{Capability, Execution, Message, Order, Receipt, Reply, Said, Status, Written};
use octets::label::{Label, blank};
use octets::numbers::DONE;

pub mod kinds;

// E.4 to E.8. A message that lacks one of the fields has 0 there, and it is not looked at.
#[repr(C)]
#[derive(Clone, Copy, Default)]
pub struct MessageStep {
    pub function: u8,
    pub state: u8,
    pub status: u8,
    pub error: u8,
    pub tan: u8,
    pub value: u32,
}

#[repr(C)]
#[derive(Clone, Copy)]
pub struct Flat {
    // As module kinds has it.
    pub kind: u8,
    // C.2 version; C.5 status; D.3, D.5, D.7, D.11, D.13, D.15 and E.3 error; D.9 code; D.10 memory; E.2 state.
    pub code: u8,
    // E.2.
    pub reason: u8,
    // D.9.
    pub object: u16,
    // C.4.
    pub memory: u32,
    // C.3.
    pub capability: Capability,
    // E.4 to E.8.
    pub step: MessageStep,
    // D.3 and D.5.
    pub label: Label,
}

#[repr(C)]
#[derive(Clone, Copy)]
pub struct FlatReading {
    pub number: u8,
    pub message: Flat,
}

fn kind_of(message: Message) -> u8
    ensures { result ≡ kind_of message }
{
    match message {
        Message::Nothing => kinds::NOTHING,
        Message::CapabilityRequest(_) => kinds::CAPABILITY_REQUEST,
        Message::CapabilityResponse(_) => kinds::CAPABILITY_RESPONSE,
        Message::MemoryRequest(_) => kinds::MEMORY_REQUEST,
        Message::MemoryResponse(_) => kinds::MEMORY_RESPONSE,
        Message::VersionRequest => kinds::VERSION_REQUEST,
        Message::VersionResponse(_) => kinds::VERSION_RESPONSE,
        Message::ConfigurationRequest => kinds::CONFIGURATION_REQUEST,
        Message::ConfigurationResponse(_) => kinds::CONFIGURATION_RESPONSE,
        Message::Transfer => kinds::TRANSFER,
        Message::TransferResponse(_) => kinds::TRANSFER_RESPONSE,
        Message::ActivationCommand => kinds::ACTIVATION_COMMAND,
        Message::PoolAcknowledgement(_, _) => kinds::POOL_ACKNOWLEDGEMENT,
        Message::DeleteCommand(_) => kinds::DELETE_COMMAND,
        Message::DeleteResponse(_) => kinds::DELETE_RESPONSE,
        Message::StoreCommand => kinds::STORE_COMMAND,
        Message::StoreResponse(_) => kinds::STORE_RESPONSE,
        Message::LoadCommand => kinds::LOAD_COMMAND,
        Message::LoadResponse(_) => kinds::LOAD_RESPONSE,
        Message::StateCommand(_, _) => kinds::STATE_COMMAND,
        Message::ClientAbort(_) => kinds::CLIENT_ABORT,
        Message::Indication(_) => kinds::INDICATION,
        Message::IndicationResponse(_) => kinds::INDICATION_RESPONSE,
        Message::Command(_) => kinds::COMMAND,
        Message::Answer(_) => kinds::ANSWER,
        Message::AnswerAcknowledgement(_) => kinds::ANSWER_ACKNOWLEDGEMENT,
    }
}

// A message with no values yet, beside its label.
fn bare_flat(kind: u8, label: Label) -> Flat
    ensures { result ≡ bare_flat kind label }
{
    Flat {
        kind,
        code: 0,
        reason: 0,
        object: 0,
        memory: 0,
        capability: Capability::default(),
        step: MessageStep::default(),
        label,
    }
}

// ---- from a message

// E.4.
impl From<Execution> for MessageStep {
    ghost from_gives = { λ e x. x ≡ execution_step e };

    fn from(e: Execution) -> MessageStep {
        MessageStep {
            function: e.function,
            state: e.state,
            status: e.status.number(),
            error: 0,
            tan: e.tan,
            value: e.value,
        }
    }
}

// E.5 and E.7.
impl From<Reply> for MessageStep {
    ghost from_gives = { λ r x. x ≡ reply_step r };

    fn from(r: Reply) -> MessageStep {
        MessageStep {
            function: r.function,
            state: r.state,
            status: r.status.number(),
            error: r.error,
            tan: r.tan,
            value: 0,
        }
    }
}

// E.6.
impl From<Order> for MessageStep {
    ghost from_gives = { λ o x. x ≡ order_step o };

    fn from(o: Order) -> MessageStep {
        MessageStep {
            function: o.function,
            state: o.state,
            status: 0,
            error: 0,
            tan: o.tan,
            value: o.value,
        }
    }
}

// E.8.
impl From<Receipt> for MessageStep {
    ghost from_gives = { λ r x. x ≡ receipt_step r };

    fn from(r: Receipt) -> MessageStep {
        MessageStep {
            function: r.function,
            state: r.state,
            status: r.status.number(),
            error: 0,
            tan: r.tan,
            value: 0,
        }
    }
}

impl From<Said> for Flat {
    ghost from_gives = { λ said flat. flat ≡ flat_of said.message said.label };

    fn from(said: Said) -> Flat {
        let mut flat = bare_flat(kind_of(said.message), said.label);
        match said.message {
            Message::CapabilityRequest(code)
            | Message::MemoryResponse(code)
            | Message::VersionResponse(code)
            | Message::ConfigurationResponse(code)
            | Message::TransferResponse(code)
            | Message::DeleteCommand(code)
            | Message::DeleteResponse(code)
            | Message::StoreResponse(code)
            | Message::LoadResponse(code)
            | Message::ClientAbort(code) => flat.code = code,
            Message::CapabilityResponse(capability) => flat.capability = capability,
            Message::MemoryRequest(memory) => flat.memory = memory,
            Message::PoolAcknowledgement(code, object) => {
                flat.code = code;
                flat.object = object;
            }
            Message::StateCommand(state, reason) => {
                flat.code = state;
                flat.reason = reason;
            }
            Message::Indication(e) => flat.step = MessageStep::from(e),
            Message::IndicationResponse(r) | Message::Answer(r) => flat.step = MessageStep::from(r),
            Message::Command(o) => flat.step = MessageStep::from(o),
            Message::AnswerAcknowledgement(r) => flat.step = MessageStep::from(r),
            Message::Nothing
            | Message::VersionRequest
            | Message::ConfigurationRequest
            | Message::Transfer
            | Message::ActivationCommand
            | Message::StoreCommand
            | Message::LoadCommand => {}
        }
        flat
    }
}

// ---- to a message

// None where no status has the number.
fn stated(status: u8, message: Message) -> Message
    ensures { result ≡ stated status message }
{
    match Status::try_from(status) {
        Ok(_) => message,
        Err(_) => Message::Nothing,
    }
}

impl From<MessageStep> for Execution {
    ghost from_gives = { λ x e. e ≡ execution_from x };

    fn from(x: MessageStep) -> Execution {
        Execution {
            function: x.function,
            state: x.state,
            status: status_from(x.status),
            tan: x.tan,
            value: x.value,
        }
    }
}

impl From<MessageStep> for Reply {
    ghost from_gives = { λ x r. r ≡ reply_from x };

    fn from(x: MessageStep) -> Reply {
        Reply {
            function: x.function,
            state: x.state,
            status: status_from(x.status),
            error: x.error,
            tan: x.tan,
        }
    }
}

impl From<MessageStep> for Order {
    ghost from_gives = { λ x o. o ≡ order_from x };

    fn from(x: MessageStep) -> Order {
        Order {
            function: x.function,
            state: x.state,
            tan: x.tan,
            value: x.value,
        }
    }
}

impl From<MessageStep> for Receipt {
    ghost from_gives = { λ x r. r ≡ receipt_from x };

    fn from(x: MessageStep) -> Receipt {
        Receipt {
            function: x.function,
            state: x.state,
            status: status_from(x.status),
            tan: x.tan,
        }
    }
}

impl From<Flat> for Message {
    ghost from_gives = { λ flat message. message ≡ message_from flat };

    #[tactic(auto, unfolding(crate::specs::Flat::message_from, octets::specs::Pick::pick))]
    fn from(flat: Flat) -> Message {
        let x = flat.step;
        match flat.kind {
            kinds::CAPABILITY_REQUEST => Message::CapabilityRequest(flat.code),
            kinds::CAPABILITY_RESPONSE => Message::CapabilityResponse(flat.capability),
            kinds::MEMORY_REQUEST => Message::MemoryRequest(flat.memory),
            kinds::MEMORY_RESPONSE => Message::MemoryResponse(flat.code),
            kinds::VERSION_REQUEST => Message::VersionRequest,
            kinds::VERSION_RESPONSE => Message::VersionResponse(flat.code),
            kinds::CONFIGURATION_REQUEST => Message::ConfigurationRequest,
            kinds::CONFIGURATION_RESPONSE => Message::ConfigurationResponse(flat.code),
            kinds::TRANSFER => Message::Transfer,
            kinds::TRANSFER_RESPONSE => Message::TransferResponse(flat.code),
            kinds::ACTIVATION_COMMAND => Message::ActivationCommand,
            kinds::POOL_ACKNOWLEDGEMENT => Message::PoolAcknowledgement(flat.code, flat.object),
            kinds::DELETE_COMMAND => Message::DeleteCommand(flat.code),
            kinds::DELETE_RESPONSE => Message::DeleteResponse(flat.code),
            kinds::STORE_COMMAND => Message::StoreCommand,
            kinds::STORE_RESPONSE => Message::StoreResponse(flat.code),
            kinds::LOAD_COMMAND => Message::LoadCommand,
            kinds::LOAD_RESPONSE => Message::LoadResponse(flat.code),
            kinds::STATE_COMMAND => Message::StateCommand(flat.code, flat.reason),
            kinds::CLIENT_ABORT => Message::ClientAbort(flat.code),
            kinds::INDICATION => stated(x.status, Message::Indication(Execution::from(x))),
            kinds::INDICATION_RESPONSE => stated(
                x.status,
                Message::IndicationResponse(Reply::from(x)),
            ),
            kinds::COMMAND => Message::Command(Order::from(x)),
            kinds::ANSWER => stated(x.status, Message::Answer(Reply::from(x))),
            kinds::ANSWER_ACKNOWLEDGEMENT => stated(
                x.status,
                Message::AnswerAcknowledgement(Receipt::from(x)),
            ),
            kinds::NOTHING | 26..=255 => Message::Nothing,
        }
    }
}

// What bytes that a side sent say.
pub fn read(side: u32, bytes: &[u8]) -> FlatReading
    ensures { result ≡ reading_of side bytes.now }
{
    match message::read(side, bytes) {
        Ok(said) => FlatReading {
            number: DONE,
            message: Flat::from(said),
        },
        Err(why) => FlatReading {
            number: why.number(),
            message: bare_flat(kinds::NOTHING, blank()),
        },
    }
}

// Lays a message in a slice.
pub fn write(flat: Flat, out: &mut [u8]) -> Written
    ensures value { result ≡ written_of (message_from flat) flat.label [] (length out.old) }
    ensures out_after { out.new ≡ written_over (message_from flat) flat.label [] out.old }
{
    message::write(Message::from(flat), flat.label, out)
}

// What holds of the definitions that the contracts above cite.
pub fn promises()
    ensures { BackAgain }
{}

// What `write` wrote, `read` reads back: nothing is done, the contract says so.
pub fn read_back()
    ensures { ReadBack }
{}
