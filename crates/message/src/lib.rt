// Messages C.2 to C.5, D.2 to D.15 and E.2 to E.8 of ISO 11783-14: read, by the side that sent them, and written.
#![tactic(auto)]

ghost use Rattle.std.specs.Prelude.{◌≡◌, ◌≤◌, [], length};
ghost use Rattle.octets.specs.Label.{blank};
ghost use Rattle.message.specs.Fields.{status_number, status_numbered};
ghost use Rattle.message.specs.Messages.{reading, written, read_of, pool_of, written_of, written_over};
ghost use Rattle.message.specs.Clauses.{Clauses};
ghost use Rattle.message.specs.Promises.{ComesBack, Refuses, MessageCases};
ghost use Rattle.message.specs.declared.Message.TheVariants.{Transfer};

use octets::label::{Label, blank, label_at};
use octets::numbers::{DONE, Refusal};
use octets::{byte_at, part};

pub mod fields;
pub mod forms;
pub mod layout;

// The side that sent a message, as the C interface has it: a host may hand any number, and of another side every message is refused.
pub const CLIENT: u32 = 0;

pub const MASTER: u32 = 1;

// The execution status of E.4, E.5, E.7 and E.8: bits 7 and 8 of byte 3.
#[derive(Clone, Copy, Debug, PartialEq, Eq)]
pub enum Status {
    AtOnce = 0b00,
    Started = 0b01,
    Done = 0b10,
    Failed = 0b11,
}

// A number that no status has.
#[derive(Clone, Copy, Debug, PartialEq, Eq)]
pub struct NoStatus(pub u8);

impl Status {
    pub fn number(self) -> u8
        ensures value { result ≡ status_number self }
        ensures two_bits { result ≤ 3 }
    {
        self as u8
    }
}

impl TryFrom<u8> for Status {
    type Error = NoStatus;

    ghost try_from_gives = { λ number r. r ≡ status_numbered number };

    #[tactic(auto, unfolding(crate::specs::Fields::status_from, octets::specs::Pick::pick))]
    fn try_from(number: u8) -> Result<Self, NoStatus> {
        match number {
            0b00 => Ok(Status::AtOnce),
            0b01 => Ok(Status::Started),
            0b10 => Ok(Status::Done),
            0b11 => Ok(Status::Failed),
            _ => Err(NoStatus(number)),
        }
    }
}

// C.3. The last four are the font's.
#[repr(C)]
#[derive(Clone, Copy, Default)]
pub struct Capability {
    pub version: u8,
    pub width: u8,
    pub height: u8,
    pub characters: u16,
    pub colour: u8,
    pub size: u8,
    pub font: u8,
    pub style: u8,
}

// E.4.
#[derive(Clone, Copy)]
pub struct Execution {
    pub function: u8,
    pub state: u8,
    pub status: Status,
    pub tan: u8,
    pub value: u32,
}

// E.5 and E.7.
#[derive(Clone, Copy)]
pub struct Reply {
    pub function: u8,
    pub state: u8,
    pub status: Status,
    pub error: u8,
    pub tan: u8,
}

// E.6.
#[derive(Clone, Copy)]
pub struct Order {
    pub function: u8,
    pub state: u8,
    pub tan: u8,
    pub value: u32,
}

// E.8.
#[derive(Clone, Copy)]
pub struct Receipt {
    pub function: u8,
    pub state: u8,
    pub status: Status,
    pub tan: u8,
}

// The label of D.3 and D.5 and the pool of D.6 stand beside the message.
#[derive(Clone, Copy)]
pub enum Message {
    // None: what a code says that its side does not send, or a kind that the C interface does not have.
    Nothing,
    // C.2: the version.
    CapabilityRequest(u8),
    // C.3.
    CapabilityResponse(Capability),
    // C.4: the bytes of memory.
    MemoryRequest(u32),
    // C.5: the status.
    MemoryResponse(u8),
    // D.2.
    VersionRequest,
    // D.3: the error.
    VersionResponse(u8),
    // D.4.
    ConfigurationRequest,
    // D.5: the error.
    ConfigurationResponse(u8),
    // D.6.
    Transfer,
    // D.7: the error.
    TransferResponse(u8),
    // D.8.
    ActivationCommand,
    // D.9: the code, and the object at fault.
    PoolAcknowledgement(u8, u16),
    // D.10: the memory.
    DeleteCommand(u8),
    // D.11: the error.
    DeleteResponse(u8),
    // D.12.
    StoreCommand,
    // D.13: the error.
    StoreResponse(u8),
    // D.14.
    LoadCommand,
    // D.15: the error.
    LoadResponse(u8),
    // E.2: the state and the reason.
    StateCommand(u8, u8),
    // E.3: the error.
    ClientAbort(u8),
    // E.4.
    Indication(Execution),
    // E.5.
    IndicationResponse(Reply),
    // E.6.
    Command(Order),
    // E.7.
    Answer(Reply),
    // E.8.
    AnswerAcknowledgement(Receipt),
}

// What bytes say: a message, with its label.
#[derive(Clone, Copy)]
pub struct Said {
    pub message: Message,
    pub label: Label,
}

// Where number is not 0, length is 0.
#[repr(C)]
#[derive(Clone, Copy)]
pub struct Written {
    pub number: u8,
    pub length: usize,
}

impl From<Result<usize, Refusal>> for Written {
    ghost from_gives = { λ laid r. r ≡ written laid };

    fn from(laid: Result<usize, Refusal>) -> Written {
        match laid {
            Ok(length) => Written {
                number: DONE,
                length,
            },
            Err(why) => Written {
                number: why.number(),
                length: 0,
            },
        }
    }
}

// What bytes that a side sent say.
#[tactic(auto, unfolding(crate::specs::Messages::read_of, octets::specs::Pick::pick))]
pub fn read(side: u32, bytes: &[u8]) -> Result<Said, Refusal>
    ensures { reading result ≡ read_of side bytes.now }
{
    let message = layout::layout_of(side, bytes);
    let form = forms::form_of(
        message,
        byte_at(bytes, 2) % 64,
        bytes.len().saturating_sub(1),
    );
    if (form.length == bytes.len()) & form.allowed {
        return Ok(Said {
            message,
            label: label_at(bytes, 3, form.label),
        });
    }
    Err(Refusal::WrongValue)
}

// The pool that a transfer, D.6, brings.
pub fn pool_of(bytes: &[u8]) -> &[u8]
    ensures { result.now ≡ pool_of bytes.now }
{
    part(bytes, 1, bytes.len())
}

// Lays a message, and the label beside it, in a slice. A transfer is laid by write_transfer.
pub fn write(message: Message, label: Label, out: &mut [u8]) -> Written
    ensures value { result ≡ written_of message label [] (length out.old) }
    ensures out_after { out.new ≡ written_over message label [] out.old }
{
    let form = forms::form_of(message, label.length, 0);
    Written::from(forms::lay(&form, &label, b"", out))
}

// Lays a transfer, D.6, with its pool in a slice.
pub fn write_transfer(pool: &[u8], out: &mut [u8]) -> Written
    ensures value { result ≡ written_of Transfer blank pool.now (length out.old) }
    ensures out_after { out.new ≡ written_over Transfer blank pool.now out.old }
{
    let form = forms::form_of(Message::Transfer, 0, pool.len());
    Written::from(forms::lay(&form, &blank(), pool, out))
}

// What holds of the definitions that the contracts above cite.
pub fn promises()
    ensures comes_back { ComesBack }
    ensures refuses { Refuses }
    ensures message_cases { MessageCases }
{}

// A message of each clause and its bytes, both ways: nothing is done, the contract says so.
pub fn clauses()
    ensures { Clauses }
{}
