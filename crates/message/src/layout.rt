// The code decides the layout, together with the side that sent it. The annexes count bytes from 1, a slice from 0.
ghost use Rattle.std.specs.Prelude.{◌≡◌};
ghost use Rattle.message.specs.Layout.{as_capability, as_execution, as_reply, as_order, as_receipt, from_client, from_master, layout_of};

use crate::fields::status_of;
use crate::{CLIENT, Capability, Execution, MASTER, Message, Order, Receipt, Reply};
use octets::{byte_at, u16_at, u32_at};

// C.3.
fn as_capability(s: &[u8]) -> Capability
    ensures { result ≡ as_capability s.now }
{
    Capability {
        version: byte_at(s, 1),
        width: byte_at(s, 2),
        height: byte_at(s, 3),
        characters: u16_at(s, 4),
        colour: byte_at(s, 6),
        size: byte_at(s, 7),
        font: byte_at(s, 8),
        style: byte_at(s, 9),
    }
}

// E.4.
fn as_execution(s: &[u8]) -> Execution
    ensures { result ≡ as_execution s.now }
{
    Execution {
        function: byte_at(s, 1),
        state: byte_at(s, 2) % 64,
        status: status_of(byte_at(s, 2)),
        tan: byte_at(s, 3),
        value: u32_at(s, 4),
    }
}

// E.5 and E.7.
fn as_reply(s: &[u8]) -> Reply
    ensures { result ≡ as_reply s.now }
{
    Reply {
        function: byte_at(s, 1),
        state: byte_at(s, 2) % 64,
        status: status_of(byte_at(s, 2)),
        error: byte_at(s, 3),
        tan: byte_at(s, 4),
    }
}

// E.6.
fn as_order(s: &[u8]) -> Order
    ensures { result ≡ as_order s.now }
{
    Order {
        function: byte_at(s, 1),
        state: byte_at(s, 2) % 64,
        tan: byte_at(s, 3),
        value: u32_at(s, 4),
    }
}

// E.8.
fn as_receipt(s: &[u8]) -> Receipt
    ensures { result ≡ as_receipt s.now }
{
    Receipt {
        function: byte_at(s, 1),
        state: byte_at(s, 2) % 64,
        status: status_of(byte_at(s, 2)),
        tan: byte_at(s, 3),
    }
}

#[tactic(auto, unfolding(crate::specs::Layout::from_client, octets::specs::Pick::pick))]
fn from_client(code: u8, s: &[u8]) -> Message
    ensures { result ≡ from_client code s.now }
{
    match code {
        0x01 => Message::VersionRequest,
        0x02 => Message::ConfigurationRequest,
        0x03 => Message::Transfer,
        0x04 => Message::ActivationCommand,
        0x05 => Message::DeleteCommand(byte_at(s, 1)),
        0x06 => Message::StoreCommand,
        0x07 => Message::LoadCommand,
        0x31 => Message::ClientAbort(byte_at(s, 3)),
        0x32 => Message::Indication(as_execution(s)),
        0x34 => Message::Answer(as_reply(s)),
        0x90 => Message::CapabilityRequest(byte_at(s, 1)),
        0x91 => Message::MemoryRequest(u32_at(s, 1)),
        0x00 | 0x08..=0x30 | 0x33 | 0x35..=0x8F | 0x92..=0xFF => Message::Nothing,
    }
}

#[tactic(auto, unfolding(crate::specs::Layout::from_master, octets::specs::Pick::pick))]
fn from_master(code: u8, s: &[u8]) -> Message
    ensures { result ≡ from_master code s.now }
{
    match code {
        0x01 => Message::VersionResponse(byte_at(s, 1)),
        0x02 => Message::ConfigurationResponse(byte_at(s, 1)),
        0x03 => Message::TransferResponse(byte_at(s, 1)),
        0x04 => Message::PoolAcknowledgement(byte_at(s, 1), u16_at(s, 2)),
        0x05 => Message::DeleteResponse(byte_at(s, 1)),
        0x06 => Message::StoreResponse(byte_at(s, 1)),
        0x07 => Message::LoadResponse(byte_at(s, 1)),
        0x30 => Message::StateCommand(byte_at(s, 1), byte_at(s, 3)),
        0x32 => Message::IndicationResponse(as_reply(s)),
        0x33 => Message::Command(as_order(s)),
        0x34 => Message::AnswerAcknowledgement(as_receipt(s)),
        0x90 => Message::CapabilityResponse(as_capability(s)),
        0x91 => Message::MemoryResponse(byte_at(s, 1)),
        0x00 | 0x08..=0x2F | 0x31 | 0x35..=0x8F | 0x92..=0xFF => Message::Nothing,
    }
}

#[tactic(auto, unfolding(crate::specs::Layout::layout_of, octets::specs::Pick::pick))]
pub fn layout_of(side: u32, s: &[u8]) -> Message
    ensures { result ≡ layout_of side s.now }
{
    let code = byte_at(s, 0);
    match side {
        CLIENT => from_client(code, s),
        MASTER => from_master(code, s),
        _ => Message::Nothing,
    }
}
