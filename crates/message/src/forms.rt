// What each message allows in its fields, how long it is, and its bytes.
ghost use Rattle.std.specs.Prelude.{◌≡◌, [], ◌∷◌, ◌++◌, ◌≤◌, eqb, leb, length, take, drop};
ghost use Rattle.octets.specs.Octets as octets;
ghost use Rattle.octets.specs.Pick.{pick};
ghost use Rattle.octets.specs.Label.{row_of};
ghost use Rattle.message.specs.Fields.{padded};
ghost use Rattle.message.specs.Layout.{sized, of_eight, reply, labelled, pooled, capability, failing, form_of};
ghost use Rattle.message.specs.Messages.{octet_of, laid, written, written_as, left_as};

use crate::fields::{is_pool_code, known, packed};
use crate::{Capability, Message, Reply};
use octets::label::Label;
use octets::numbers::Refusal;
use octets::{byte_at, part, put_bytes};

// A reserved byte.
const FF: u8 = 0xFF;

// A message as it is written, beside a label and a pool of given lengths.
#[derive(Clone, Copy)]
pub struct Form {
    // Each field has a value that it allows.
    pub allowed: bool,
    // The bytes of the message.
    pub length: usize,
    // Those that stand before a label or a pool.
    pub first: usize,
    // The bytes of its label.
    pub label: u8,
    // The bytes of its pool.
    pub pool: usize,
    // The first bytes, and FF after them.
    pub bytes: [u8; 10],
}

// Some bytes, and reserved ones after them.
fn padded(first: &[u8]) -> [u8; 10]
    requires { length first.now ≤ 10 }
    ensures { result ≡ padded 10 first.now }
{
    let mut bytes = [FF; 10];
    bytes[..first.len()].copy_from_slice(first);
    bytes
}

// A message of a given length, with no label and no pool.
fn sized(length: usize, allowed: bool, bytes: [u8; 10]) -> Form
    ensures { result ≡ sized length allowed bytes }
{
    Form {
        allowed,
        length,
        first: length,
        label: 0,
        pool: 0,
        bytes,
    }
}

// A message of 8 bytes; those past the ones given are reserved.
fn of_eight(allowed: bool, first: &[u8]) -> Form
    requires { length first.now ≤ 10 }
    ensures { result ≡ of_eight allowed first.now }
{
    sized(8, allowed, padded(first))
}

// E.5 and E.7, whose errors go up to last.
fn reply(code: u8, last: u8, r: Reply) -> Form
    ensures { result ≡ reply code last r }
{
    of_eight(
        (r.state <= 63) & known(last, r.error),
        &[code, r.function, packed(r.state, r.status), r.error, r.tan],
    )
}

// E.4 and E.6, of which byte 3 is given as it is written.
fn valued(code: u8, function: u8, state: u8, octet: u8, tan: u8, value: u32) -> Form
    ensures { result ≡ of_eight (leb state 63) (code ∷ function ∷ octet ∷ tan ∷ octets.bytes_of 4 value) }
{
    let [one, two, three, four] = value.to_le_bytes();
    of_eight(
        state <= 63,
        &[code, function, octet, tan, one, two, three, four],
    )
}

// D.3 and D.5, with a label of n bytes.
fn labelled(code: u8, error: u8, n: u8) -> Form
    ensures { result ≡ labelled code error n }
{
    Form {
        allowed: (n <= 63)
            & (((error == 0x00) & (1 <= n)) | (((error == 0x01) | (error == 0xFF)) & (n == 0))),
        length: (3 + n as usize).max(8),
        first: 3,
        label: n,
        pool: 0,
        bytes: padded(&[code, error, n % 64]),
    }
}

// D.6, with a pool of n bytes.
fn pooled(n: usize) -> Form
    ensures { result ≡ pooled n }
{
    Form {
        allowed: (8 <= n) & (n <= 16384),
        length: 1 + n.min(16384),
        first: 1,
        label: 0,
        pool: n,
        bytes: padded(&[0x03]),
    }
}

// C.3.
fn capability(c: Capability) -> Form
    ensures { result ≡ capability c }
{
    let [low, high] = c.characters.to_le_bytes();
    sized(
        10,
        (c.version <= 0x02) & (32 <= c.width) & (32 <= c.height) & (32 <= c.characters),
        [
            0x90, c.version, c.width, c.height, low, high, c.colour, c.size, c.font, c.style,
        ],
    )
}

// A message whose byte 2 is an error, 00 to last or FF.
fn failing(code: u8, last: u8, error: u8) -> Form
    ensures { result ≡ failing code last error }
{
    of_eight(known(last, error), &[code, error])
}

// A message, beside a label of n bytes and a pool of p bytes.
pub fn form_of(message: Message, n: u8, p: usize) -> Form
    ensures { result ≡ form_of message n p }
{
    match message {
        Message::Nothing => of_eight(false, &[]),
        Message::CapabilityRequest(version) => of_eight(version <= 0x02, &[0x90, version]),
        Message::CapabilityResponse(c) => capability(c),
        Message::MemoryRequest(m) => {
            let [one, two, three, four] = m.to_le_bytes();
            of_eight(true, &[0x91, one, two, three, four])
        }
        Message::MemoryResponse(status) => of_eight(status <= 0x01, &[0x91, status]),
        Message::VersionRequest => of_eight(true, &[0x01]),
        Message::VersionResponse(error) => labelled(0x01, error, n),
        Message::ConfigurationRequest => of_eight(true, &[0x02]),
        Message::ConfigurationResponse(error) => labelled(0x02, error, n),
        Message::Transfer => pooled(p),
        Message::TransferResponse(error) => failing(0x03, 0x01, error),
        Message::ActivationCommand => of_eight(true, &[0x04]),
        Message::PoolAcknowledgement(code, object) => {
            let [low, high] = object.to_le_bytes();
            of_eight(is_pool_code(code), &[0x04, code, low, high])
        }
        Message::DeleteCommand(memory) => of_eight(memory <= 0x01, &[0x05, memory]),
        Message::DeleteResponse(error) => failing(0x05, 0x01, error),
        Message::StoreCommand => of_eight(true, &[0x06]),
        Message::StoreResponse(error) => failing(0x06, 0x02, error),
        Message::LoadCommand => of_eight(true, &[0x07]),
        Message::LoadResponse(error) => failing(0x07, 0x03, error),
        Message::StateCommand(state, reason) => of_eight(
            (state <= 0x01) & (0x01 <= reason) & known(0x03, reason),
            &[0x30, state, FF, reason],
        ),
        Message::ClientAbort(error) => of_eight(
            (0x01 <= error) & known(0x03, error),
            &[0x31, FF, FF, error],
        ),
        Message::Indication(e) => valued(
            0x32,
            e.function,
            e.state,
            packed(e.state, e.status),
            e.tan,
            e.value,
        ),
        Message::IndicationResponse(r) => reply(0x32, 0x06, r),
        Message::Command(o) => valued(0x33, o.function, o.state, o.state % 64, o.tan, o.value),
        Message::Answer(r) => reply(0x34, 0x03, r),
        Message::AnswerAcknowledgement(r) => of_eight(
            r.state <= 63,
            &[0x34, r.function, packed(r.state, r.status), r.tan],
        ),
    }
}

// Byte i of a message, counted from 0, with a label and a pool beside it.
#[tactic(auto, unfolding(crate::specs::Messages::octet_of, octets::specs::Pick::pick))]
fn octet_of(form: &Form, label: &Label, pool: &[u8], i: usize) -> u8
    ensures { result ≡ octet_of form.now label.now pool.now i }
{
    let first = form.first;
    if i < first {
        return byte_at(&form.bytes, i);
    }
    if i - first < form.label as usize {
        return byte_at(&label.bytes, i - first);
    }
    if i - first < form.pool {
        return byte_at(pool, i - first);
    }
    FF
}

// The label of a message, or its pool where it has no label, if that starts at place i; else nothing.
#[tactic(auto, unfolding(octets::specs::Pick::pick))]
fn body_at<'a>(form: &Form, i: usize, label: &'a Label, pool: &'a [u8]) -> &'a [u8]
    ensures { result.now ≡ pick (eqb i form.now.first) (pick (eqb form.now.label 0) (take form.now.pool pool.now) (take form.now.label label.now.bytes)) [] }
{
    if i != form.first {
        return part(pool, 0, 0);
    }
    if form.label == 0 {
        return part(pool, 0, form.pool);
    }
    part(&label.bytes, 0, form.label as usize)
}

// Lays the bytes of a message from a place on, where those before it are laid: the body, which may be a whole pool, as a slice, the others one by one.
fn lay_rest(form: &Form, label: &Label, pool: &[u8], from: usize, out: &mut [u8])
    requires from_le_length { from ≤ form.now.length }
    requires length_in_bounds { form.now.length ≤ length out.old }
    requires out_value { take from out.old ≡ row_of from (octet_of form.now label.now pool.now) }
    ensures { out.new ≡ laid form.now label.now pool.now ++ drop form.now.length out.old }
{
    let body = part(body_at(form, from, label, pool), 0, form.length - from);
    put_bytes(out, from, body);
    for i in from + body.len()..form.length {
        out[i] = octet_of(form, label, pool, i);
    }
}

// Lays the bytes of a message in a slice that has room for them. Most messages have only first bytes.
fn lay_bytes(form: &Form, label: &Label, pool: &[u8], out: &mut [u8])
    requires { form.now.length ≤ length out.old }
    ensures { out.new ≡ laid form.now label.now pool.now ++ drop form.now.length out.old }
{
    let first = part(&form.bytes, 0, form.first.min(form.length));
    put_bytes(out, 0, first);
    if first.len() < form.length {
        lay_rest(form, label, pool, first.len(), out);
    }
}

// Lays a message in a slice, and says how long it is.
#[tactic(auto, unfolding(crate::specs::Messages::written_as, crate::specs::Messages::left_as, octets::specs::Pick::pick))]
pub fn lay(form: &Form, label: &Label, pool: &[u8], out: &mut [u8]) -> Result<usize, Refusal>
    ensures value { written result ≡ written_as form.now (length out.old) }
    ensures out_after { out.new ≡ left_as form.now label.now pool.now out.old }
{
    if out.len() < form.length {
        return Err(Refusal::TooShort);
    }
    if !form.allowed {
        return Err(Refusal::WrongValue);
    }
    lay_bytes(form, label, pool, out);
    Ok(form.length)
}
