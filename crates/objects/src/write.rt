// An object is written as bytes, at the front of a buffer.
ghost use Rattle.std.specs.Prelude.{◌≡◌, map, ◌+◌, ◌≤◌, ◌<◌, length, ltb};
ghost use Rattle.octets.specs.Octets.{bytes_of};
ghost use Rattle.std.proofs.lemmas.List.Edits.{sets};
ghost use Rattle.objects.specs.Objects.{field, head_fields, bytes_of_fields, parts_of, size_of, encode};

use crate::Object;
use crate::parts::{parts_of, size_of};
use octets::{put, put_bytes, put_u16, put_u32, put_u64};
use pool::{BASE_TYPE, BaseHead, FUNCTION_TYPE, FunctionHead, Head, STATE_TYPE, StateHead};

// The object's bytes do not end within length, written from a place on; at + size itself may be too large for a usize.
pub fn no_room(kind: Result<Head, usize>, length: usize, at: usize) -> bool
    ensures { result ≡ ltb length (at + size_of kind) }
{
    let size = size_of(kind);
    if length < at {
        return true;
    }
    length - at < size
}

fn put_u8(out: &mut [u8], i: usize, v: u8)
    requires { i < 131072 }
    ensures { out.new ≡ sets out.old i (bytes_of 1 v) }
{
    put(out, i, 1, v as u64);
}

fn put_base(out: &mut [u8], h: BaseHead)
    ensures { out.new ≡ sets out.old 0 (bytes_of_fields (head_fields (Ok (Head.Base h)))) }
{
    put_u16(out, 0, h.number);
    put_u8(out, 2, BASE_TYPE);
    put_u8(out, 3, h.version);
    put_u64(out, 4, h.master);
    put_u64(out, 12, h.mask);
    put_u16(out, 20, h.name);
    put_u16(out, 22, h.picture);
    put_u8(out, 24, h.n);
    put_u8(out, 25, h.m);
    put_u8(out, 26, h.o);
}

fn put_function(out: &mut [u8], h: FunctionHead)
    ensures { out.new ≡ sets out.old 0 (bytes_of_fields (head_fields (Ok (Head.Function h)))) }
{
    put_u16(out, 0, h.number);
    put_u8(out, 2, FUNCTION_TYPE);
    put_u8(out, 3, h.function);
    put_u8(out, 4, h.trigger);
    put_u8(out, 5, h.attribute);
    put_u32(out, 6, h.minimum);
    put_u32(out, 10, h.maximum);
    put_u32(out, 14, h.offset);
    put_u32(out, 18, h.scale);
    put_u8(out, 22, h.decimals);
    put_u16(out, 23, h.unit);
    put_u16(out, 25, h.name);
    put_u16(out, 27, h.picture);
    put_u8(out, 29, h.s);
}

fn put_state(out: &mut [u8], h: StateHead)
    ensures { out.new ≡ sets out.old 0 (bytes_of_fields (head_fields (Ok (Head.State h)))) }
{
    put_u16(out, 0, h.number);
    put_u8(out, 2, STATE_TYPE);
    put_u8(out, 3, h.state);
    put_u16(out, 4, h.name);
    put_u16(out, 6, h.picture);
}

pub fn put_head(out: &mut [u8], head: Head)
    ensures { out.new ≡ sets out.old 0 (bytes_of_fields (head_fields (Ok head))) }
{
    match head {
        Head::Base(b) => put_base(out, b),
        Head::Function(f) => put_function(out, f),
        Head::State(s) => put_state(out, s),
    }
}

// The fixed part; a refusal has none.
#[tactic(auto, unfolding(crate::specs::Objects::bytes_of_fields))]
fn put_fixed(out: &mut [u8], kind: Result<Head, usize>)
    ensures { out.new ≡ sets out.old 0 (bytes_of_fields (head_fields kind)) }
{
    match kind {
        Ok(head) => put_head(out, head),
        Err(_) => {}
    }
}

// The bytes of a label.
fn put_label(out: &mut [u8], i: usize, label: &[u8])
    requires { i + length label.now ≤ length out.old }
    ensures { out.new ≡ sets out.old i (bytes_of_fields (map (field 1) label.now)) }
{
    put_bytes(out, i, label);
}

// The numbers of a list, two bytes each.
fn put_list(out: &mut [u8], i: usize, list: &[u16])
    requires { (i < 65536) × (length list.now ≤ 255) }
    ensures { out.new ≡ sets out.old i (bytes_of_fields (map (field 2) list.now)) }
{
    let mut at = i;
    for number in list {
        put_u16(out, at, *number);
        at += 2;
    }
}

pub fn put_object(out: &mut [u8], object: &Object)
    requires labels { ((parts_of object.now.kind).version ≤ 63) × ((parts_of object.now.kind).configuration ≤ 63) }
    requires room { size_of object.now.kind ≤ length out.old }
    ensures { out.new ≡ sets out.old 0 (encode object.now) }
{
    let parts = parts_of(object.kind);
    let fixed = parts.fixed as usize;
    let version = &object.version[..parts.version as usize];
    let configuration = &object.configuration[..parts.configuration as usize];
    let list = &object.list[..parts.list as usize];
    put_fixed(out, object.kind);
    put_label(out, fixed, version);
    put_label(out, fixed + version.len(), configuration);
    put_list(out, fixed + version.len() + configuration.len(), list);
}
