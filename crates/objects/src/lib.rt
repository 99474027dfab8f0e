// An object of a pool by value: read off the pool's bytes, judged, and written as bytes again.
#![tactic(auto)]

mod legal;
mod parts;
mod read;
mod write;

ghost use Rattle.std.specs.Prelude.{true, ◌≡◌, ◌≤◌, length};
ghost use Rattle.objects.specs.Objects.{is_at, found_at, written_at, write_answer, write_out};
ghost use Rattle.objects.specs.RoundTrip.{RoundTrip};
ghost use Rattle.objects.specs.Tables.{Tables};

use octets::numbers::{DONE, Refusal};
use pool::Head;

// The type of an object with the numbers of its fixed part, or the place at which no object could be read; the labels and the list stand at the front of
// their cells, and the other cells are 0.
#[derive(Clone, Copy)]
pub struct Object {
    pub kind: Result<Head, usize>,
    pub version: [u8; 63],
    pub configuration: [u8; 63],
    pub list: [u16; 255],
}

// An object and the place after it; of a refusal, the place at which it stands.
#[derive(Clone, Copy)]
pub struct Found {
    pub object: Object,
    pub next: usize,
}

// The number that a call gives, and the place after what it wrote; of a refusal, the place itself.
#[repr(C)]
#[derive(Clone, Copy)]
pub struct Written {
    pub number: u8,
    pub next: usize,
}

impl Written {
    // From the place after what was written at a place, or why nothing was.
    fn of(outcome: Result<usize, Refusal>, at: usize) -> Written
        ensures { result ≡ written_at at outcome }
    {
        match outcome {
            Ok(next) => Written { number: DONE, next },
            Err(why) => Written {
                number: why.number(),
                next: at,
            },
        }
    }
}

// The object at a place of any bytes at all. A place past the end, and a cut or illegal object, are refused.
#[tactic(auto, unfolding(crate::specs::Objects::decode, crate::specs::Objects::next_at, octets::specs::Pick::pick))]
pub fn object_at(pool: &[u8], place: usize) -> Found
    ensures { result ≡ found_at pool.now place }
{
    if !read::is_at(pool, place) {
        return Found {
            object: read::refused(place),
            next: place,
        };
    }
    let object = read::whole_at(pool, place);
    Found {
        object,
        next: place + pool::fields::size_at(pool, place),
    }
}

// The object's bytes are put at a place, and the place after them comes back.
fn put_at(object: &Object, out: &mut [u8], at: usize) -> Result<usize, Refusal>
    ensures value { written_at at result ≡ write_answer object.now out.old at }
    ensures out_after { out.new ≡ write_out object.now out.old at }
{
    if write::no_room(object.kind, out.len(), at) {
        return Err(Refusal::TooShort);
    }
    if !legal::is_legal(object) {
        return Err(Refusal::WrongValue);
    }
    write::put_object(&mut out[at..], object);
    Ok(at + parts::size_of(object.kind))
}

// The object's bytes at a place of the lent buffer: 1 where they have no room, 4 where the object is not legal, and then nothing changes.
pub fn write_object(object: &Object, out: &mut [u8], at: usize) -> Written
    ensures value { result ≡ write_answer object.now out.old at }
    ensures out_after { out.new ≡ write_out object.now out.old at }
{
    Written::of(put_at(object, out, at), at)
}

// The object at a place where one can be read, written at the same place of out, which is as long as the pool at least: the fields of its fixed part
// one by one, its labels and its list as they stand. It gives the place after the object.
pub fn rewrite_object(pool: &[u8], at: usize, out: &mut [u8]) -> usize
    requires { (is_at pool.now at ≡ true) × (length pool.now ≤ length out.old) }
    ensures value { result ≡ (found_at pool.now at).next }
    ensures out_after { out.new ≡ write_out (found_at pool.now at).object out.old at }
{
    let head = pool::fields::head_at(pool, at);
    let parts = parts::head_parts(head);
    let rest = at + parts.fixed as usize;
    let next = at + parts::size_of(Ok(head));
    write::put_head(&mut out[at..], head);
    octets::put_bytes(out, rest, &pool[rest..next]);
    next
}

// A pool taken apart and written again is the same pool, and legal objects written and read again are the same objects: nothing is done, the
// contract says so.
pub fn round_trip()
    ensures { RoundTrip }
{}

// Which byte of a pool is which field: nothing is done, the contract says so.
pub fn tables()
    ensures { Tables }
{}
