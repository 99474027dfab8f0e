// An object is read off a pool's bytes.
ghost use Rattle.std.specs.Prelude.{◌≡◌, ◌≤◌, ◌<◌};
ghost use Rattle.pool.specs.Fields.{numbers_at};
ghost use Rattle.objects.specs.Objects.{cells, whole_at, refused, is_at};

use crate::Object;
use crate::parts::head_parts;
use octets::label::label_at;
use octets::u16_at;

// A list of n numbers, at the front of its cells.
fn list_at(s: &[u8], i: usize, n: usize) -> [u16; 255]
    requires { (i < 131072) × (n ≤ 255) }
    ensures { result ≡ cells 255 (numbers_at 2 s.now i n) }
{
    let mut list = [0u16; 255];
    for k in 0..n {
        list[k] = u16_at(s, i + 2 * k);
    }
    list
}

pub fn whole_at(s: &[u8], at: usize) -> Object
    requires { at < 65536 }
    ensures { result ≡ whole_at s.now at }
{
    let head = pool::fields::head_at(s, at);
    let parts = head_parts(head);
    let n = parts.version;
    let m = parts.configuration;
    let rest = at + parts.fixed as usize;
    let first = label_at(s, rest, n);
    let second = label_at(s, rest + n as usize, m);
    let list = list_at(s, rest + n as usize + m as usize, parts.list as usize);
    let version = first.bytes;
    let configuration = second.bytes;
    Object {
        kind: Ok(head),
        version,
        configuration,
        list,
    }
}

#[tactic(auto, unfolding(crate::specs::Objects::refused))]
pub fn refused(place: usize) -> Object
    ensures { result ≡ refused place }
{
    Object {
        kind: Err(place),
        version: [0; 63],
        configuration: [0; 63],
        list: [0; 255],
    }
}

#[tactic(auto, unfolding(crate::specs::Objects::is_at))]
pub fn is_at(s: &[u8], at: usize) -> bool
    ensures { result ≡ is_at s.now at }
{
    if 16384 < s.len() {
        return false;
    }
    if s.len() <= at {
        return false;
    }
    pool::stage_one::code_at(s, at).is_ok()
}
