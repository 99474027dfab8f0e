// The parts of an object, and its size.
ghost use Rattle.std.specs.Prelude.{◌≡◌, ◌≤◌};
ghost use Rattle.objects.specs.Objects.{parts_of, size_of};

use pool::{BASE_FIXED, FUNCTION_FIXED, Head, STATE_FIXED};

// The bytes of the fixed part and of the labels, and the count of the numbers listed.
#[derive(Clone, Copy, Default)]
pub struct Parts {
    pub fixed: u8,
    pub version: u8,
    pub configuration: u8,
    pub list: u8,
}

pub fn head_parts(head: Head) -> Parts
    ensures { result ≡ parts_of (Ok head) }
{
    match head {
        Head::Base(b) => Parts {
            fixed: BASE_FIXED as u8,
            version: b.n,
            configuration: b.m,
            list: b.o,
        },
        Head::Function(f) => Parts {
            fixed: FUNCTION_FIXED as u8,
            list: f.s,
            ..Parts::default()
        },
        Head::State(_) => Parts {
            fixed: STATE_FIXED as u8,
            ..Parts::default()
        },
    }
}

pub fn parts_of(kind: Result<Head, usize>) -> Parts
    ensures { result ≡ parts_of kind }
{
    match kind {
        Ok(head) => head_parts(head),
        Err(_) => Parts::default(),
    }
}

pub fn size_of(kind: Result<Head, usize>) -> usize
    ensures value { result ≡ size_of kind }
    ensures upper_bound { result ≤ 1275 }
{
    let parts = parts_of(kind);
    let fixed = parts.fixed as usize;
    let version = parts.version as usize;
    let configuration = parts.configuration as usize;
    let list = parts.list as usize;
    fixed + version + configuration + 2 * list
}
