// What makes an object by value legal.
ghost use Rattle.std.specs.Prelude.{◌≡◌};
ghost use Rattle.objects.specs.Objects.{labels_right, kind_right, legal};

use crate::Object;
use crate::parts::parts_of;
use pool::Head;
use pool::ranges::{head_right, label_right};

fn labels_right(head: Head) -> bool
    ensures { result ≡ labels_right head }
{
    match head {
        Head::Base(b) => label_right(b.n) & label_right(b.m),
        Head::Function(_) => true,
        Head::State(_) => true,
    }
}

fn kind_right(kind: Result<Head, usize>) -> bool
    ensures { result ≡ kind_right kind }
{
    match kind {
        Ok(head) => labels_right(head) & head_right(head),
        Err(_) => false,
    }
}

pub fn is_legal(object: &Object) -> bool
    ensures { result ≡ legal object.now }
{
    let kind = object.kind;
    let parts = parts_of(kind);
    let n = parts.version as usize;
    let m = parts.configuration as usize;
    let count = parts.list as usize;
    kind_right(kind)
        & object.version.iter().skip(n).all(|c| *c == 0)
        & object.configuration.iter().skip(m).all(|c| *c == 0)
        & object.list.iter().skip(count).all(|c| *c == 0)
}
