// A pool is taken apart object by object and written again.
#![tactic(auto)]

ghost use Rattle.std.specs.Prelude.{◌≡◌, ◌≤◌, length};
ghost use Rattle.pool.specs.Pool.{verdict_of};
ghost use Rattle.rewrite.specs.Rewrite.{again, rewritten_as, rewrite_answer, rewrite_out};

use octets::numbers::{DONE, Refusal};
use pool::Verdict;

// The number that the call gives; with 6 the code of D.9 and the object that it is about, else 0 and 0.
#[repr(C)]
#[derive(Clone, Copy)]
pub struct Rewritten {
    pub number: u8,
    pub code: u8,
    pub object: u16,
}

// Why a pool is not rewritten.
enum Refused {
    TooShort,
    Pool(Verdict),
}

impl From<Result<(), Refused>> for Rewritten {
    ghost from_gives = { λ outcome rewritten. rewritten ≡ rewritten_as outcome };

    fn from(outcome: Result<(), Refused>) -> Rewritten {
        let (number, code, object) = match outcome {
            Ok(()) => (DONE, 0, 0),
            Err(Refused::TooShort) => (Refusal::TooShort.number(), 0, 0),
            Err(Refused::Pool(why)) => (Refusal::PoolRefused.number(), why.code, why.object),
        };
        Rewritten {
            number,
            code,
            object,
        }
    }
}

// Each object in its order, read at its place and written at the same place of out.
fn rewrite_all(pool: &[u8], out: &mut [u8])
    requires { ((verdict_of pool.now).code ≡ 0) × (length pool.now ≤ length out.old) }
    ensures { out.new ≡ again pool.now out.old }
{
    // The next place is what the call gives back: an iterator over the places would read each object's size a second time.
    let mut at: usize = 0;
    while at < pool.len() {
        at = objects::rewrite_object(pool, at, out);
    }
}

fn rewrite_checked(pool: &[u8], out: &mut [u8]) -> Result<(), Refused>
    ensures value { rewritten_as result ≡ rewrite_answer pool.now out.old }
    ensures out_after { out.new ≡ rewrite_out pool.now out.old }
{
    if out.len() < pool.len() {
        return Err(Refused::TooShort);
    }
    let verdict = pool::check(pool);
    if verdict.code != 0x00 {
        return Err(Refused::Pool(verdict));
    }
    rewrite_all(pool, out);
    Ok(())
}

// 1 where out is shorter than the pool, 6 where the pool is refused, and then nothing changes.
pub fn rewrite(pool: &[u8], out: &mut [u8]) -> Rewritten
    ensures value { result ≡ rewrite_answer pool.now out.old }
    ensures out_after { out.new ≡ rewrite_out pool.now out.old }
{
    Rewritten::from(rewrite_checked(pool, out))
}
