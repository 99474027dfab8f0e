// Arrays of which the first cells are used: how loops over them are defined and what is known of them stands in specs/ and proofs/.
#![tactic(auto)]

ghost use Rattle.std.specs.Prelude.{◌≡◌, min};
ghost use Rattle.arrays.specs.Arrays.{more};

// The cells that are used: a count that no call gives counts all of them.
pub fn at_most(n: usize, room: usize) -> usize
    ensures { result ≡ min n room }
{
    n.min(room)
}

// A sum, or the largest number that there is room for.
pub fn more(a: u32, b: u32) -> u32
    ensures { result ≡ more a b }
{
    a.saturating_add(b)
}
