// The keys seen, a bit for each that a u16 can hold.
ghost use Rattle.std.specs.Prelude.{ℕ, ◌≡◌, [], ◌∷◌, ◌++◌, List, not};
ghost use Rattle.pool.specs.Search.Seen.{Holds};
ghost use Rattle.pool.specs.StageTwo.{is_in};

use octets::{has_bit, with_bit};

#[derive(Drop)]
pub struct Seen {
    pub words: [u64; 1024],
}

impl Seen {
    pub fn new() -> Seen
        ensures { Holds result.words [] }
    {
        Seen {
            words: [0u64; 1024],
        }
    }

    // One key more, and whether it is new.
    pub fn insert(&mut self, key: u16) -> bool
        ensures { (keys : List ℕ) → Holds self.old.words keys → (result ≡ not (is_in key keys)) × Holds self.new.words (keys ++ key ∷ []) }
    {
        let word = (key / 64) as usize;
        let bit = (key % 64) as u64;
        let bits = self.words[word];
        self.words[word] = with_bit(bits, bit);
        !has_bit(bits, bit)
    }
}
