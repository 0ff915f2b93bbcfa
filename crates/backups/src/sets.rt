// A set of blocks as 4096 bits in 64 words.
ghost use Rattle.std.specs.Prelude.{◌≡◌, false, ◌||◌, List, ℕ, ◌≤◌, ◌<◌, eqb, replicate};
ghost use Rattle.backups.specs.Sets.{has, Marks, Took};

use crate::clean_word;
use rules::Geometry;

#[derive(Clone, Copy, Debug, PartialEq, Eq)]
pub struct BlockSet {
    pub words: [u64; 64],
}

impl BlockSet {
    pub fn empty() -> BlockSet
        ensures { result.words ≡ replicate 64 0 }
    {
        BlockSet { words: [0; 64] }
    }

    #[tactic(auto, unfolding(crate::specs::Sets::has))]
    pub fn has(&self, block: usize) -> bool
        requires { block < 4096 }
        ensures { result ≡ has self.now.words block }
    {
        (self.words[block / 64] >> (block % 64)) % 2 == 1
    }

    pub fn put(&mut self, block: usize)
        requires { (block < 4096) × (has self.old.words block ≡ false) }
        ensures { (k : ℕ) → k < 4096 → has self.new.words k ≡ eqb block k || has self.old.words k }
    {
        let place = block / 64;
        let word = self.words[place];
        self.words[place] = word + (1 << (block % 64));
    }

    // Whether a word may stand before the words whose blocks the set holds; if so, its block joins the set.
    pub fn take(&mut self, word: u64, g: Geometry) -> bool
        requires { g.blocks ≤ 4096 }
        ensures { (after : List ℕ) → Marks self.old.words after → Took g word after self.new.words result }
    {
        if !clean_word(word, g) {
            return false;
        }
        if word == 0 {
            return true;
        }
        let block = (word / 256) as usize;
        if self.has(block) {
            return false;
        }
        self.put(block);
        true
    }
}
