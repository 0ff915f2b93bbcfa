// The copies of a sweep, clean entry by clean entry, and the entries made hidden (document 02, No. 7).
ghost use Rattle.std.specs.Prelude.{◌≡◌, ◌*◌, ◌/◌, ◌≤◌, ◌<◌, length, take};
ghost use Rattle.words.specs.Words.{Lays, block_at, bytes_to, lay};
ghost use Rattle.rules.specs.Geometry.{home_block, checkpoint_block, memory_words};
ghost use Rattle.rules.specs.Sweeps.{clean_from, home_copies, hidden};
ghost use Rattle.checks.specs.Tables.{Next};
ghost use Rattle.sweeps.specs.Entries.{is_clean, Sweepable};

use merges::copy_within;
use rules::Geometry;

// By the number of its code: a State made of it would be a second test of a word in the walk.
pub fn is_clean(word: u64) -> bool
    ensures { result ≡ is_clean word }
{
    word % 256 == 1
}

// The lowest slot from a start on whose entry is clean, or the number of slots: no Option, since both loops go on only while a clean entry is left.
pub fn next_clean(table: &[u64], start: usize) -> usize
    requires { start ≤ length table.now }
    ensures { Next is_clean table.now start result }
{
    for slot in start..table.len() {
        if is_clean(table[slot]) {
            return slot;
        }
    }
    table.len()
}

// An entry's block copied from CHECKPOINT of its slot to HOME, word by word, under an allowance.
pub fn copy_home(memory: &mut [u8], g: Geometry, slot: usize, word: u64, p: usize) -> usize
    requires { (word / 256 < g.blocks) × (slot < g.slots) × (g.slots ≤ 512) × (length memory.old ≡ 8 * memory_words g) }
    ensures { Lays p (bytes_to (8 * home_block g (word / 256)) 8 (block_at memory.old (checkpoint_block g slot))) memory.old memory.new result }
{
    let block = word / 256;
    copy_within(memory, (g.blocks as usize) + slot, block as usize, p)
}

// The copies of the lowest clean entries under an allowance, for a sweep that is cut: its table stays.
// The slot goes on behind each entry found: an iterator over the entries would hold the table while its words change.
pub fn lay_swept(memory: &mut [u8], table: &[u64], g: Geometry, entries: usize, p: usize)
    requires { Sweepable g memory.old table.now × (entries ≤ length (clean_from 0 table.now)) }
    ensures { Lays p (home_copies g memory.old (take entries (clean_from 0 table.now))) memory.old memory.new (8 * entries) }
{
    let mut slot = 0;
    for done in 0..entries {
        slot = next_clean(table, slot);
        copy_home(memory, g, slot, table[slot], p.saturating_sub(8 * done));
        slot += 1;
    }
}

// Each entry copied and made hidden at once, where the allowance is enough for all copies.
pub fn sweep_slots(memory: &mut [u8], table: &mut [u64], g: Geometry, entries: usize)
    requires { Sweepable g memory.old table.old × (entries ≤ length (clean_from 0 table.old)) }
    ensures { (memory.new ≡ lay (home_copies g memory.old (take entries (clean_from 0 table.old))) memory.old) × (table.new ≡ hidden (take entries (clean_from 0 table.old)) table.old) }
{
    let mut slot = 0;
    for _swept in 0..entries {
        slot = next_clean(table, slot);
        let word = table[slot];
        copy_home(memory, g, slot, word, Geometry::BLOCK_WORDS);
        table[slot] = word + 2;
        slot += 1;
    }
}
