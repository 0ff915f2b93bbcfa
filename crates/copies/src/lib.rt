// What begin does slot by slot: the copies from CACHE, and the table's words changed (document 01, Checkpoints).
// What is lent comes one by one, by & or &mut as the call needs it: one value of all of it would ask callers for more.
#![tactic(auto)]

ghost use Rattle.std.specs.Prelude.{◌≡◌, true, List, map, ℕ, ◌+◌, ◌*◌, ◌≤◌, length};
ghost use Rattle.words.specs.Words.{Lays, bytes_to, block_at, lay};
ghost use Rattle.rules.specs.declared.Geometry as G;
ghost use Rattle.rules.specs.declared.Phase.TheVariants as P;
ghost use Rattle.rules.specs.TableWords.{says, changed, every};
ghost use Rattle.rules.specs.Numbers.{well_formed, allows};
ghost use Rattle.rules.specs.Checkpoints as R;
ghost use Rattle.checks.specs.Ready.{Ready};
ghost use Rattle.copies.specs.Records.{begun_record};
ghost use Rattle.copies.specs.Copies.{Slotted};

use rules::{Controller, Geometry, Phase};
use words::{copy_part, lay_block, lay_bytes};

pub mod counts;

// Pre-dirty and dirty become clean, pre-hidden and hidden become free.
// By the number of its code: a State made of it would be a second test of a word in the walk.
pub fn begun_word(word: u64) -> u64
    ensures { result ≡ changed R.begun word }
{
    match word % 256 {
        1 => word,
        2 => word - 1,
        5 => word - 4,
        _ => 0,
    }
}

// The block of the memory to which begin copies a slot's CACHE block: pre-hidden to HOME, pre-dirty to CHECKPOINT.
// By the number of its code: a State made of it would be a second test of a word in the walk.
pub fn copied_to(g: Geometry, slot: usize, word: u64) -> Option<usize>
    requires { slot ≤ 512 }
    ensures { result ≡ R.copied_to g slot (says word) }
{
    match word % 256 {
        4 => Some((word / 256) as usize),
        5 => Some((g.blocks as usize) + slot),
        _ => None,
    }
}

// A slot's copy under an allowance.
pub fn copy_slot(
    memory: &mut [u8],
    cache: &[u8],
    g: Geometry,
    slot: usize,
    word: u64,
    p: usize,
) -> usize
    requires { Slotted g slot word (length memory.old) (length cache.now) }
    ensures { Lays p (R.copy_of cache.now slot (R.copied_to g slot (says word))) memory.old memory.new result }
{
    let Some(block) = copied_to(g, slot, word) else {
        return 0;
    };
    let from = 64 * slot;
    lay_bytes(memory, 8 * block, &cache[from..], Geometry::BLOCK_WORDS, p)
}

// A slot's copy where the allowance is enough.
pub fn copy_whole(memory: &mut [u8], cache: &[u8], g: Geometry, slot: usize, word: u64) -> usize
    requires { Slotted g slot word (length memory.old) (length cache.now) }
    ensures { Lays 8 (R.copy_of cache.now slot (R.copied_to g slot (says word))) memory.old memory.new result }
{
    let Some(block) = copied_to(g, slot, word) else {
        return 0;
    };
    let from = 64 * slot;
    lay_block(memory, 8 * block, &cache[from..from + 64])
}

// The copies of all slots under an allowance, for a begin that is cut: its table stays.
pub fn lay_copies(memory: &mut [u8], cache: &[u8], table: &[u64], g: Geometry, p: usize) -> usize
    requires { Ready g memory.old cache.now table.now × (every (well_formed (allows P.Running) g) table.now ≡ true) }
    ensures { Lays p (R.copies g cache.now 0 table.now) memory.old memory.new result }
{
    let mut done = 0;
    for (slot, &word) in table.iter().enumerate() {
        done += copy_slot(memory, cache, g, slot, word, p.saturating_sub(done));
    }
    done
}

// Each slot copied and its word changed at once, where the allowance is enough for all copies.
pub fn begin_slots(memory: &mut [u8], cache: &[u8], table: &mut [u64], g: Geometry)
    requires { Ready g memory.old cache.now table.old × (every (well_formed (allows P.Running) g) table.old ≡ true) }
    ensures { (memory.new ≡ lay (R.copies g cache.now 0 table.old) memory.old) × (table.new ≡ map (changed R.begun) table.old) }
{
    for (slot, word) in table.iter_mut().enumerate() {
        // before its block is copied, so that both tests of its code are compiled into one
        let before = *word;
        *word = begun_word(before);
        copy_whole(memory, cache, g, slot, before);
    }
}

// The record as begin leaves it.
pub fn begun(controller: Controller, registers: &[u8]) -> Controller
    requires { length registers.now ≡ 64 }
    ensures { result ≡ begun_record controller registers.now }
{
    let mut kept = [0u8; 64];
    copy_part(registers, 0, &mut kept);
    Controller {
        registers: kept,
        phase: Phase::Writing(0),
        ..controller
    }
}
