// 5 TABLE, for all words of a table at once: sums, shifts and ors of words, which a machine does for several words in one step (document 01, Numbers returned).
ghost use Rattle.std.specs.Prelude.{◌≡◌, ◌-◌, ◌<◌, ◌≤◌, false, if◌then◌else◌};
ghost use Rattle.rules.specs.declared.Geometry as G;
ghost use Rattle.rules.specs.TableWords.{every};
ghost use Rattle.rules.specs.Numbers as N;
ghost use Rattle.checks.specs.Tables.{allowed_while};
ghost use Rattle.checks.specs.Forms as F;

use super::walks::walk_table;
use rules::{Geometry, Phase};
use std::num::wrapping_add_u64;

// Less one, and 0 for 0: the free word and the codes 1 to 5 get a low byte of 0 to 4, any other word with code 0 gets 255.
// From 2 ^ 40 on it is only large.
pub fn lowered(word: u64) -> u64
    ensures { (word < 1099511627776 → result ≡ word - 1) × (1099511627776 ≤ word → 1048576 ≤ result) }
{
    word - wrapping_add_u64(word, 1099511627775) / 1099511627776
}

// What, added to a lowered word below 2 ^ 20, sets bit 7 for a low byte of 5 to 127 and bit 20 for a block of N or more.
pub fn margin(g: Geometry) -> u64
    requires { g.blocks ≤ 4096 }
    ensures { result ≡ F.margin_of g }
{
    // two bytes, so that the difference is made before the loop
    let spare = Geometry::MAX_BLOCKS - g.blocks;
    256 * (spare as u64) + 123
}

// Bits of which bit 7 and those from 20 on stay 0 exactly where the word is well formed, whatever its code of 1 to 5.
pub fn flaws(word: u64, margin: u64) -> u64
    ensures { (g : G.Geometry) → 1 ≤ g.blocks → g.blocks ≤ 4096 → margin ≡ F.margin_of g → F.flawless result ≡ N.well_formed (allowed_while false) g word }
{
    let low = lowered(word);
    low | wrapping_add_u64(low, margin)
}

// What is gathered for the codes that Writing forbids.
pub fn watched(word: u64, writing: bool) -> u64
    ensures { result ≡ (if writing then word else 0) }
{
    if writing { word } else { 0 }
}

// Whether words whose flaws and whose watched words were gathered by `|` are all well formed. Of the codes 1 to 5, those with bit 1 are 2 and 3.
pub fn all_formed(flawed: u64, seen: u64) -> bool
    ensures { result ≡ F.all_formed flawed seen }
{
    (flawed / 1048576 == 0) & (flawed / 128 % 2 == 0) & (seen / 2 % 2 == 0)
}

pub fn table_formed(table: &[u64], phase: Phase, g: Geometry) -> bool
    requires { (1 ≤ g.blocks) × (g.blocks ≤ 4096) }
    ensures { result ≡ every (N.well_formed (N.allows phase) g) table.now }
{
    walk_table(table, phase, g, |_| 0).is_some()
}
