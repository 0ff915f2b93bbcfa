// One walk of a table: every word tested, 5 TABLE, and a number of each summed (document 01, Numbers returned; Power).
// What is lent comes one by one, by & or &mut as the call needs it: one value of all of it would ask callers for more.
ghost use Rattle.std.specs.Prelude.{◌≡◌, true, ℕ, ◌*◌, ◌^◌, ◌<◌, ◌≤◌, length, sum_by, is_some, Some, Ok};
ghost use Rattle.rules.specs.Board.{board_of};
ghost use Rattle.rules.specs.TableWords.{every};
ghost use Rattle.rules.specs.Numbers as N;
ghost use Rattle.checks.specs.Results.{Judged};

use super::forms::{all_formed, flaws, margin, watched};
use super::numbers::{check_early, is_writing};
use rules::{Controller, Geometry, Number, Phase};

// The sum of the words' numbers, where every word is well formed.
pub fn walk_table<F: Fn(u64) -> u64>(
    table: &[u64],
    phase: Phase,
    g: Geometry,
    number: F,
) -> Option<u64>
    requires sizes { (1 ≤ g.blocks) × (g.blocks ≤ 4096) }
    requires callable { F.IsAlwaysCallable number }
    requires fits { (word n : ℕ) → F.post number word n → n * length table.now < 2 ^ 63 }
    ensures formed { is_some result ≡ every (N.well_formed (N.allows phase) g) table.now }
    ensures summed { (f : ℕ → ℕ) → ((word n : ℕ) → N.well_formed (N.allows phase) g word ≡ true → F.post number word n → n ≡ f word) → (total : ℕ) → result ≡ Some total → total ≡ sum_by f table.now }
{
    let writing = is_writing(phase);
    let added = margin(g);
    let mut flawed = 0u64;
    let mut seen = 0u64;
    let mut total = 0u64;
    for &word in table {
        flawed |= flaws(word, added);
        seen |= watched(word, writing);
        total += number(word);
    }
    if !all_formed(flawed, seen) {
        return None;
    }
    Some(total)
}

// The checks 1 to 5, and where they pass the sum of the words' numbers.
pub fn checked_sum<F: Fn(u64) -> u64>(
    memory: &[u8],
    cache: &[u8],
    table: &[u64],
    controller: Controller,
    unfit: bool,
    number: F,
) -> Result<u64, Number>
    requires callable { F.IsAlwaysCallable number }
    requires fits { (word n : ℕ) → F.post number word n → n < 2 ^ 32 }
    ensures judged { Judged (N.first_of (N.common_checks (board_of memory.now cache.now table.now controller) unfit)) result }
    ensures summed { (f : ℕ → ℕ) → ((word n : ℕ) → N.well_formed (N.allows controller.phase) controller.geometry word ≡ true → F.post number word n → n ≡ f word) → (total : ℕ) → result ≡ Ok total → total ≡ sum_by f table.now }
{
    let Controller {
        geometry,
        phase,
        ..
    } = controller;
    check_early(
        memory.len(),
        cache.len(),
        table.len(),
        geometry,
        phase,
        unfit,
    )?;
    walk_table(table, phase, geometry, number).ok_or(Number::Table)
}
