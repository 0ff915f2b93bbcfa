// A sweep's checks and the number of clean entries, found in one walk of the table (document 01, Numbers returned; document 02, No. 7).
ghost use Rattle.std.specs.Prelude.{◌≡◌, false, ◌≤◌, length, count_by, IfOk};
ghost use Rattle.rules.specs.Board.{board_of};
ghost use Rattle.rules.specs.TableWords.{says};
ghost use Rattle.rules.specs.Numbers as N;
ghost use Rattle.rules.specs.Sweeps.{clean_from};
ghost use Rattle.rules.specs.SweepPromises.{one_if_clean};
ghost use Rattle.checks.specs.Results.{Judged};
ghost use Rattle.sweeps.specs.Entries.{is_clean};

use crate::slots::is_clean;
use checks::walks::checked_sum;
use rules::{Controller, Number};

// How many clean entries a word is.
pub fn clean_for(word: u64) -> u64
    ensures { (result ≤ 1) × (result ≡ one_if_clean (says word)) }
{
    if word % 256 == 1 { 1 } else { 0 }
}

fn clean_words(table: &[u64]) -> usize
    ensures { result ≡ count_by is_clean table.now }
{
    table.iter().filter(|&&word| is_clean(word)).count()
}

// How many entries of a table are clean, whatever its other words are.
#[tactic(auto, using(crate::proofs::Entries::clean_counted))]
pub fn clean_entries(table: &[u64]) -> usize
    ensures { result ≡ length (clean_from 0 table.now) }
{
    clean_words(table)
}

// The checks 1 to 5, and where they pass how many entries are clean.
pub fn count_sweep(
    memory: &[u8],
    cache: &[u8],
    table: &[u64],
    controller: Controller,
) -> Result<usize, Number>
    ensures judged { Judged (N.first_of (N.common_checks (board_of memory.now cache.now table.now controller) false)) result }
    ensures counted { IfOk result (λ entries. entries ≡ length (clean_from 0 table.now)) }
{
    let entries = checked_sum(memory, cache, table, controller, false, clean_for)?;
    Ok(entries as usize)
}
