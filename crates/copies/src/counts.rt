// Begin's checks and the length of its list, found in one walk of the table (document 01, Numbers returned, Power).
ghost use Rattle.std.specs.Prelude.{◌≡◌, List, ℕ, ◌*◌, ◌≤◌, length, IfOk};
ghost use Rattle.rules.specs.declared.Geometry as G;
ghost use Rattle.rules.specs.Board.{board_of};
ghost use Rattle.rules.specs.TableWords.{says};
ghost use Rattle.rules.specs.Numbers as N;
ghost use Rattle.rules.specs.Checkpoints as R;
ghost use Rattle.checks.specs.Results.{Judged};
ghost use Rattle.checks.specs.Tables.{FormedWord};

use checks::walks::checked_sum;
use rules::{Controller, Number};

// How many blocks begin copies for a well formed word: one for the codes 4 and 5, else none.
pub fn copies_for(word: u64) -> u64
    ensures { (result ≤ 63) × (FormedWord word → (g : G.Geometry) (cache : List ℕ) (slot : ℕ) → 8 * result ≡ length (R.copy_of cache slot (R.copied_to g slot (says word)))) }
{
    word % 256 / 4
}

// The checks 1 to 5, and where they pass the length of begin's list.
pub fn count_begin(
    memory: &[u8],
    cache: &[u8],
    table: &[u64],
    controller: Controller,
    unfit: bool,
) -> Result<usize, Number>
    ensures judged { Judged (N.first_of (N.common_checks (board_of memory.now cache.now table.now controller) unfit)) result }
    ensures counted { IfOk result (λ words. words ≡ length (R.copies controller.geometry cache.now 0 table.now)) }
{
    let blocks = checked_sum(memory, cache, table, controller, unfit, copies_for)?;
    Ok(8 * blocks as usize)
}
