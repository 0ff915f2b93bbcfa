// The checks of the new form's calls, in document 02's order: GEOMETRY, BUFFER, 13 NO HEADER, 14 WRONG BOARD, NO CHECKPOINT, BACKUP.
// What is lent comes one by one, by & or &mut as the call needs it: one value of all of it would ask callers for more.
ghost use Rattle.std.specs.Prelude.{◌≡◌, ◌++◌, ◌*◌, ◌≤◌, length};
ghost use Rattle.rules.specs.declared.Controller as C;
ghost use Rattle.rules.specs.Geometry.{memory_words};
ghost use Rattle.rules.specs.Board.{Board, Volatile, board_of};
ghost use Rattle.rules.specs.Numbers.{first_of};
ghost use Rattle.rules.specs.Starts.{finished_in, recovery_checks};
ghost use Rattle.checks.specs.Lent.{Lengths};
ghost use Rattle.checks.specs.Results.{Judged};
ghost use Rattle.forms.specs.Stored.{header_of};
ghost use Rattle.forms.specs.Calls as N;

use crate::stored::header_in;
use backups::{backup_sound, finished_by, mark_in};
use checks::numbers::{inexact, outside};
use forms::Header;
use rules::{Geometry, Number};

// 2 BUFFER: the memory is two words longer than the old form's.
pub fn long_inexact(memory: usize, cache: usize, table: usize, g: Geometry) -> bool
    ensures { (board : Board) → Lengths board memory cache table → result ≡ N.long_inexact g board }
{
    if memory < 16 {
        return true;
    }
    inexact(memory - 16, cache, table, g)
}

// Not one function with the old form's: the lengths that it compares are others.
pub fn check_sizes(memory: &[u8], cache: &[u8], table: &[u64], g: Geometry) -> Result<(), Number>
    ensures { (c : C.Controller) → Judged (first_of (N.sizes_checks (board_of memory.now cache.now table.now c) g)) result }
{
    if outside(g) {
        return Err(Number::Geometry);
    }
    if long_inexact(memory.len(), cache.len(), table.len(), g) {
        return Err(Number::Buffer);
    }
    Ok(())
}

// 13 NO HEADER, where a header is needed, and 14 WRONG BOARD.
pub fn check_header(header: Header, needed: bool) -> Result<(), Number>
    ensures { Judged (first_of (N.header_checks needed header)) result }
{
    match header {
        Header::Missing => {
            if needed {
                return Err(Number::NoHeader);
            }
            Ok(())
        }
        Header::Fits => Ok(()),
        Header::Other => Err(Number::WrongBoard),
    }
}

// The checks before those of the old form's recovery.
pub fn check_named(
    memory: &[u8],
    cache: &[u8],
    table: &[u64],
    g: Geometry,
    needed: bool,
) -> Result<(), Number>
    ensures { (c : C.Controller) → Judged (first_of (N.sizes_checks (board_of memory.now cache.now table.now c) g ++ N.header_checks needed (header_of g memory.now))) result }
{
    check_sizes(memory, cache, table, g)?;
    check_header(header_in(memory, g), needed)
}

// 10 NO CHECKPOINT and 11 BACKUP: whether a memory of the old form recovers.
pub fn check_recovery(memory: &[u8], g: Geometry) -> Result<(), Number>
    requires { (g.blocks ≤ 4096) × (length memory.now ≡ 8 * memory_words g) }
    ensures { (side : Volatile) → Judged (first_of (recovery_checks (record { memory = memory.entry.now; volatile = side }) g (finished_in g memory.entry.now))) result }
{
    let mark = mark_in(memory, g);
    let Some(backup) = finished_by(mark) else {
        return Err(Number::NoCheckpoint);
    };
    let start = 8 * g.backup_start(backup);
    if !backup_sound(&memory[start..], g) {
        return Err(Number::Backup);
    }
    Ok(())
}

// All of them, as both moves check them.
pub fn check_headed(
    memory: &[u8],
    cache: &[u8],
    table: &[u64],
    g: Geometry,
    needed: bool,
) -> Result<(), Number>
    ensures { (c : C.Controller) → Judged (N.headed_number needed (board_of memory.now cache.now table.now c) g) result }
{
    check_named(memory, cache, table, g, needed)?;
    let end = 8 * g.memory_words();
    check_recovery(&memory[..end], g)
}
