// The checks that come before a call's work, in the order of their numbers (document 01, Numbers returned).
// What is lent comes one by one, by & or &mut as the call needs it: one value of all of it would ask callers for more.
ghost use Rattle.std.specs.Prelude.{◌≡◌, ◌==◌};
ghost use Rattle.rules.specs.declared.Controller as C;
ghost use Rattle.rules.specs.Board.{Board, board_of, sizes, phase_of};
ghost use Rattle.rules.specs.Numbers as N;
ghost use Rattle.rules.specs.Checkpoints.{count_of};
ghost use Rattle.rules.specs.Starts.{format_number};
ghost use Rattle.checks.specs.Early.{early_checks, phase_checks};
ghost use Rattle.checks.specs.Lent.{Lengths, Lent};
ghost use Rattle.checks.specs.Results.{Judged};

use super::forms::table_formed;
use rules::{Geometry, Number, Phase};

pub fn accepted(number: Number) -> bool
    ensures { result ≡ (N.number_of number == 0) }
{
    u64::from(number) == 0
}

// 1 GEOMETRY
pub fn outside(g: Geometry) -> bool
    ensures { result ≡ N.outside g }
{
    let blocks = g.blocks;
    let slots = g.slots;
    if blocks < 1 {
        return true;
    }
    if Geometry::MAX_BLOCKS < blocks {
        return true;
    }
    if slots < 1 {
        return true;
    }
    if Geometry::MAX_SLOTS < slots {
        return true;
    }
    false
}

// 2 BUFFER, by the lent lengths
pub fn inexact(memory: usize, cache: usize, table: usize, g: Geometry) -> bool
    ensures { (board : Board) → Lengths board memory cache table → result ≡ N.inexact g board }
{
    let words = g.memory_words();
    let slots = g.slots as usize;
    if memory != 8 * words {
        return true;
    }
    if cache != 64 * slots {
        return true;
    }
    if table != slots {
        return true;
    }
    false
}

pub fn count_of(phase: Phase) -> usize
    ensures { result ≡ count_of phase }
{
    match phase {
        Phase::Running => 0,
        Phase::Writing(count) => count as usize,
        Phase::Off => 0,
    }
}

// 8 BUSY
pub fn is_writing(phase: Phase) -> bool
    ensures { result ≡ N.is_writing phase }
{
    matches!(phase, Phase::Writing(_))
}

// 9 IDLE
pub fn is_running(phase: Phase) -> bool
    ensures { result ≡ N.is_running phase }
{
    matches!(phase, Phase::Running)
}

// 3 RECORD and 4 OFF
pub fn check_phase(phase: Phase, g: Geometry) -> Result<(), Number>
    ensures { Judged (N.first_of (phase_checks g phase)) result }
{
    match phase {
        Phase::Running => Ok(()),
        Phase::Writing(count) => {
            if (g.slots as usize) + 8 < count as usize {
                return Err(Number::Record);
            }
            Ok(())
        }
        Phase::Off => Err(Number::Off),
    }
}

// The checks 1 to 4, which read no byte of what is lent: its lengths are enough. `unfit` tells whether begin's registers aren't 64 bytes.
pub fn check_early(
    memory: usize,
    cache: usize,
    table: usize,
    g: Geometry,
    phase: Phase,
    unfit: bool,
) -> Result<(), Number>
    ensures { (board : Board) → Lengths board memory cache table → sizes board ≡ g → phase_of board ≡ phase → Judged (N.first_of (early_checks board unfit)) result }
{
    if outside(g) {
        return Err(Number::Geometry);
    }
    if inexact(memory, cache, table, g) | unfit {
        return Err(Number::Buffer);
    }
    check_phase(phase, g)
}

// The checks 1 to 5 of load, peek, store, begin and step.
#[inline]
pub fn check_common(
    memory: usize,
    cache: usize,
    table: &[u64],
    g: Geometry,
    phase: Phase,
    unfit: bool,
) -> Result<(), Number>
    ensures { (board : Board) → Lent board memory cache table.now g phase → Judged (N.first_of (N.common_checks board unfit)) result }
{
    check_early(memory, cache, table.len(), g, phase, unfit)?;
    if !table_formed(table, phase, g) {
        return Err(Number::Table);
    }
    Ok(())
}

// The checks 1 and 2 of the sizes that format and recovery are given.
pub fn check_sizes(memory: &[u8], cache: &[u8], table: &[u64], g: Geometry) -> Result<(), Number>
    ensures { (c : C.Controller) → Judged (format_number (board_of memory.now cache.now table.now c) g) result }
{
    if outside(g) {
        return Err(Number::Geometry);
    }
    if inexact(memory.len(), cache.len(), table.len(), g) {
        return Err(Number::Buffer);
    }
    Ok(())
}
