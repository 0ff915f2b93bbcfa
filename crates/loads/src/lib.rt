// Load, peek and peek's number (document 01, Where a block shows; Numbers returned).
// What is lent comes one by one, by & or &mut as the call needs it: one value of all of it would ask callers for more.
#![tactic(auto)]

ghost use Rattle.std.specs.Prelude.{◌≡◌};
ghost use Rattle.rules.specs.Board.{Board, sizes, board_of};
ghost use Rattle.rules.specs.Numbers.{no_block, out_of_range};
ghost use Rattle.rules.specs.Loads.{load_number, peek_number};
ghost use Rattle.checks.specs.Lent.{Lent};
ghost use Rattle.checks.specs.Results.{Judged};
ghost use Rattle.loads.specs.Reading.{Loaded, Peeked};

use checks::numbers::check_common;
use rules::{Controller, Geometry, Number, Phase};

// 6 RANGE, of a peek
pub fn no_block(g: Geometry, block: usize) -> bool
    ensures { (board : Board) → sizes board ≡ g → result ≡ no_block board block }
{
    g.blocks as usize <= block
}

// 6 RANGE. The offset is compared first: offset + len may be no usize.
pub fn out_of_range(g: Geometry, block: usize, offset: usize, len: usize) -> bool
    ensures { (board : Board) → sizes board ≡ g → result ≡ out_of_range board block offset len }
{
    if no_block(g, block) {
        return true;
    }
    if offset > 63 {
        return true;
    }
    if len == 0 {
        return true;
    }
    len > 64 - offset
}

// The checks 1 to 6 of a load, and of a store of as many bytes, by the lent lengths.
#[inline]
pub fn check_load(
    memory: usize,
    cache: usize,
    table: &[u64],
    g: Geometry,
    phase: Phase,
    block: usize,
    offset: usize,
    len: usize,
) -> Result<(), Number>
    ensures { (board : Board) → Lent board memory cache table.now g phase → Judged (load_number board block offset len) result }
{
    check_common(memory, cache, table, g, phase, false)?;
    if out_of_range(g, block, offset, len) {
        return Err(Number::Range);
    }
    Ok(())
}

// Copies a range of the visible block; refused, it leaves `into` as it was. It answers a number, DONE among them, as document 01 has it.
pub fn load(
    memory: &[u8],
    cache: &[u8],
    table: &[u64],
    controller: Controller,
    block: usize,
    offset: usize,
    into: &mut [u8],
) -> Number
    ensures { Loaded (board_of memory.now cache.now table.now controller) block offset into.old into.new result }
{
    let g = controller.geometry;
    if let Err(number) = check_load(
        memory.len(),
        cache.len(),
        table,
        g,
        controller.phase,
        block,
        offset,
        into.len(),
    ) {
        return number;
    }
    let Some(entry) = checks::table::lookup(table, block) else {
        blocks::copy_home(memory, g, block, offset, into);
        return Number::Done;
    };
    blocks::copy_entry(memory, cache, g, block, entry, offset, into);
    Number::Done
}

// The checks 1 to 6 of a peek.
fn check_peek(
    memory: &[u8],
    cache: &[u8],
    table: &[u64],
    controller: Controller,
    block: usize,
) -> Result<(), Number>
    ensures { Judged (peek_number (board_of memory.now cache.now table.now controller) block) result }
{
    let g = controller.geometry;
    check_common(memory.len(), cache.len(), table, g, controller.phase, false)?;
    if no_block(g, block) {
        return Err(Number::Range);
    }
    Ok(())
}

// The number of a peek on the same inputs, as document 01 has it: 0 exactly when the part isn't empty.
pub fn peek_number(
    memory: &[u8],
    cache: &[u8],
    table: &[u64],
    controller: Controller,
    block: usize,
) -> Number
    ensures { result ≡ peek_number (board_of memory.now cache.now table.now controller) block }
{
    match check_peek(memory, cache, table, controller, block) {
        Ok(()) => Number::Done,
        Err(number) => number,
    }
}

// The whole visible block as a part of the memory or CACHE; refused, the empty part of the memory.
pub fn peek<'a>(
    memory: &'a [u8],
    cache: &'a [u8],
    table: &[u64],
    controller: Controller,
    block: usize,
) -> &'a [u8]
    ensures { Peeked result memory.entry cache.entry (board_of memory.now cache.now table.now controller) block }
{
    let Ok(()) = check_peek(memory, cache, table, controller, block) else {
        return &memory[0..0];
    };
    let g = controller.geometry;
    let Some(entry) = checks::table::lookup(table, block) else {
        return blocks::part_home(memory, g, block);
    };
    blocks::part_entry(memory, cache, g, block, entry)
}
