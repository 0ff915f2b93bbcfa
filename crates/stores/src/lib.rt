// Store: 1 to 64 bytes of one block replaced (document 01, Stores).
// What is lent comes one by one, by & or &mut as the call needs it: one value of all of it would ask callers for more.
#![tactic(auto)]

ghost use Rattle.std.specs.Prelude.{◌≡◌, ◌<◌};
ghost use Rattle.rules.specs.TableWords as W;
ghost use Rattle.rules.specs.Board.{board_of};
ghost use Rattle.rules.specs.Power.{outcome_of};
ghost use Rattle.rules.specs.Stores as S;
ghost use Rattle.rules.specs.Calls as C;
ghost use Rattle.checks.specs.Tables.{Formed};

use checks::answers::refused;
use checks::table::{Seat, seat_for};
use loads::check_load;
use merges::Patch;
use moves::move_for;
use placing::{spot_of, store_at};
use rules::{Answer, Controller, Number};

// The table is walked for its words' form, then for the block's entry and, where it has none, for a free slot.
pub fn store(
    memory: &mut [u8],
    cache: &mut [u8],
    table: &mut [u64],
    controller: Controller,
    block: usize,
    offset: usize,
    bytes: &[u8],
    p: usize,
) -> Answer
    ensures { C.call p (board_of memory.old cache.old table.old controller) (C.store block offset bytes.now) ≡ outcome_of result memory.new cache.new table.new }
{
    let g = controller.geometry;
    let phase = controller.phase;
    if let Err(number) = check_load(
        memory.len(),
        cache.len(),
        table,
        g,
        phase,
        block,
        offset,
        bytes.len(),
    ) {
        return refused(number, controller);
    }
    let Seat { found, slot } = seat_for(table, block);
    let Some(slot) = slot else {
        return refused(Number::Full, controller);
    };
    let next = move_for(phase, found);
    let from = spot_of(g, block, found);
    let patch = Patch { offset, bytes };
    store_at(
        memory, cache, table, controller, block, slot, from, patch, next, p,
    )
}

// The number of a store that isn't cut, as document 01 has it. The check is written out as in `store`, which goes on with the slices lent by &mut.
pub fn store_number(
    memory: &[u8],
    cache: &[u8],
    table: &[u64],
    controller: Controller,
    block: usize,
    offset: usize,
    bytes: &[u8],
) -> Number
    ensures { result ≡ S.store_number (board_of memory.now cache.now table.now controller) block offset bytes.now }
{
    let g = controller.geometry;
    let phase = controller.phase;
    if let Err(number) = check_load(
        memory.len(),
        cache.len(),
        table,
        g,
        phase,
        block,
        offset,
        bytes.len(),
    ) {
        return number;
    }
    if full(table, block) {
        return Number::Full;
    }
    Number::Done
}

// 7 FULL
pub fn full(table: &[u64], block: usize) -> bool
    requires { Formed table.now × (block < 4096) }
    ensures { result ≡ S.full (S.slot_for (W.lookup block table.now) (W.lowest_free table.now)) }
{
    seat_for(table, block).slot.is_none()
}
