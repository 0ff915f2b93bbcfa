// Room for a table's words while the board's calls work on them (document 02, No. 4). Each function lends its room to the call of the same name in `tabled`.
// What is lent comes one by one, by & or &mut as the call needs it: one value of all of it would ask callers for more.
#![tactic(auto)]

ghost use Rattle.std.specs.Prelude.{◌≡◌, ℕ, ◌≤◌, List, length};
ghost use denote.Ref.{MutBor};
ghost use Rattle.rules.specs.Board.{board_of};
ghost use Rattle.rules.specs.Calls as C;
ghost use Rattle.loads.specs.Reading.{Loaded};
ghost use Rattle.tabled.specs.Tabled as T;

use rules::{Answer, Controller, Geometry, Number, Recovery};

// Lends a call the room for a table's words: 512 bytes for a small table, 4 KiB for any other. Clearing the larger at each call would cost a small board as much as the call itself.
// The call is lent and not moved: so what it changes is known where it was made.
fn in_room<R, F: FnMut(&mut [u64]) -> R>(slots: usize, call: &mut F) -> R
    requires fits { slots ≤ 512 }
    requires callable { (words : MutBor (List ℕ)) → length words.now ≡ slots → F.pre call.old words }
    ensures { (words after : MutBor (List ℕ)) × (length words.now ≡ slots) × F.step call.old words result after call.new }
{
    if slots <= 64 {
        return call(&mut [0u64; 64][..slots]);
    }
    call(&mut [0u64; 512][..slots])
}

// It answers a number, DONE among them, as document 01 has it.
pub fn load(
    memory: &[u8],
    cache: &[u8],
    table: &[u8],
    controller: Controller,
    block: usize,
    offset: usize,
    into: &mut [u8],
) -> Number
    requires { T.Whole table.now }
    ensures { Loaded (board_of memory.now cache.now (T.table_words table.now) controller) block offset into.old into.new result }
{
    let slots = table.len() / 8;
    let mut call = |words: &mut [u64]| tabled::load(
        memory, cache, table, words, controller, block, offset, into,
    );
    in_room(slots, &mut call)
}

pub fn store(
    memory: &mut [u8],
    cache: &mut [u8],
    table: &mut [u8],
    controller: Controller,
    block: usize,
    offset: usize,
    bytes: &[u8],
    p: usize,
) -> Answer
    requires { T.Whole table.old }
    ensures { T.Tabled (C.call p (board_of memory.old cache.old (T.table_words table.old) controller) (C.store block offset bytes.now)) result memory.new cache.new table.old table.new }
{
    let slots = table.len() / 8;
    let mut call = |words: &mut [u64]| tabled::store(
        memory, cache, table, words, controller, block, offset, bytes, p,
    );
    in_room(slots, &mut call)
}

pub fn begin(
    memory: &mut [u8],
    cache: &[u8],
    table: &mut [u8],
    controller: Controller,
    registers: &[u8],
    p: usize,
) -> Answer
    requires { T.Whole table.old }
    ensures { T.Tabled (C.call p (board_of memory.old cache.now (T.table_words table.old) controller) (C.begin registers.now)) result memory.new cache.now table.old table.new }
{
    let slots = table.len() / 8;
    let mut call = |words: &mut [u64]| tabled::begin(
        memory, cache, table, words, controller, registers, p,
    );
    in_room(slots, &mut call)
}

pub fn step(
    memory: &mut [u8],
    cache: &[u8],
    table: &[u8],
    controller: Controller,
    most: usize,
    p: usize,
) -> Answer
    requires { T.Whole table.now }
    ensures { T.Tabled (C.call p (board_of memory.old cache.now (T.table_words table.now) controller) (C.step most)) result memory.new cache.now table.now table.now }
{
    let slots = table.len() / 8;
    let mut call = |words: &mut [u64]| tabled::step(
        memory, cache, table, words, controller, most, p,
    );
    in_room(slots, &mut call)
}

pub fn format(
    memory: &mut [u8],
    cache: &[u8],
    table: &mut [u8],
    controller: Controller,
    g: Geometry,
    fill: u8,
    p: usize,
) -> Answer
    requires { T.Whole table.old }
    ensures { T.Tabled (C.call p (board_of memory.old cache.now (T.table_words table.old) controller) (C.format g fill)) result memory.new cache.now table.old table.new }
{
    let slots = table.len() / 8;
    let mut call = |words: &mut [u64]| tabled::format(
        memory, cache, table, words, controller, g, fill, p,
    );
    in_room(slots, &mut call)
}

// One room, lent by no closure: so the compiler leaves the array out, and a recovery's words go from the memory straight to the table's bytes.
pub fn recover(
    memory: &[u8],
    cache: &[u8],
    table: &mut [u8],
    controller: Controller,
    g: Geometry,
) -> Recovery
    requires { T.Whole table.old }
    ensures { (p : ℕ) → T.TabledRecovery (C.call p (board_of memory.now cache.now (T.table_words table.old) controller) (C.recover g)) result memory.now cache.now table.old table.new }
{
    let slots = table.len() / 8;
    let mut words = [0u64; 512];
    tabled::recover(memory, cache, table, &mut words[..slots], controller, g)
}
