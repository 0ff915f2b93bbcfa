// The board's calls on a table of bytes: its words are read into a lent part, the call works on them, and they are written back unless it is refused (document 02, No. 4).
// What is lent comes one by one, by & or &mut as the call needs it: one value of all of it would ask callers for more.
#![tactic(auto)]

ghost use Rattle.std.specs.Prelude.{◌≡◌, cond, ℕ, ◌*◌, length};
ghost use Rattle.words.specs.Words.{number_bytes};
ghost use Rattle.rules.specs.Board.{board_of};
ghost use Rattle.rules.specs.Power.{outcome_of};
ghost use Rattle.rules.specs.Calls as C;
ghost use Rattle.loads.specs.Reading.{Loaded};
ghost use Rattle.tabled.specs.Tabled as T;

use codec::tables::{read_table, write_table};
use rules::{Answer, Controller, Geometry, Number, Recovery};

// Whether a call that was answered so changed anything: all but a refusal.
#[tactic(auto, unfolding(crate::specs::Tabled::changes, rules::specs::Numbers::number_of))]
pub fn changes(number: Number) -> bool
    ensures { result ≡ T.changes number }
{
    matches!(number, Number::Done | Number::Cut)
}

// A refused call leaves the table's bytes as they were.
fn write_back(table: &mut [u8], words: &[u64], number: Number)
    requires { length table.old ≡ 8 * length words.now }
    ensures { table.new ≡ cond (T.changes number) (number_bytes words.now) table.old }
{
    if changes(number) {
        write_table(words, table);
    }
}

// Each call reads the table, calls the board and writes back. A shared function would have to be lent a closure, which takes as many lines.

// A load answers a number, DONE among them, as document 01 has it.
pub fn load(
    memory: &[u8],
    cache: &[u8],
    table: &[u8],
    words: &mut [u64],
    controller: Controller,
    block: usize,
    offset: usize,
    into: &mut [u8],
) -> Number
    requires { length table.now ≡ 8 * length words.old }
    ensures { Loaded (board_of memory.now cache.now (T.table_words table.now) controller) block offset into.old into.new result }
{
    read_table(table, words);
    board::load(memory, cache, words, controller, block, offset, into)
}

pub fn store(
    memory: &mut [u8],
    cache: &mut [u8],
    table: &mut [u8],
    words: &mut [u64],
    controller: Controller,
    block: usize,
    offset: usize,
    bytes: &[u8],
    p: usize,
) -> Answer
    requires { length table.old ≡ 8 * length words.old }
    ensures { T.Tabled (C.call p (board_of memory.old cache.old (T.table_words table.old) controller) (C.store block offset bytes.now)) result memory.new cache.new table.old table.new }
{
    read_table(table, words);
    let answer = board::store(memory, cache, words, controller, block, offset, bytes, p);
    write_back(table, words, answer.number);
    answer
}

pub fn begin(
    memory: &mut [u8],
    cache: &[u8],
    table: &mut [u8],
    words: &mut [u64],
    controller: Controller,
    registers: &[u8],
    p: usize,
) -> Answer
    requires { length table.old ≡ 8 * length words.old }
    ensures { T.Tabled (C.call p (board_of memory.old cache.now (T.table_words table.old) controller) (C.begin registers.now)) result memory.new cache.now table.old table.new }
{
    read_table(table, words);
    let answer = board::begin(memory, cache, words, controller, registers, p);
    write_back(table, words, answer.number);
    answer
}

// A step leaves the table as it was.
pub fn step(
    memory: &mut [u8],
    cache: &[u8],
    table: &[u8],
    words: &mut [u64],
    controller: Controller,
    most: usize,
    p: usize,
) -> Answer
    requires { length table.now ≡ 8 * length words.old }
    ensures { T.Tabled (C.call p (board_of memory.old cache.now (T.table_words table.now) controller) (C.step most)) result memory.new cache.now table.now table.now }
{
    read_table(table, words);
    board::step(memory, cache, words, controller, most, p)
}

pub fn format(
    memory: &mut [u8],
    cache: &[u8],
    table: &mut [u8],
    words: &mut [u64],
    controller: Controller,
    g: Geometry,
    fill: u8,
    p: usize,
) -> Answer
    requires { length table.old ≡ 8 * length words.old }
    ensures { T.Tabled (C.call p (board_of memory.old cache.now (T.table_words table.old) controller) (C.format g fill)) result memory.new cache.now table.old table.new }
{
    read_table(table, words);
    let answer = board::format(memory, cache, words, controller, g, fill, p);
    write_back(table, words, answer.number);
    answer
}

pub fn recover(
    memory: &[u8],
    cache: &[u8],
    table: &mut [u8],
    words: &mut [u64],
    controller: Controller,
    g: Geometry,
) -> Recovery
    requires { length table.old ≡ 8 * length words.old }
    ensures { (p : ℕ) → T.TabledRecovery (C.call p (board_of memory.now cache.now (T.table_words table.old) controller) (C.recover g)) result memory.now cache.now table.old table.new }
{
    read_table(table, words);
    let recovery = board::recover(memory, cache, words, controller, g);
    let answer = recovery.answer;
    write_back(table, words, answer.number);
    recovery
}
