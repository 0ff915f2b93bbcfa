// The calls of the new stored form: the board's sizes in two words after the mark (document 02, No. 6). None has a `requires`.
// What is lent comes one by one, by & or &mut as the call needs it: one value of all of it would ask callers for more.
#![tactic(auto)]

ghost use Rattle.std.specs.Prelude.{◌≡◌, ℕ};
ghost use Rattle.rules.specs.Board.{board_of};
ghost use Rattle.rules.specs.Power.{outcome_of};
ghost use Rattle.rules.specs.Starts.{Recovered};
ghost use Rattle.forms.specs.Calls as Call;

use crate::numbers::{check_headed, check_named, check_sizes};
use crate::stored::{header_in, lay_long_format, lay_up, lay_zeros, long_format_words};
use backups::{refused_recovery, started};
use checks::answers::{ended, refused, reply};
use rules::{Answer, Backup, Controller, Geometry, Number, Recovery};
use starts::formats::{clear_table, cut_short};

mod numbers;
mod stored;

// The end is written out as in the old form's format: one function of both costs 131 instructions at 64/16.
pub fn format(
    memory: &mut [u8],
    cache: &[u8],
    table: &mut [u64],
    controller: Controller,
    g: Geometry,
    fill: u8,
    p: usize,
) -> Answer
    ensures { Call.call p (board_of memory.old cache.now table.old controller) (Call.format g fill) ≡ outcome_of result memory.new cache.now table.new }
{
    if let Err(number) = check_sizes(memory, cache, table, g) {
        return refused(number, controller);
    }
    // known before the first word is stored
    let words = long_format_words(g);
    lay_long_format(memory, g, fill, p);
    if p < words {
        return reply(Number::Cut, p, cut_short(controller, g));
    }
    clear_table(table);
    let formatted = started(g, Backup::A, [0; 64]);
    reply(Number::Done, words, formatted)
}

// Recovery stores no word, so no allowance is asked for. Behind the header it is the old form's.
pub fn recover(
    memory: &[u8],
    cache: &[u8],
    table: &mut [u64],
    controller: Controller,
    g: Geometry,
) -> Recovery
    ensures { (p : ℕ) → Recovered (Call.call p (board_of memory.now cache.now table.old controller) (Call.recover g)) result memory.now cache.now table.new }
{
    if let Err(number) = check_named(memory, cache, table, g, true) {
        return refused_recovery(number, controller);
    }
    let end = 8 * g.memory_words();
    starts::recover(&memory[..end], cache, table, controller, g)
}

// From the old form to the new.
pub fn move_up(
    memory: &mut [u8],
    cache: &[u8],
    table: &[u64],
    controller: Controller,
    g: Geometry,
    p: usize,
) -> Answer
    ensures { Call.call p (board_of memory.old cache.now table.now controller) (Call.up g) ≡ outcome_of result memory.new cache.now table.now }
{
    if let Err(number) = check_headed(memory, cache, table, g, false) {
        return refused(number, controller);
    }
    let header = header_in(memory, g);
    let words = lay_up(memory, g, header, p);
    ended(words, controller, p)
}

// From the new form to the old.
pub fn move_back(
    memory: &mut [u8],
    cache: &[u8],
    table: &[u64],
    controller: Controller,
    g: Geometry,
    p: usize,
) -> Answer
    ensures { Call.call p (board_of memory.old cache.now table.now controller) (Call.back g) ≡ outcome_of result memory.new cache.now table.now }
{
    if let Err(number) = check_headed(memory, cache, table, g, true) {
        return refused(number, controller);
    }
    let words = lay_zeros(memory, g, p);
    ended(words, controller, p)
}
