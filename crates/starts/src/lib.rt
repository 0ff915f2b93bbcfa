// The calls that start a board: format and recovery (document 01, Checkpoints).
// What is lent comes one by one, by & or &mut as the call needs it: one value of all of it would ask callers for more.
#![tactic(auto)]

ghost use Rattle.std.specs.Prelude.{◌≡◌, ℕ};
ghost use Rattle.rules.specs.Board.{board_of};
ghost use Rattle.rules.specs.Power.{outcome_of};
ghost use Rattle.rules.specs.Starts.{Recovered};
ghost use Rattle.rules.specs.Calls as Call;

use crate::formats::{clear_table, cut_short, format_words, lay_format};
use backups::{finished_by, mark_in, recover_from, refused_recovery, registers_by, started};
use checks::answers::{refused, reply};
use checks::numbers::check_sizes;
use rules::{Answer, Backup, Controller, Geometry, Number, Recovery};

pub mod formats;

#[inline]
pub fn format(
    memory: &mut [u8],
    cache: &[u8],
    table: &mut [u64],
    controller: Controller,
    g: Geometry,
    fill: u8,
    p: usize,
) -> Answer
    ensures { Call.call p (board_of memory.old cache.now table.old controller) (Call.format g fill) ≡ outcome_of result memory.new cache.now table.new }
{
    if let Err(number) = check_sizes(memory, cache, table, g) {
        return refused(number, controller);
    }
    // known before the first word is stored
    let words = format_words(g);
    lay_format(memory, g, fill, p);
    if p < words {
        return reply(Number::Cut, p, cut_short(controller, g));
    }
    clear_table(table);
    let formatted = started(g, Backup::A, [0; 64]);
    reply(Number::Done, words, formatted)
}

// Recovery stores no word, so no allowance is asked for.
pub fn recover(
    memory: &[u8],
    cache: &[u8],
    table: &mut [u64],
    controller: Controller,
    g: Geometry,
) -> Recovery
    ensures { (p : ℕ) → Recovered (Call.call p (board_of memory.now cache.now table.old controller) (Call.recover g)) result memory.now cache.now table.new }
{
    if let Err(number) = check_sizes(memory, cache, table, g) {
        return refused_recovery(number, controller);
    }
    let mark = mark_in(memory, g);
    let Some(backup) = finished_by(mark) else {
        return refused_recovery(Number::NoCheckpoint, controller);
    };
    let registers = registers_by(mark);
    let start = 8 * g.backup_start(backup);
    recover_from(&memory[start..], table, controller, g, backup, registers)
}
