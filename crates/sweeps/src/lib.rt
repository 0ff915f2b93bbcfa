// The call that makes room: sweep (document 02, No. 7).
// What is lent comes one by one, by & or &mut as the call needs it: one value of all of it would ask callers for more.
#![tactic(auto)]

ghost use Rattle.std.specs.Prelude.{◌≡◌};
ghost use Rattle.rules.specs.Board.{board_of};
ghost use Rattle.rules.specs.Power.{outcome_of};
ghost use Rattle.rules.specs.Calls as K;

use crate::counts::count_sweep;
use crate::slots::{lay_swept, sweep_slots};
use checks::answers::{refused, reply, switched_off};
use checks::numbers::is_writing;
use rules::{Answer, Controller, Number};

pub mod counts;
pub mod slots;

// Treats the lowest clean entries, at most `limit`, as stores of their unchanged bytes; their slots come free at the next begin.
pub fn sweep(
    memory: &mut [u8],
    cache: &[u8],
    table: &mut [u64],
    controller: Controller,
    limit: usize,
    p: usize,
) -> Answer
    ensures { K.call p (board_of memory.old cache.now table.old controller) (K.sweep limit) ≡ outcome_of result memory.new cache.now table.new }
{
    let clean = match count_sweep(memory, cache, table, controller) {
        Ok(clean) => clean,
        Err(number) => return refused(number, controller),
    };
    if is_writing(controller.phase) {
        return refused(Number::Busy, controller);
    }
    let entries = limit.min(clean);
    let words = 8 * entries;
    if p < words {
        lay_swept(memory, table, controller.geometry, entries, p);
        return reply(Number::Cut, p, switched_off(controller));
    }
    sweep_slots(memory, table, controller.geometry, entries);
    reply(Number::Done, words, controller)
}
