// The calls that make a checkpoint: begin and step (document 01, Checkpoints).
// What is lent comes one by one, by & or &mut as the call needs it: one value of all of it would ask callers for more.
#![tactic(auto)]

ghost use Rattle.std.specs.Prelude.{◌≡◌};
ghost use Rattle.rules.specs.Board.{board_of};
ghost use Rattle.rules.specs.Power.{outcome_of};
ghost use Rattle.rules.specs.Calls as K;

use crate::backups::{lay_next, stepped};
use checks::answers::{refused, reply, switched_off};
use checks::numbers::{check_common, count_of, is_running, is_writing};
use copies::counts::count_begin;
use copies::{begin_slots, begun, lay_copies};
use rules::{Answer, Controller, Number};

pub mod backups;

// Copies CACHE back, changes the table and keeps the registers.
pub fn begin(
    memory: &mut [u8],
    cache: &[u8],
    table: &mut [u64],
    controller: Controller,
    registers: &[u8],
    p: usize,
) -> Answer
    ensures { K.call p (board_of memory.old cache.now table.old controller) (K.begin registers.now) ≡ outcome_of result memory.new cache.now table.new }
{
    let unfit = registers.len() != 64;
    let words = match count_begin(memory, cache, table, controller, unfit) {
        Ok(words) => words,
        Err(number) => return refused(number, controller),
    };
    if is_writing(controller.phase) {
        return refused(Number::Busy, controller);
    }
    if p < words {
        lay_copies(memory, cache, table, controller.geometry, p);
        return reply(Number::Cut, p, switched_off(controller));
    }
    begin_slots(memory, cache, table, controller.geometry);
    reply(Number::Done, words, begun(controller, registers))
}

// Stores the next words of the checkpoint, at most `most`.
pub fn step(
    memory: &mut [u8],
    cache: &[u8],
    table: &[u64],
    controller: Controller,
    most: usize,
    p: usize,
) -> Answer
    ensures { K.call p (board_of memory.old cache.now table.now controller) (K.step most) ≡ outcome_of result memory.new cache.now table.now }
{
    let Controller {
        geometry,
        phase,
        ..
    } = controller;
    if let Err(number) = check_common(memory.len(), cache.len(), table, geometry, phase, false) {
        return refused(number, controller);
    }
    if is_running(phase) {
        return refused(Number::Idle, controller);
    }
    let count = count_of(phase);
    let left = (geometry.slots as usize) + 9 - count;
    let words = most.min(left);
    lay_next(memory, table, controller, count, words, p);
    if p < words {
        return reply(Number::Cut, p, switched_off(controller));
    }
    reply(Number::Done, words, stepped(controller, count + words))
}
