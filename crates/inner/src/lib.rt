// The board's calls with the controller record lent: each finds it and leaves it updated (document 02, No. 4 and No. 7).
// What is lent comes one by one, by & or &mut as the call needs it: one value of all of it would ask callers for more.
#![tactic(auto)]

ghost use Rattle.std.specs.Prelude.{◌≡◌, ℕ};
ghost use Rattle.rules.specs.Board.{board_of};
ghost use Rattle.rules.specs.Power.{outcome_of};
ghost use Rattle.rules.specs.Calls as C;
ghost use Rattle.rules.specs.Starts.{Recovered};
ghost use Rattle.inner.specs.Replies.{answered, recovered};

use rules::{Answer, Controller, Geometry, Number, Recovery, Registers};

// What an answer says beside the record.
#[derive(Clone, Copy, Debug, PartialEq, Eq)]
pub struct Reply {
    pub number: Number,
    pub words: usize,
}

// What a recovery says beside the record.
#[derive(Clone, Copy, Debug, PartialEq, Eq)]
pub struct Regained {
    pub number: Number,
    pub words: usize,
    pub registers: Registers,
}

impl From<Answer> for Reply {
    ghost from_gives = { λ answer reply. reply ≡ record { number = answer.number; words = answer.words } };

    fn from(answer: Answer) -> Reply {
        Reply {
            number: answer.number,
            words: answer.words,
        }
    }
}

impl From<Recovery> for Regained {
    ghost from_gives = { λ recovery regained. regained ≡ record { number = recovery.answer.number; words = recovery.answer.words; registers = recovery.registers } };

    fn from(recovery: Recovery) -> Regained {
        let Reply { number, words } = Reply::from(recovery.answer);
        Regained {
            number,
            words,
            registers: recovery.registers,
        }
    }
}

// Leaves the record of an answer where it was lent, and tells the rest.
fn leave(answer: Answer, controller: &mut Controller) -> Reply
    ensures { answered result controller.new ≡ answer }
{
    *controller = answer.controller;
    Reply::from(answer)
}

pub fn store(
    memory: &mut [u8],
    cache: &mut [u8],
    table: &mut [u64],
    controller: &mut Controller,
    block: usize,
    offset: usize,
    bytes: &[u8],
    p: usize,
) -> Reply
    ensures { C.call p (board_of memory.old cache.old table.old controller.old) (C.store block offset bytes.now) ≡ outcome_of (answered result controller.new) memory.new cache.new table.new }
{
    let answer = board::store(memory, cache, table, *controller, block, offset, bytes, p);
    leave(answer, controller)
}

pub fn begin(
    memory: &mut [u8],
    cache: &[u8],
    table: &mut [u64],
    controller: &mut Controller,
    registers: &[u8],
    p: usize,
) -> Reply
    ensures { C.call p (board_of memory.old cache.now table.old controller.old) (C.begin registers.now) ≡ outcome_of (answered result controller.new) memory.new cache.now table.new }
{
    let answer = board::begin(memory, cache, table, *controller, registers, p);
    leave(answer, controller)
}

pub fn step(
    memory: &mut [u8],
    cache: &[u8],
    table: &[u64],
    controller: &mut Controller,
    most: usize,
    p: usize,
) -> Reply
    ensures { C.call p (board_of memory.old cache.now table.now controller.old) (C.step most) ≡ outcome_of (answered result controller.new) memory.new cache.now table.now }
{
    let answer = board::step(memory, cache, table, *controller, most, p);
    leave(answer, controller)
}

pub fn sweep(
    memory: &mut [u8],
    cache: &[u8],
    table: &mut [u64],
    controller: &mut Controller,
    limit: usize,
    p: usize,
) -> Reply
    ensures { C.call p (board_of memory.old cache.now table.old controller.old) (C.sweep limit) ≡ outcome_of (answered result controller.new) memory.new cache.now table.new }
{
    let answer = board::sweep(memory, cache, table, *controller, limit, p);
    leave(answer, controller)
}

pub fn format(
    memory: &mut [u8],
    cache: &[u8],
    table: &mut [u64],
    controller: &mut Controller,
    g: Geometry,
    fill: u8,
    p: usize,
) -> Reply
    ensures { C.call p (board_of memory.old cache.now table.old controller.old) (C.format g fill) ≡ outcome_of (answered result controller.new) memory.new cache.now table.new }
{
    let answer = board::format(memory, cache, table, *controller, g, fill, p);
    leave(answer, controller)
}

pub fn recover(
    memory: &[u8],
    cache: &[u8],
    table: &mut [u64],
    controller: &mut Controller,
    g: Geometry,
) -> Regained
    ensures { (p : ℕ) → Recovered (C.call p (board_of memory.now cache.now table.old controller.old) (C.recover g)) (recovered result controller.new) memory.now cache.now table.new }
{
    let recovery = board::recover(memory, cache, table, *controller, g);
    *controller = recovery.answer.controller;
    Regained::from(recovery)
}
