// The board for a C host: six calls on plain numbers and byte slices (document 02, No. 4). No door has a `requires`; include/rostimely.h says what no callee can check.
#![tactic(auto)]

ghost use Rattle.std.specs.Prelude.{◌≡◌, cond, not, ℕ, length};
ghost use Rattle.rules.specs.Numbers.{number_of};
ghost use Rattle.rules.specs.Calls as C;
ghost use Rattle.codec.specs.Encoding.{encoded};
ghost use Rattle.tabled.specs.Tabled as B;
ghost use Rattle.door.specs.Doors as D;
ghost use Rattle.door.specs.Answers as T;
ghost use Rattle.door.specs.Early.{number_of_early};

use codec::{RECORD_BYTES, is_record, put_record, record_in};
use early::{Early, given_sizes, kept_record};
use rules::{Answer, Registers};
use tabled::changes;

mod early;

// What a call tells C: the number returned, and the words stored.
#[repr(C)]
#[derive(Clone, Copy)]
pub struct RostimelyAnswer {
    pub number: u64,
    pub words: u64,
}

// What a recovery tells C: also whether there are registers, 1 or 0.
#[repr(C)]
#[derive(Clone, Copy)]
pub struct RostimelyRecovery {
    pub number: u64,
    pub words: u64,
    pub registers: u64,
}

impl From<Early> for RostimelyAnswer {
    ghost from_gives = { λ early told. told ≡ record { number = number_of_early early; words = 0 } };

    fn from(early: Early) -> RostimelyAnswer {
        RostimelyAnswer {
            number: u64::from(early),
            words: 0,
        }
    }
}

impl From<Early> for RostimelyRecovery {
    ghost from_gives = { λ early told. told ≡ record { number = number_of_early early; words = 0; registers = 0 } };

    fn from(early: Early) -> RostimelyRecovery {
        RostimelyRecovery {
            number: u64::from(early),
            words: 0,
            registers: 0,
        }
    }
}

impl From<Answer> for RostimelyAnswer {
    ghost from_gives = { λ answer told. told ≡ record { number = number_of answer.number; words = answer.words } };

    fn from(answer: Answer) -> RostimelyAnswer {
        RostimelyAnswer {
            number: u64::from(answer.number),
            words: answer.words as u64,
        }
    }
}

// The record that a call leaves goes into its bytes, unless the call is refused.
fn leave(record_bytes: &mut [u8], answer: Answer) -> RostimelyAnswer
    requires { length record_bytes.old ≡ 90 }
    ensures { (result ≡ record { number = number_of answer.number; words = answer.words }) × (record_bytes.new ≡ cond (B.changes answer.number) (encoded answer.controller) record_bytes.old) }
{
    if changes(answer.number) {
        put_record(record_bytes, answer.controller);
    }
    RostimelyAnswer::from(answer)
}

// Copies a range of the visible block; refused, it leaves `into` as it was.
#[unsafe(no_mangle)]
pub extern "C" fn rostimely_load(
    memory: &[u8],
    cache: &[u8],
    table: &[u8],
    record_bytes: &[u8],
    block: u64,
    offset: u64,
    into: &mut [u8],
) -> RostimelyAnswer
    ensures { T.Loads (D.door 0 (D.lent_of memory.now cache.now table.now record_bytes.now) (C.load block offset (length into.old))) into.old into.new result }
{
    match kept_record(memory.len(), cache.len(), table.len(), record_bytes) {
        Ok(controller) => {
            let number = rooms::load(
                memory,
                cache,
                table,
                controller,
                block as usize,
                offset as usize,
                into,
            );
            RostimelyAnswer {
                number: u64::from(number),
                words: 0,
            }
        }
        Err(early) => RostimelyAnswer::from(early),
    }
}

#[unsafe(no_mangle)]
pub extern "C" fn rostimely_store(
    memory: &mut [u8],
    cache: &mut [u8],
    table: &mut [u8],
    record_bytes: &mut [u8],
    block: u64,
    offset: u64,
    bytes: &[u8],
    p: u64,
) -> RostimelyAnswer
    ensures { D.door p (D.lent_of memory.old cache.old table.old record_bytes.old) (C.store block offset bytes.now) ≡ T.left_of result memory.new cache.new table.new record_bytes.new }
{
    match kept_record(memory.len(), cache.len(), table.len(), record_bytes) {
        Ok(controller) => {
            let answer = rooms::store(
                memory,
                cache,
                table,
                controller,
                block as usize,
                offset as usize,
                bytes,
                p as usize,
            );
            leave(record_bytes, answer)
        }
        Err(early) => RostimelyAnswer::from(early),
    }
}

#[unsafe(no_mangle)]
pub extern "C" fn rostimely_begin(
    memory: &mut [u8],
    cache: &[u8],
    table: &mut [u8],
    record_bytes: &mut [u8],
    registers: &[u8],
    p: u64,
) -> RostimelyAnswer
    ensures { D.door p (D.lent_of memory.old cache.now table.old record_bytes.old) (C.begin registers.now) ≡ T.left_of result memory.new cache.now table.new record_bytes.new }
{
    match kept_record(memory.len(), cache.len(), table.len(), record_bytes) {
        Ok(controller) => {
            let answer = rooms::begin(memory, cache, table, controller, registers, p as usize);
            leave(record_bytes, answer)
        }
        Err(early) => RostimelyAnswer::from(early),
    }
}

#[unsafe(no_mangle)]
pub extern "C" fn rostimely_step(
    memory: &mut [u8],
    cache: &[u8],
    table: &[u8],
    record_bytes: &mut [u8],
    most: u64,
    p: u64,
) -> RostimelyAnswer
    ensures { D.door p (D.lent_of memory.old cache.now table.now record_bytes.old) (C.step most) ≡ T.left_of result memory.new cache.now table.now record_bytes.new }
{
    match kept_record(memory.len(), cache.len(), table.len(), record_bytes) {
        Ok(controller) => {
            let answer = rooms::step(memory, cache, table, controller, most as usize, p as usize);
            leave(record_bytes, answer)
        }
        Err(early) => RostimelyAnswer::from(early),
    }
}

// The record's bytes are checked in full: a cut format keeps the rest of the record.
#[unsafe(no_mangle)]
pub extern "C" fn rostimely_format(
    memory: &mut [u8],
    cache: &[u8],
    table: &mut [u8],
    record_bytes: &mut [u8],
    blocks: u64,
    slots: u64,
    fill: u8,
    p: u64,
) -> RostimelyAnswer
    ensures { D.door p (D.lent_of memory.old cache.now table.old record_bytes.old) (C.format (D.sized blocks slots) fill) ≡ T.left_of result memory.new cache.now table.new record_bytes.new }
{
    let formed = is_record(record_bytes);
    match given_sizes(
        formed,
        memory.len(),
        cache.len(),
        table.len(),
        blocks,
        slots,
    ) {
        Ok(g) => {
            let controller = record_in(record_bytes);
            let answer = rooms::format(memory, cache, table, controller, g, fill, p as usize);
            leave(record_bytes, answer)
        }
        Err(early) => RostimelyAnswer::from(early),
    }
}

// C has no Registers, and a From<Registers> for u64 isn't this crate's to write.
fn registers_flag(registers: Registers) -> u64
    ensures { result ≡ T.flag_of registers }
{
    match registers {
        Registers::Saved => 1,
        Registers::Absent => 0,
    }
}

// The record's bytes may be anything, but 90 of them.
#[unsafe(no_mangle)]
pub extern "C" fn rostimely_recover(
    memory: &[u8],
    cache: &[u8],
    table: &mut [u8],
    record_bytes: &mut [u8],
    blocks: u64,
    slots: u64,
) -> RostimelyRecovery
    ensures { (p : ℕ) → T.Recovers (D.door p (D.lent_of memory.now cache.now table.old record_bytes.old) (C.recover (D.sized blocks slots))) memory.now cache.now table.new record_bytes.new result }
{
    let ninety = record_bytes.len() == RECORD_BYTES;
    match given_sizes(
        ninety,
        memory.len(),
        cache.len(),
        table.len(),
        blocks,
        slots,
    ) {
        Ok(g) => {
            let controller = record_in(record_bytes);
            let recovery = rooms::recover(memory, cache, table, controller, g);
            let RostimelyAnswer { number, words } = leave(record_bytes, recovery.answer);
            RostimelyRecovery {
                number,
                words,
                registers: registers_flag(recovery.registers),
            }
        }
        Err(early) => RostimelyRecovery::from(early),
    }
}
