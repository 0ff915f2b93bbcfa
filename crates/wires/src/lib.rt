// Wire records over the board: wire w lives in block w (document 02, No. 1). Nothing here has a `requires`.
// What is lent comes one by one, by & or &mut as the call needs it: one value of all of it would ask callers for more.
#![tactic(auto)]

ghost use Rattle.std.specs.Prelude.{◌≡◌};
ghost use Rattle.rules.specs.Board.{board_of};
ghost use Rattle.rules.specs.Power.{outcome_of};
ghost use Rattle.rules.specs.Calls as C;
ghost use Rattle.records.specs.Records as R;
ghost use Rattle.wires.specs.Reading.{ReadsWire, refusal_number, told};

use board::{Answer, Controller, Number};
pub use records::{Class, Found, Wire};
use records::{read_block, written};

// Why a read gives no wire.
#[derive(Clone, Copy, Debug, PartialEq, Eq)]
pub enum Refusal {
    // the board's own number
    Board(Number),
    // a block that isn't a wire's record
    NoRecord,
}

impl From<Refusal> for u64 {
    ghost from_gives = { λ refusal number. number ≡ refusal_number refusal };

    #[tactic(auto, unfolding(crate::specs::Reading::refusal_number))]
    fn from(refusal: Refusal) -> u64 {
        match refusal {
            Refusal::Board(number) => u64::from(number),
            Refusal::NoRecord => 30,
        }
    }
}

// The board's store of the whole block. Here and in `read` a host lends what it lends to the board's own calls, in the same order.
pub fn write(
    memory: &mut [u8],
    cache: &mut [u8],
    table: &mut [u64],
    controller: Controller,
    block: usize,
    wire: Wire,
    p: usize,
) -> Answer
    ensures { C.call p (board_of memory.old cache.old table.old controller) (C.store block 0 (R.written wire)) ≡ outcome_of result memory.new cache.new table.new }
{
    let bytes = written(wire);
    board::store(memory, cache, table, controller, block, 0, &bytes, p)
}

// The board's own refusals first.
pub fn read(
    memory: &[u8],
    cache: &[u8],
    table: &[u64],
    controller: Controller,
    block: usize,
) -> Result<Found, Refusal>
    ensures { ReadsWire (board_of memory.now cache.now table.now controller) block result }
{
    let mut bytes = [0u8; 64];
    let number = board::load(memory, cache, table, controller, block, 0, &mut bytes);
    if number != Number::Done {
        return Err(Refusal::Board(number));
    }
    read_block(&bytes).ok_or(Refusal::NoRecord)
}

// The number that a reading is answered with. A function, since a From of a Result isn't this crate's to write.
#[tactic(auto, unfolding(crate::specs::Reading::told))]
pub fn number_of(reading: Result<Found, Refusal>) -> u64
    ensures { result ≡ (told reading).number }
{
    match reading {
        Ok(_) => 0,
        Err(refusal) => u64::from(refusal),
    }
}
