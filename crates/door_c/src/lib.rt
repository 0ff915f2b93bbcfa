// The door's six calls for a C host (document 02, No. 4), to be linked as an archive. Each is the door's own, and promises the same.
#![tactic(auto)]

ghost use Rattle.std.specs.Prelude.{◌≡◌, ℕ, length};
ghost use Rattle.rules.specs.Calls as C;
ghost use Rattle.door.specs.Doors as D;
ghost use Rattle.door.specs.Answers as T;

use door::{RostimelyAnswer, RostimelyRecovery};

#[unsafe(no_mangle)]
pub extern "C" fn rostimely_load(
    memory: &[u8],
    cache: &[u8],
    table: &[u8],
    record_bytes: &[u8],
    block: u64,
    offset: u64,
    into: &mut [u8],
) -> RostimelyAnswer
    ensures { T.Loads (D.door 0 (D.lent_of memory.now cache.now table.now record_bytes.now) (C.load block offset (length into.old))) into.old into.new result }
{
    door::rostimely_load(memory, cache, table, record_bytes, block, offset, into)
}

#[unsafe(no_mangle)]
pub extern "C" fn rostimely_store(
    memory: &mut [u8],
    cache: &mut [u8],
    table: &mut [u8],
    record_bytes: &mut [u8],
    block: u64,
    offset: u64,
    bytes: &[u8],
    p: u64,
) -> RostimelyAnswer
    ensures { D.door p (D.lent_of memory.old cache.old table.old record_bytes.old) (C.store block offset bytes.now) ≡ T.left_of result memory.new cache.new table.new record_bytes.new }
{
    door::rostimely_store(memory, cache, table, record_bytes, block, offset, bytes, p)
}

#[unsafe(no_mangle)]
pub extern "C" fn rostimely_begin(
    memory: &mut [u8],
    cache: &[u8],
    table: &mut [u8],
    record_bytes: &mut [u8],
    registers: &[u8],
    p: u64,
) -> RostimelyAnswer
    ensures { D.door p (D.lent_of memory.old cache.now table.old record_bytes.old) (C.begin registers.now) ≡ T.left_of result memory.new cache.now table.new record_bytes.new }
{
    door::rostimely_begin(memory, cache, table, record_bytes, registers, p)
}

#[unsafe(no_mangle)]
pub extern "C" fn rostimely_step(
    memory: &mut [u8],
    cache: &[u8],
    table: &[u8],
    record_bytes: &mut [u8],
    most: u64,
    p: u64,
) -> RostimelyAnswer
    ensures { D.door p (D.lent_of memory.old cache.now table.now record_bytes.old) (C.step most) ≡ T.left_of result memory.new cache.now table.now record_bytes.new }
{
    door::rostimely_step(memory, cache, table, record_bytes, most, p)
}

#[unsafe(no_mangle)]
pub extern "C" fn rostimely_format(
    memory: &mut [u8],
    cache: &[u8],
    table: &mut [u8],
    record_bytes: &mut [u8],
    blocks: u64,
    slots: u64,
    fill: u8,
    p: u64,
) -> RostimelyAnswer
    ensures { D.door p (D.lent_of memory.old cache.now table.old record_bytes.old) (C.format (D.sized blocks slots) fill) ≡ T.left_of result memory.new cache.now table.new record_bytes.new }
{
    door::rostimely_format(memory, cache, table, record_bytes, blocks, slots, fill, p)
}

#[unsafe(no_mangle)]
pub extern "C" fn rostimely_recover(
    memory: &[u8],
    cache: &[u8],
    table: &mut [u8],
    record_bytes: &mut [u8],
    blocks: u64,
    slots: u64,
) -> RostimelyRecovery
    ensures { (p : ℕ) → T.Recovers (D.door p (D.lent_of memory.now cache.now table.old record_bytes.old) (C.recover (D.sized blocks slots))) memory.now cache.now table.new record_bytes.new result }
{
    door::rostimely_recover(memory, cache, table, record_bytes, blocks, slots)
}
