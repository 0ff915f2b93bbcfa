// The calls on the part of the bench's arrays that a board of some sizes is lent (document 01, The bench trace).
#![tactic(auto)]

ghost use Rattle.std.specs.Prelude.{◌≡◌, ◌≤◌, length};
ghost use Rattle.rules.specs.Board.{board_of};
ghost use Rattle.rules.specs.Power.{outcome_of};
ghost use Rattle.rules.specs.Starts.{Recovered};
ghost use Rattle.rules.specs.Calls as C;
ghost use Rattle.loads.specs.Reading.{read_of};
ghost use Rattle.lending.specs.Lending as L;

use board::{begin, format, load, recover, step, store};
use rules::{Answer, Controller, Geometry, Number, Recovery};

// The bench's own arrays: what N = 64 and B = 16 take.
#[derive(Clone, Copy)]
pub struct Arrays {
    pub memory: [u8; 5512],
    pub cache: [u8; 1024],
    pub table: [u64; 16],
}

// Whether the arrays hold a board of these sizes. Larger ones are lent nothing, so that the board itself refuses them.
pub fn fits_in(g: Geometry) -> bool
    ensures { result ≡ L.fits g }
{
    (g.blocks <= 64) & (g.slots <= 16)
}

// Three lengths, each by its own definition.
pub fn lent_memory(g: Geometry) -> usize
    ensures { (result ≡ L.lent_memory g) × (result ≤ 5512) }
{
    if !fits_in(g) {
        return 0;
    }
    8 * g.memory_words()
}

pub fn lent_cache(g: Geometry) -> usize
    ensures { (result ≡ L.lent_cache g) × (result ≤ 1024) }
{
    if !fits_in(g) {
        return 0;
    }
    64 * (g.slots as usize)
}

pub fn lent_table(g: Geometry) -> usize
    ensures { (result ≡ L.lent_table g) × (result ≤ 16) }
{
    if !fits_in(g) {
        return 0;
    }
    g.slots as usize
}

// The methods that change an array hand all three on to a function that lends their parts: no check follows
// a part of an array that lies behind a reference to the struct.
fn format_lent(
    memory: &mut [u8; 5512],
    cache: &[u8; 1024],
    table: &mut [u64; 16],
    controller: Controller,
    g: Geometry,
    fill: u8,
    p: usize,
) -> Answer
    ensures { L.called p (board_of memory.old cache.now table.old controller) g (C.format g fill) ≡ outcome_of result memory.new cache.now table.new }
{
    format(
        &mut memory[..lent_memory(g)],
        &cache[..lent_cache(g)],
        &mut table[..lent_table(g)],
        controller,
        g,
        fill,
        p,
    )
}

fn store_lent(
    memory: &mut [u8; 5512],
    cache: &mut [u8; 1024],
    table: &mut [u64; 16],
    controller: Controller,
    block: usize,
    offset: usize,
    bytes: &[u8],
    p: usize,
) -> Answer
    ensures { L.called p (board_of memory.old cache.old table.old controller) controller.geometry (C.store block offset bytes.now) ≡ outcome_of result memory.new cache.new table.new }
{
    let g = controller.geometry;
    store(
        &mut memory[..lent_memory(g)],
        &mut cache[..lent_cache(g)],
        &mut table[..lent_table(g)],
        controller,
        block,
        offset,
        bytes,
        p,
    )
}

fn begin_lent(
    memory: &mut [u8; 5512],
    cache: &[u8; 1024],
    table: &mut [u64; 16],
    controller: Controller,
    registers: &[u8],
    p: usize,
) -> Answer
    ensures { L.called p (board_of memory.old cache.now table.old controller) controller.geometry (C.begin registers.now) ≡ outcome_of result memory.new cache.now table.new }
{
    let g = controller.geometry;
    begin(
        &mut memory[..lent_memory(g)],
        &cache[..lent_cache(g)],
        &mut table[..lent_table(g)],
        controller,
        registers,
        p,
    )
}

fn step_lent(
    memory: &mut [u8; 5512],
    cache: &[u8; 1024],
    table: &[u64; 16],
    controller: Controller,
    most: usize,
    p: usize,
) -> Answer
    ensures { L.called p (board_of memory.old cache.now table.now controller) controller.geometry (C.step most) ≡ outcome_of result memory.new cache.now table.now }
{
    let g = controller.geometry;
    step(
        &mut memory[..lent_memory(g)],
        &cache[..lent_cache(g)],
        &table[..lent_table(g)],
        controller,
        most,
        p,
    )
}

fn recover_lent(
    memory: &[u8; 5512],
    cache: &[u8; 1024],
    table: &mut [u64; 16],
    controller: Controller,
) -> Recovery
    ensures { Recovered (L.called 0 (board_of memory.now cache.now table.old controller) controller.geometry (C.recover controller.geometry)) result memory.now cache.now table.new }
{
    let g = controller.geometry;
    recover(
        &memory[..lent_memory(g)],
        &cache[..lent_cache(g)],
        &mut table[..lent_table(g)],
        controller,
        g,
    )
}

// Each call is that of the board, on the part that its sizes are lent.
impl Arrays {
    pub fn format(&mut self, controller: Controller, g: Geometry, fill: u8, p: usize) -> Answer
        ensures outcome { L.called p (L.board_in self.old controller) g (C.format g fill) ≡ L.outcome_in result self.new }
        ensures cache { self.new.cache ≡ self.old.cache }
    {
        let Arrays {
            memory,
            cache,
            table,
        } = self;
        format_lent(memory, cache, table, controller, g, fill, p)
    }

    pub fn store(
        &mut self,
        controller: Controller,
        block: usize,
        offset: usize,
        bytes: &[u8],
        p: usize,
    ) -> Answer
        ensures { L.called p (L.board_in self.old controller) controller.geometry (C.store block offset bytes.now) ≡ L.outcome_in result self.new }
    {
        let Arrays {
            memory,
            cache,
            table,
        } = self;
        store_lent(memory, cache, table, controller, block, offset, bytes, p)
    }

    // The number, DONE among them, as document 01 has it, and accepted the bytes in `into`.
    pub fn load(
        &self,
        controller: Controller,
        block: usize,
        offset: usize,
        into: &mut [u8],
    ) -> Number
        ensures { L.called 0 (L.board_in self.now controller) controller.geometry (C.load block offset (length into.old)) ≡ read_of (L.board_in self.now controller) result into.new }
    {
        let g = controller.geometry;
        load(
            &self.memory[..lent_memory(g)],
            &self.cache[..lent_cache(g)],
            &self.table[..lent_table(g)],
            controller,
            block,
            offset,
            into,
        )
    }

    pub fn begin(&mut self, controller: Controller, registers: &[u8], p: usize) -> Answer
        ensures outcome { L.called p (L.board_in self.old controller) controller.geometry (C.begin registers.now) ≡ L.outcome_in result self.new }
        ensures cache { self.new.cache ≡ self.old.cache }
    {
        let Arrays {
            memory,
            cache,
            table,
        } = self;
        begin_lent(memory, cache, table, controller, registers, p)
    }

    pub fn step(&mut self, controller: Controller, most: usize, p: usize) -> Answer
        ensures outcome { L.called p (L.board_in self.old controller) controller.geometry (C.step most) ≡ L.outcome_in result self.new }
        ensures cache { self.new.cache ≡ self.old.cache }
        ensures table { self.new.table ≡ self.old.table }
    {
        let Arrays {
            memory,
            cache,
            table,
        } = self;
        step_lent(memory, cache, table, controller, most, p)
    }

    pub fn recover(&mut self, controller: Controller) -> Recovery
        ensures outcome { Recovered (L.called 0 (L.board_in self.old controller) controller.geometry (C.recover controller.geometry)) result self.new.memory self.new.cache self.new.table }
        ensures memory { self.new.memory ≡ self.old.memory }
        ensures cache { self.new.cache ≡ self.old.cache }
    {
        let Arrays {
            memory,
            cache,
            table,
        } = self;
        recover_lent(memory, cache, table, controller)
    }
}
