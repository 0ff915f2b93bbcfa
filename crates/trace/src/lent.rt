// A field's turn on arrays that a caller lends one by one (document 01, The bench trace).
ghost use Rattle.std.specs.Prelude.{◌≡◌, ◌≤◌, length};
ghost use Rattle.trace.specs.Trace as T;
ghost use Rattle.trace.specs.Lent as L;

use crate::Bench;
use rules::Controller;
use std::ops::ControlFlow;

// What the bench holds beside its arrays.
#[derive(Clone, Copy, Debug, PartialEq, Eq)]
pub struct Held {
    pub controller: Controller,
    pub allowance: Option<u16>,
}

// Whether the run goes on, what the bench holds after a field, and the length of the field's line.
#[derive(Clone, Copy, Debug, PartialEq, Eq)]
pub struct Turn {
    pub go: bool,
    pub held: Held,
    pub length: usize,
}

// The turn of a bench, for a caller whose arrays are lent one by one, and who has no bench to lend: the slices are copied
// into one, which takes the turn, and what it leaves is copied back.
pub fn take_turn(
    memory: &mut [u8],
    cache: &mut [u8],
    table: &mut [u64],
    held: Held,
    number: u64,
    tag: u8,
    value: &[u8],
    line: &mut [u8],
) -> Turn
    requires { L.Arrays memory.old cache.old table.old × (640 ≤ length line.old) }
    ensures { L.Turns (T.turned (L.bench_of memory.old cache.old table.old held) number tag value.now) line.old line.new memory.new cache.new table.new result }
{
    let mut bench = bench_lent(memory, cache, table, held);
    let flow = bench.take_turn(number, tag, value, line);
    memory.copy_from_slice(&bench.arrays.memory);
    cache.copy_from_slice(&bench.arrays.cache);
    table.copy_from_slice(&bench.arrays.table);
    let held = Held {
        controller: bench.controller,
        allowance: bench.allowance,
    };
    match flow {
        ControlFlow::Continue(length) => Turn {
            go: true,
            held,
            length,
        },
        ControlFlow::Break(length) => Turn {
            go: false,
            held,
            length,
        },
    }
}

// A bench with a copy of the slices.
fn bench_lent(memory: &[u8], cache: &[u8], table: &[u64], held: Held) -> Bench
    requires { L.Arrays memory.now cache.now table.now }
    ensures { T.bench_of result ≡ L.bench_of memory.now cache.now table.now held }
{
    let mut bench = Bench::new();
    bench.arrays.memory.copy_from_slice(memory);
    bench.arrays.cache.copy_from_slice(cache);
    bench.arrays.table.copy_from_slice(table);
    bench.controller = held.controller;
    bench.allowance = held.allowance;
    bench
}
