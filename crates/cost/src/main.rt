// Repeats one call on a prepared board, so that the instructions of a call can be counted as a difference. tests/cost/measure says how.
#![tactic(auto)]

use board::{Answer, begin, format, load, recover, step, store, sweep};
use case::{Call, Case};
use rules::{Controller, Geometry, Number};
use std::fmt;

mod case;

// What a call gave: its number and the words it stored.
#[derive(Clone, Copy)]
struct Given {
    number: Number,
    words: usize,
}

impl From<Answer> for Given {
    fn from(answer: Answer) -> Given {
        Given {
            number: answer.number,
            words: answer.words,
        }
    }
}

// A call that stores nothing gives its number alone.
impl From<Number> for Given {
    fn from(number: Number) -> Given {
        Given { number, words: 0 }
    }
}

impl fmt::Display for Given {
    fn fmt<W: fmt::Write>(&self, f: &mut fmt::Formatter<W>) -> fmt::Result {
        write!(f, "{} {}", u64::from(self.number), self.words)
    }
}

// The lengths lent: bytes of the memory, bytes of CACHE, words of the table.
#[derive(Clone, Copy)]
struct Lengths {
    memory: usize,
    cache: usize,
    table: usize,
}

// As in the program `vectors`, which has arrays of other sizes: the two share no crate.
impl Lengths {
    fn exact(g: Geometry) -> Lengths {
        let slots = usize::from(g.slots);
        Lengths {
            memory: 8 * g.memory_words(),
            cache: 64 * slots,
            table: slots,
        }
    }
}

// What a call is lent.
#[derive(Drop)]
struct Lent<'a> {
    memory: &'a mut [u8],
    cache: &'a mut [u8],
    table: &'a mut [u64],
}

impl Lent<'_> {
    // Begin, and one step for the rest of the checkpoint.
    fn checkpoint(self, controller: Controller, registers: &[u8], p: usize) -> Given {
        let Lent {
            memory,
            cache,
            table,
        } = self;
        let begun = begin(memory, cache, table, controller, registers, p);
        let finished = step(memory, cache, table, begun.controller, p, p);
        Given::from(finished)
    }

    // The case's call, once.
    fn call(self, case: Case, bytes: &mut [u8]) -> Given {
        let Lent {
            memory,
            cache,
            table,
        } = self;
        let Case {
            controller: c,
            block,
            offset,
            allowance: p,
            ..
        } = case;
        match case.call {
            None => Given::from(Number::Done),
            Some(Call::Load) => Given::from(load(memory, cache, table, c, block, offset, bytes)),
            Some(Call::Store) => Given::from(store(
                memory, cache, table, c, block, offset, bytes, p,
            )),
            Some(Call::Begin) => Given::from(begin(memory, cache, table, c, bytes, p)),
            Some(Call::Step) => Given::from(step(memory, cache, table, c, 1, p)),
            Some(Call::Checkpoint) => {
                let lent = Lent {
                    memory,
                    cache,
                    table,
                };
                lent.checkpoint(c, bytes, p)
            }
            Some(Call::Format) => Given::from(format(memory, cache, table, c, c.geometry, 0, p)),
            Some(Call::Recover) => Given::from(recover(memory, cache, table, c, c.geometry).answer),
            Some(Call::Sweep) => Given::from(sweep(memory, cache, table, c, 512, p)),
        }
    }
}

// The arrays of the largest board that is measured: 4,096 blocks and 512 slots.
#[derive(Drop)]
struct Bench {
    memory: [u8; 303240],
    cache: [u8; 32768],
    table: [u64; 512],
    lengths: Lengths,
}

impl Bench {
    // What the lengths say, as far as the arrays reach.
    fn lend(&mut self) -> Lent<'_> {
        let lengths = self.lengths;
        let Bench {
            memory,
            cache,
            table,
            ..
        } = self;
        Lent {
            memory: &mut memory[..lengths.memory.min(303240)],
            cache: &mut cache[..lengths.cache.min(32768)],
            table: &mut table[..lengths.table.min(512)],
        }
    }

    // A board that is formatted and has the case's table in its finished backup.
    fn prepare(&mut self, case: &Case) {
        let c = case.controller;
        let p = usize::MAX;
        let Lent {
            memory,
            cache,
            table,
        } = self.lend();
        let formatted = format(memory, cache, table, c, c.geometry, 0, p);
        case.put_table(&mut self.table);
        self.lend().checkpoint(formatted.controller, &[7; 64], p);
    }

    // As often as the case says, each time with the case's table. What the last call gave.
    fn repeat(&mut self, case: Case) -> Given {
        let mut bytes = [5; 64];
        let bytes = &mut bytes[..case.length.min(64)];
        case.put_table(&mut self.table);
        let kept = self.table;
        let Lent {
            memory,
            cache,
            table,
        } = self.lend();
        let mut last = Given::from(Number::Done);
        for _ in 0..case.repeats {
            for (entry, word) in table.iter_mut().zip(&kept) {
                *entry = *word;
            }
            let lent = Lent {
                memory: &mut *memory,
                cache: &mut *cache,
                table: &mut *table,
            };
            last = lent.call(case, bytes);
        }
        last
    }
}

fn measure(case: &Case) -> Given {
    let mut bench = Bench {
        memory: [0; 303240],
        cache: [0; 32768],
        table: [0; 512],
        lengths: Lengths::exact(case.controller.geometry),
    };
    bench.prepare(case);
    bench.repeat(*case)
}

// Cases to the input's end. It goes on after a line that can't be written.
fn main(rt: HostRuntime) {
    let input = rt.stdin();
    let out = rt.stdout();
    // A count, since a loop has to be proved to end.
    for _ in 0..u64::MAX {
        let mut bytes = [0; 14];
        if streams::read_full(input, &mut bytes) < 14 {
            return;
        }
        let _ = println!(out; "{}", measure(&Case::from(bytes)));
    }
}
