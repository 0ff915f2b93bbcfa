// The lines of the case file that print something of the bench and change nothing.
use crate::bench::Lent;
use crate::print::{Hex, Part};
use crate::text::Line;
use crate::wiring;
use std::io::Stdout;

#[derive(Clone, Copy)]
pub enum Reading {
    Load {
        block: usize,
        offset: usize,
        len: usize,
    },
    Peek(usize),
    Wire(usize),
    Registers,
    Memory {
        start: usize,
        count: usize,
    },
    Cache {
        start: usize,
        count: usize,
    },
}

// The number, then the destination, which holds the byte dd before. It has at most one byte more than the board gives.
fn load(out: Stdout, lent: Lent<'_>, block: usize, offset: usize, len: usize) {
    let Lent {
        memory,
        cache,
        table,
        controller,
    } = lent;
    let mut space = [0xdd; 65];
    let into = &mut space[..len.min(65)];
    let number = board::load(memory, cache, table, controller, block, offset, into);
    let _ = print!(out; " {}", u64::from(number));
    if into.is_empty() {
        return;
    }
    let _ = print!(out; " {}", Hex(into));
}

// The number, then the length of what is peeked, its first word and its last.
fn peek(out: Stdout, lent: Lent<'_>, block: usize) {
    let Lent {
        memory,
        cache,
        table,
        controller,
    } = lent;
    let number = board::peek_number(memory, cache, table, controller, block);
    let bytes = board::peek(memory, cache, table, controller, block);
    let first = Part::new(bytes, 0, 1);
    let last = Part::new(bytes, (bytes.len() / 8).saturating_sub(1), 1);
    let _ = print!(out; " {} {}{first}{last}", u64::from(number), bytes.len());
}

impl Reading {
    pub fn parse(line: Line<'_>) -> Option<Reading> {
        Some(match line.name() {
            b"load" => Reading::Load {
                block: line.size(1),
                offset: line.size(2),
                len: line.size(3),
            },
            b"peek" => Reading::Peek(line.size(1)),
            b"reading" => Reading::Wire(line.size(1)),
            b"registers" => Reading::Registers,
            b"memory" => Reading::Memory {
                start: line.size(1),
                count: line.size(2),
            },
            b"cache" => Reading::Cache {
                start: line.size(1),
                count: line.size(2),
            },
            _ => return None,
        })
    }

    pub fn print(self, out: Stdout, lent: Lent<'_>) {
        match self {
            Reading::Load { block, offset, len } => load(out, lent, block, offset, len),
            Reading::Peek(block) => peek(out, lent, block),
            Reading::Wire(block) => wiring::print(out, lent, block),
            Reading::Registers => {
                let _ = print!(out; "{}", Part::new(&lent.controller.registers, 0, 8));
            }
            Reading::Memory { start, count } => {
                let _ = print!(out; "{}", Part::new(lent.memory, start, count));
            }
            Reading::Cache { start, count } => {
                let _ = print!(out; "{}", Part::new(lent.cache, start, count));
            }
        }
    }
}
