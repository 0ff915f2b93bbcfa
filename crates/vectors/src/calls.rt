// The calls of the board: what a line of the case file asks for, made on what is lent.
use crate::bench::{Lent, count_up};
use crate::new_form;
use crate::print::Name;
use crate::text::Line;
use crate::wiring::wire_in;
use board::{Answer, Geometry, Recovery};
use std::io::Stdout;
use wires::Wire;

// `len` bytes that count up from `first` are stored or saved as registers; `p` is the allowance.
#[derive(Clone, Copy)]
pub enum Call {
    Store {
        block: usize,
        offset: usize,
        len: usize,
        first: u8,
        p: usize,
    },
    Wire {
        block: usize,
        wire: Wire,
        p: usize,
    },
    Begin {
        len: usize,
        first: u8,
        p: usize,
    },
    Step {
        most: usize,
        p: usize,
    },
    Sweep {
        limit: usize,
        p: usize,
    },
    Format {
        g: Geometry,
        fill: u8,
        p: usize,
    },
    Recover(Geometry),
    NewForm(new_form::Call),
}

// One byte more than the board takes.
fn counted(first: u8) -> [u8; 65] {
    let mut bytes = [0; 65];
    count_up(&mut bytes, 1, first);
    bytes
}

// What a recovery answers, after it is printed whether it has registers.
pub fn recovered(out: Stdout, recovery: Recovery) -> Answer {
    let _ = print!(out; " {},", Name(recovery.registers));
    recovery.answer
}

impl Call {
    pub fn parse(line: Line<'_>) -> Option<Call> {
        Some(match line.name() {
            b"store" => Call::Store {
                block: line.size(1),
                offset: line.size(2),
                len: line.size(3),
                first: line.byte(4),
                p: line.size(5),
            },
            b"wire" => Call::Wire {
                block: line.size(1),
                wire: wire_in(line),
                p: line.size(5),
            },
            b"begin" => Call::Begin {
                len: line.size(1),
                first: line.byte(2),
                p: line.size(3),
            },
            b"step" => Call::Step {
                most: line.size(1),
                p: line.size(2),
            },
            b"sweep" => Call::Sweep {
                limit: line.size(1),
                p: line.size(2),
            },
            b"format" => Call::Format {
                g: line.sizes(),
                fill: line.byte(3),
                p: line.size(4),
            },
            b"recover" => Call::Recover(line.sizes()),
            _ => Call::NewForm(new_form::Call::parse(line)?),
        })
    }

    // What the call answers. Before a store the companion's number is printed, and after a recovery whether it has registers.
    pub fn answer(self, out: Stdout, lent: Lent<'_>) -> Answer {
        let Lent {
            memory,
            cache,
            table,
            controller: c,
        } = lent;
        match self {
            Call::Store {
                block,
                offset,
                len,
                first,
                p,
            } => {
                let bytes = counted(first);
                let bytes = &bytes[..len.min(65)];
                let number = board::store_number(memory, cache, table, c, block, offset, bytes);
                let _ = print!(out; " {},", u64::from(number));
                board::store(memory, cache, table, c, block, offset, bytes, p)
            }
            Call::Wire { block, wire, p } => wires::write(memory, cache, table, c, block, wire, p),
            Call::Begin { len, first, p } => {
                let bytes = counted(first);
                board::begin(memory, cache, table, c, &bytes[..len.min(65)], p)
            }
            Call::Step { most, p } => board::step(memory, cache, table, c, most, p),
            Call::Sweep { limit, p } => board::sweep(memory, cache, table, c, limit, p),
            Call::Format { g, fill, p } => board::format(memory, cache, table, c, g, fill, p),
            Call::Recover(g) => recovered(out, board::recover(memory, cache, table, c, g)),
            Call::NewForm(call) => call.answer(
                out,
                Lent {
                    memory,
                    cache,
                    table,
                    controller: c,
                },
            ),
        }
    }
}
