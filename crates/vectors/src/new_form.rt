// The calls of the new stored form: what a line of the case file asks for, made on what is lent (document 02, No. 6).
use crate::bench::Lent;
use crate::calls::recovered;
use crate::text::Line;
use board::{Answer, Geometry};
use std::io::Stdout;

#[derive(Clone, Copy)]
pub enum Call {
    Format { g: Geometry, fill: u8, p: usize },
    Recover(Geometry),
    Up { g: Geometry, p: usize },
    Back { g: Geometry, p: usize },
}

impl Call {
    pub fn parse(line: Line<'_>) -> Option<Call> {
        let g = line.sizes();
        Some(match line.name() {
            b"newformat" => Call::Format {
                g,
                fill: line.byte(3),
                p: line.size(4),
            },
            b"newrecover" => Call::Recover(g),
            b"up" => Call::Up { g, p: line.size(3) },
            b"back" => Call::Back { g, p: line.size(3) },
            _ => return None,
        })
    }

    pub fn answer(self, out: Stdout, lent: Lent<'_>) -> Answer {
        let Lent {
            memory,
            cache,
            table,
            controller: c,
        } = lent;
        match self {
            Call::Format { g, fill, p } => header::format(memory, cache, table, c, g, fill, p),
            Call::Recover(g) => recovered(out, header::recover(memory, cache, table, c, g)),
            Call::Up { g, p } => header::move_up(memory, cache, table, c, g, p),
            Call::Back { g, p } => header::move_back(memory, cache, table, c, g, p),
        }
    }
}
