// Wire records: a line's, and what is printed of one that is read on what is lent.
use crate::bench::Lent;
use crate::text::Line;
use std::io::Stdout;
use wires::{Found, Wire};

pub fn wire_in(line: Line<'_>) -> Wire {
    Wire {
        current: line.short(2),
        latch: line.number(3) == 1,
        test: line.number(4) == 1,
    }
}

// The number, then the current, the latch, the test and the class where there is a record.
pub fn print(out: Stdout, lent: Lent<'_>, block: usize) {
    let Lent {
        memory,
        cache,
        table,
        controller,
    } = lent;
    let reading = wires::read(memory, cache, table, controller, block);
    let _ = print!(out; " {}", wires::number_of(reading));
    let Ok(Found { wire, class }) = reading else {
        return;
    };
    let _ = print!(out;
        " {} {} {} {class}",
        wire.current,
        u8::from(wire.latch),
        u8::from(wire.test)
    );
}
