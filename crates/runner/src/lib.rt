// A trace read from standard input field by field, up to a count of bytes, and its lines written to standard output (document 01, The bench trace).
#![tactic(auto)]

use fields::length_of;
use std::io::{Stdin, Stdout, Write};
use std::ops::ControlFlow;
use streams::read_full;
use trace::Bench;
use trace::printing::put_bad;

// A trace on its way: its streams, its bench, and how many of its bytes aren't read.
#[derive(Drop)]
struct Session {
    input: Stdin,
    out: Stdout,
    bench: Bench,
    left: u64,
}

// Each method tells whether the run goes on. It goes on after a line that can't be written, too.
impl Session {
    // A short field.
    fn bad(&mut self, field: u64) -> ControlFlow<()> {
        let mut line = [0u8; 640];
        let end = put_bad(&mut line, field);
        let mut out = self.out;
        let _ = out.write_all(&line[..end]);
        ControlFlow::Break(())
    }

    // The field's own turn, with its value read.
    fn answered(&mut self, field: u64, tag: u8, value: &[u8]) -> ControlFlow<()> {
        let mut line = [0u8; 640];
        let mut out = self.out;
        match self.bench.take_turn(field, tag, value, &mut line) {
            ControlFlow::Continue(end) => {
                let _ = out.write_all(&line[..end]);
                ControlFlow::Continue(())
            }
            ControlFlow::Break(end) => {
                let _ = out.write_all(&line[..end]);
                ControlFlow::Break(())
            }
        }
    }

    // The field with its head read. A length over 67 is wrong for every tag, and such a value isn't read.
    fn valued(&mut self, field: u64, tag: u8, len: usize) -> ControlFlow<()> {
        let mut value = [0u8; 67];
        if value.len() < len {
            return self.bad(field);
        }
        if self.left < len as u64 {
            return self.bad(field);
        }
        self.left -= len as u64;
        if read_full(self.input, &mut value[..len]) != len {
            self.left = 0;
            return self.bad(field);
        }
        self.answered(field, tag, &value[..len])
    }

    // One field of the trace. The trace's end between fields ends the run quietly, inside a field with `bad`.
    fn one(&mut self, field: u64) -> ControlFlow<()> {
        if self.left == 0 {
            return ControlFlow::Break(());
        }
        if self.left < 3 {
            return self.bad(field);
        }
        self.left -= 3;
        let mut head = [0u8; 3];
        match read_full(self.input, &mut head) {
            0 => {
                self.left = 0;
                ControlFlow::Break(())
            }
            3 => {
                let [tag, high, low] = head;
                self.valued(field, tag, length_of(high, low))
            }
            _ => {
                self.left = 0;
                self.bad(field)
            }
        }
    }
}

// A trace of at most `limit` bytes on a bench that is all zero; returns how many of them aren't read.
pub fn run(input: Stdin, out: Stdout, limit: u64) -> u64 {
    let mut session = Session {
        input,
        out,
        bench: Bench::new(),
        left: limit,
    };
    // A count, since a loop has to be proved to end.
    for field in 1..=u64::MAX {
        if session.one(field).is_break() {
            break;
        }
    }
    session.left
}
