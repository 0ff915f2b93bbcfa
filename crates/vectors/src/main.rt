// Runs the worked cases of document 01 that stand in the file stdin. It prints every line and, indented, what it gives.
// A text that can't be written is left out, and the run goes on.
#![tactic(auto)]

use bench::Bench;
use rules::Geometry;
use std::io::Stdout;
use text::Line;

mod bench;
mod calls;
mod new_form;
mod print;
mod readings;
mod settings;
mod text;
mod wiring;

// Every line in turn, on one bench, which begins with no board.
fn run(out: Stdout, text: &[u8]) {
    let mut bench = Bench::new(Geometry {
        blocks: 0,
        slots: 0,
    });
    for line in text.split_inclusive(|byte| *byte == b'\n') {
        let line = line.strip_suffix(b"\n").unwrap_or(line);
        bench.turn(out, Line(line));
    }
}

fn main(rt: HostRuntime) {
    // 65,536 bytes, more than the case file has
    let mut input = [0; 65536];
    let got = streams::read_full(rt.stdin(), &mut input);
    run(rt.stdout(), &input[..got]);
}
