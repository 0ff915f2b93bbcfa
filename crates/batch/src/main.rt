// Many traces in one input: frames of a 4-byte big-endian length and a trace, each run on a fresh board, a line `.` after each.
#![tactic(auto)]

use std::io::{Stdin, Stdout};
use streams::read_full;

// What a trace that ended early leaves of its frame.
fn skip(input: Stdin, count: u64) {
    let mut byte = [0u8; 1];
    for _ in 0..count {
        if read_full(input, &mut byte) < 1 {
            return;
        }
    }
}

// It goes on after a line that can't be written.
fn frame(input: Stdin, out: Stdout, length: u64) {
    let left = runner::run(input, out, length);
    skip(input, left);
    let _ = println!(out; ".");
}

fn main(rt: HostRuntime) {
    let input = rt.stdin();
    let out = rt.stdout();
    // A count, since a loop has to be proved to end.
    for _ in 0..u64::MAX {
        let mut head = [0u8; 4];
        if read_full(input, &mut head) < 4 {
            return;
        }
        frame(input, out, u64::from(u32::from_be_bytes(head)));
    }
}
