// The bench of the trace program: a field's call on a board in the bench's own arrays, and the line that the field prints (document 01, The bench trace).
#![tactic(auto)]

ghost use Rattle.std.specs.Prelude.{◌≡◌, ◌≤◌, None, length};
ghost use Rattle.trace.specs.Trace.{Turns, bench_of, fresh, turned, first_record};

use asking::{Asked, parse};
use lending::Arrays;
use rules::{Backup, Controller, Geometry, Phase};
use std::ops::ControlFlow;

pub mod lent;
pub mod printing;
pub mod turns;

pub use lent::{Held, Turn, take_turn};

#[derive(Clone, Copy)]
pub struct Bench {
    pub arrays: Arrays,
    pub controller: Controller,
    // The words of a field of tag 6 that isn't used yet. Without one the allowance is unlimited.
    pub allowance: Option<u16>,
}

impl Bench {
    // All zero. Before the first format the record has sizes 0, so calls give GEOMETRY.
    #[tactic(auto, unfolding(crate::specs::Trace::fresh))]
    pub fn new() -> Bench
        ensures bench { bench_of result ≡ fresh }
        ensures controller { result.controller ≡ first_record }
        ensures allowance { result.allowance ≡ None }
    {
        Bench {
            arrays: Arrays {
                memory: [0u8; 5512],
                cache: [0u8; 1024],
                table: [0u64; 16],
            },
            controller: Controller {
                geometry: Geometry {
                    blocks: 0,
                    slots: 0,
                },
                registers: [0u8; 64],
                finished: Backup::A,
                phase: Phase::Off,
            },
            allowance: None,
        }
    }

    // A field's turn gives the length of its line, and breaks the run off where the field is bad.
    // A line is at most 574 bytes long: three numbers, and 255 bytes in hex. It goes into a slice, as in each turn: an array
    // of just 640 bytes would ask more of a caller.
    pub fn take_turn(
        &mut self,
        number: u64,
        tag: u8,
        value: &[u8],
        line: &mut [u8],
    ) -> ControlFlow<usize, usize>
        requires { 640 ≤ length line.old }
        ensures { Turns (turned (bench_of self.old) number tag value.now) line.old line.new self.new result }
    {
        match parse(tag, value) {
            Asked::Format(g, fill) => self.format_turn(g, fill, number, line),
            Asked::Store(block, offset) => self.store_turn(block, offset, value, number, line),
            Asked::Load(block, offset, len) => self.load_turn(block, offset, len, number, line),
            Asked::Begin(byte) => self.begin_turn(byte, number, line),
            Asked::Step(most) => self.step_turn(most, number, line),
            Asked::Allow(p) => self.allow_turn(p, number, line),
            Asked::Recover => self.recover_turn(number, line),
            Asked::Bad => self.bad_turn(number, line),
        }
    }
}
