// A field's turn on the bench, one method for each tag (document 01, The bench trace).
ghost use Rattle.std.specs.Prelude.{◌≡◌, List, [], ℕ, ◌≤◌, None, length};
ghost use Rattle.lending.specs.Lending.{outcome_in};
ghost use Rattle.trace.specs.Trace as T;

use crate::Bench;
use crate::printing::put_bad;
use asking::{Asked, store_bytes};
use checks::answers::refused;
use checks::numbers::accepted;
use rules::{Answer, Geometry, Number, Registers};
use std::ops::ControlFlow;

// The words of an allowance; without a field of tag 6 it is unlimited.
#[tactic(auto, unfolding(crate::specs::Trace::words_of))]
pub fn words_of(allowance: Option<u16>) -> usize
    ensures { result ≡ T.words_of allowance }
{
    match allowance {
        Some(p) => p as usize,
        None => usize::MAX,
    }
}

impl Bench {
    // The end of a field of tag 1, 2, 4 or 5: the allowance is used up, accepted or not.
    pub fn spent(
        &mut self,
        answer: Answer,
        field: u64,
        line: &mut [u8],
    ) -> ControlFlow<usize, usize>
        requires { 640 ≤ length line.old }
        ensures { T.Turns (T.ends field None [] (outcome_in answer self.old.arrays)) line.old line.new self.new result }
    {
        self.ended(answer, None, field, line)
    }

    pub fn format_turn(
        &mut self,
        g: Geometry,
        fill: u8,
        field: u64,
        line: &mut [u8],
    ) -> ControlFlow<usize, usize>
        requires { 640 ≤ length line.old }
        ensures { (value : List ℕ) → T.Turns (T.turned_by (T.bench_of self.old) field value (Asked.Format g fill)) line.old line.new self.new result }
    {
        let controller = self.controller;
        let p = words_of(self.allowance);
        let answer = self.arrays.format(controller, g, fill, p);
        self.spent(answer, field, line)
    }

    pub fn store_turn(
        &mut self,
        block: u16,
        offset: u8,
        value: &[u8],
        field: u64,
        line: &mut [u8],
    ) -> ControlFlow<usize, usize>
        requires { 640 ≤ length line.old }
        ensures { T.Turns (T.turned_by (T.bench_of self.old) field value.now (Asked.Store block offset)) line.old line.new self.new result }
    {
        let controller = self.controller;
        let p = words_of(self.allowance);
        let bytes = store_bytes(value);
        let answer = self
            .arrays
            .store(controller, block as usize, offset as usize, bytes, p);
        self.spent(answer, field, line)
    }

    // A load of all of `into`; the bytes are shown only where it is accepted.
    pub fn load_into(
        &mut self,
        block: u16,
        offset: u8,
        into: &mut [u8],
        field: u64,
        line: &mut [u8],
    ) -> ControlFlow<usize, usize>
        requires { (640 ≤ length line.old) × (length into.old ≤ 255) }
        ensures { (value : List ℕ) → T.Turns (T.turned_by (T.bench_of self.old) field value (Asked.Load block offset (length into.old))) line.old line.new self.new result }
    {
        let controller = self.controller;
        let allowance = self.allowance;
        let loaded = self
            .arrays
            .load(controller, block as usize, offset as usize, into);
        let answer = refused(loaded, controller);
        // a load answers a number, as document 01 has it
        if !accepted(loaded) {
            return self.ended(answer, allowance, field, line);
        }
        self.ended_with(answer, allowance, field, into, line)
    }

    pub fn load_turn(
        &mut self,
        block: u16,
        offset: u8,
        len: u8,
        field: u64,
        line: &mut [u8],
    ) -> ControlFlow<usize, usize>
        requires { 640 ≤ length line.old }
        ensures { (value : List ℕ) → T.Turns (T.turned_by (T.bench_of self.old) field value (Asked.Load block offset len)) line.old line.new self.new result }
    {
        let mut space = [0u8; 255];
        let into = &mut space[..len as usize];
        self.load_into(block, offset, into, field, line)
    }

    pub fn begin_turn(&mut self, byte: u8, field: u64, line: &mut [u8]) -> ControlFlow<usize, usize>
        requires { 640 ≤ length line.old }
        ensures { (value : List ℕ) → T.Turns (T.turned_by (T.bench_of self.old) field value (Asked.Begin byte)) line.old line.new self.new result }
    {
        let controller = self.controller;
        let p = words_of(self.allowance);
        let answer = self.arrays.begin(controller, &[byte; 64], p);
        self.spent(answer, field, line)
    }

    pub fn step_turn(&mut self, most: u16, field: u64, line: &mut [u8]) -> ControlFlow<usize, usize>
        requires { 640 ≤ length line.old }
        ensures { (value : List ℕ) → T.Turns (T.turned_by (T.bench_of self.old) field value (Asked.Step most)) line.old line.new self.new result }
    {
        let controller = self.controller;
        let p = words_of(self.allowance);
        let answer = self.arrays.step(controller, most as usize, p);
        self.spent(answer, field, line)
    }

    pub fn recover_turn(&mut self, field: u64, line: &mut [u8]) -> ControlFlow<usize, usize>
        requires { 640 ≤ length line.old }
        ensures { (value : List ℕ) → T.Turns (T.turned_by (T.bench_of self.old) field value Asked.Recover) line.old line.new self.new result }
    {
        let controller = self.controller;
        let allowance = self.allowance;
        let recovery = self.arrays.recover(controller);
        let answer = recovery.answer;
        if !accepted(answer.number) {
            return self.ended(answer, allowance, field, line);
        }
        let first = [answer.controller.registers[0]];
        match recovery.registers {
            Registers::Saved => self.ended_with(answer, allowance, field, &first, line),
            Registers::Absent => self.ended_without(answer, allowance, field, line),
        }
    }

    // It replaces an allowance that isn't used yet.
    pub fn allow_turn(&mut self, p: u16, field: u64, line: &mut [u8]) -> ControlFlow<usize, usize>
        requires { 640 ≤ length line.old }
        ensures { (value : List ℕ) → T.Turns (T.turned_by (T.bench_of self.old) field value (Asked.Allow p)) line.old line.new self.new result }
    {
        let answer = refused(Number::Done, self.controller);
        self.ended(answer, Some(p), field, line)
    }

    pub fn bad_turn(&self, field: u64, line: &mut [u8]) -> ControlFlow<usize, usize>
        requires { 640 ≤ length line.old }
        ensures { (value : List ℕ) → T.Turns (T.turned_by (T.bench_of self.now) field value Asked.Bad) line.old line.new self.now result }
    {
        ControlFlow::Break(put_bad(line, field))
    }
}
