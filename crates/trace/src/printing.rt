// The lines that fields print (document 01, The bench trace).
ghost use Rattle.std.specs.Prelude.{[], ◌∷◌, ◌++◌, ◌≤◌, length, None};
ghost use Rattle.lines.specs.Lines as L;
ghost use Rattle.lines.specs.Puts.{Puts};
ghost use Rattle.rules.specs.Numbers.{number_of};
ghost use Rattle.lending.specs.Lending.{outcome_in};
ghost use Rattle.trace.specs.Trace.{Turns, ends, register_text, bad};

use crate::Bench;
use lines::{put_byte, put_bytes, put_decimal, put_hex};
use rules::{Answer, Number};
use std::ops::ControlFlow;

// Field number, number returned, words stored, with single spaces between.
pub fn put_numbers(line: &mut [u8], field: u64, number: Number, words: usize) -> usize
    requires { 62 ≤ length line.old }
    ensures { Puts (L.decimal field ++ (32 ∷ (L.decimal (number_of number) ++ (32 ∷ L.decimal words)))) 0 line.old line.new result × (result ≤ 62) }
{
    let after_field = put_decimal(line, 0, field);
    let number_place = put_byte(line, after_field, b' ');
    let returned = u64::from(number);
    let after_number = put_decimal(line, number_place, returned);
    let words_place = put_byte(line, after_number, b' ');
    put_decimal(line, words_place, words as u64)
}

impl Bench {
    // The end of a call with no bytes to show. The three ends put their own text behind the same numbers.
    pub fn ended(
        &mut self,
        answer: Answer,
        allowance: Option<u16>,
        field: u64,
        line: &mut [u8],
    ) -> ControlFlow<usize, usize>
        requires { 640 ≤ length line.old }
        ensures { Turns (ends field allowance [] (outcome_in answer self.old.arrays)) line.old line.new self.new result }
    {
        self.controller = answer.controller;
        self.allowance = allowance;
        let after_numbers = put_numbers(line, field, answer.number, answer.words);
        let length = put_byte(line, after_numbers, b'\n');
        ControlFlow::Continue(length)
    }

    // The end of an accepted load or recovery, with its bytes in hex.
    pub fn ended_with(
        &mut self,
        answer: Answer,
        allowance: Option<u16>,
        field: u64,
        bytes: &[u8],
        line: &mut [u8],
    ) -> ControlFlow<usize, usize>
        requires { (640 ≤ length line.old) × (length bytes.now ≤ 255) }
        ensures { Turns (ends field allowance (L.hex_bytes bytes.now ∷ []) (outcome_in answer self.old.arrays)) line.old line.new self.new result }
    {
        self.controller = answer.controller;
        self.allowance = allowance;
        let after_numbers = put_numbers(line, field, answer.number, answer.words);
        let bytes_place = put_byte(line, after_numbers, b' ');
        let after_bytes = put_hex(line, bytes_place, bytes);
        let length = put_byte(line, after_bytes, b'\n');
        ControlFlow::Continue(length)
    }

    // The end of an accepted recovery that found no registers.
    pub fn ended_without(
        &mut self,
        answer: Answer,
        allowance: Option<u16>,
        field: u64,
        line: &mut [u8],
    ) -> ControlFlow<usize, usize>
        requires { 640 ≤ length line.old }
        ensures { Turns (ends field allowance (register_text None ∷ []) (outcome_in answer self.old.arrays)) line.old line.new self.new result }
    {
        self.controller = answer.controller;
        self.allowance = allowance;
        let after_numbers = put_numbers(line, field, answer.number, answer.words);
        let length = put_bytes(line, after_numbers, b" --\n");
        ControlFlow::Continue(length)
    }
}

// `bad`, one space and the field's number.
pub fn put_bad(line: &mut [u8], field: u64) -> usize
    requires { 640 ≤ length line.old }
    ensures { Puts (L.line (bad ∷ (L.decimal field ∷ []))) 0 line.old line.new result × (result ≤ 640) }
{
    let number_place = put_bytes(line, 0, b"bad ");
    let after_number = put_decimal(line, number_place, field);
    put_byte(line, after_number, b'\n')
}
