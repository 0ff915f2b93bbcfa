// The bench: the arrays, what is lent of them, the record, and what a line does with them.
ghost use Rattle.std.specs.Prelude.{◌<◌};

use crate::calls::Call;
use crate::print::{Changes, Record, Table};
use crate::readings::Reading;
use crate::settings::Setting;
use crate::text::Line;
use rules::{Backup, Controller, Geometry, Phase};
use std::io;
use std::io::{Stdout, Write};
use words::lay_number;

// The lengths lent: bytes of the memory, bytes of CACHE, words of the table.
#[derive(Clone, Copy)]
pub struct Lengths {
    pub memory: usize,
    pub cache: usize,
    pub table: usize,
}

// As in the program `cost`, which has arrays of other sizes: the two share no crate.
impl Lengths {
    fn exact(g: Geometry) -> Lengths {
        let slots = usize::from(g.slots);
        Lengths {
            memory: 8 * g.memory_words(),
            cache: 64 * slots,
            table: slots,
        }
    }
}

// What a call is given: the lent parts of the arrays, and the record.
#[derive(Drop)]
pub struct Lent<'a> {
    pub memory: &'a mut [u8],
    pub cache: &'a mut [u8],
    pub table: &'a mut [u64],
    pub controller: Controller,
}

// A board of up to 85 words, with up to 5 slots.
#[derive(Drop)]
pub struct Bench {
    memory: [u8; 680],
    cache: [u8; 320],
    table: [u64; 5],
    lengths: Lengths,
    controller: Controller,
}

// Bytes that count up from the first, each of them so many times.
pub fn count_up(bytes: &mut [u8], times: usize, first: u8)
    requires { 0 < times }
{
    for (j, byte) in bytes.iter_mut().enumerate() {
        *byte = first.wrapping_add((j / times % 256) as u8);
    }
}

impl Bench {
    // Each byte and each table word 0, all lengths those of the sizes, Running, A finished.
    pub fn new(g: Geometry) -> Bench {
        Bench {
            memory: [0; 680],
            cache: [0; 320],
            table: [0; 5],
            lengths: Lengths::exact(g),
            controller: Controller {
                geometry: g,
                registers: [0; 64],
                finished: Backup::A,
                phase: Phase::Running,
            },
        }
    }

    // Each word tells its place: word w of the memory is the byte w eight times, word w of CACHE the byte 128 + w.
    fn board(g: Geometry) -> Bench {
        let mut bench = Bench::new(g);
        count_up(&mut bench.memory, 8, 0);
        count_up(&mut bench.cache, 8, 128);
        bench
    }

    // What the lengths say, as far as the arrays reach.
    fn lend(&mut self) -> Lent<'_> {
        let lengths = self.lengths;
        let controller = self.controller;
        let Bench {
            memory,
            cache,
            table,
            ..
        } = self;
        Lent {
            memory: &mut memory[..lengths.memory.min(680)],
            cache: &mut cache[..lengths.cache.min(320)],
            table: &mut table[..lengths.table.min(5)],
            controller,
        }
    }

    fn put_table(&mut self, words: [u64; 3]) {
        for (entry, word) in self.table.iter_mut().zip(words) {
            *entry = word;
        }
    }

    fn put_word(&mut self, place: usize, value: u64) {
        if place < self.memory.len() / 8 {
            lay_number(&mut self.memory, place, value, 1);
        }
    }

    fn set(&mut self, setting: Setting) {
        match setting {
            Setting::Board(g) => *self = Bench::board(g),
            Setting::Lend(lengths) => self.lengths = lengths,
            Setting::Table(words) => self.put_table(words),
            Setting::Word { place, value } => self.put_word(place, value),
            Setting::Sizes(g) => self.controller.geometry = g,
            Setting::Finished(backup) => self.controller.finished = backup,
            Setting::Phase(phase) => self.controller.phase = phase,
        }
    }

    // The number, the words stored, the record, the table, the words of the memory that the call changed, and those of CACHE.
    fn call(&mut self, out: Stdout, call: Call) {
        let old_memory = self.memory;
        let old_cache = self.cache;
        let answer = call.answer(out, self.lend());
        self.controller = answer.controller;
        let Lent {
            memory,
            cache,
            table,
            controller,
        } = self.lend();
        let _ = print!(out; " {} {} |", u64::from(answer.number), answer.words);
        let _ = print!(out; "{} |{} |", Record(controller), Table(table));
        let in_memory = Changes {
            old: &old_memory,
            new: memory,
        };
        let in_cache = Changes {
            old: &old_cache,
            new: cache,
        };
        let _ = println!(out; "{in_memory} |{in_cache}");
    }

    // The line itself, and what it gives, indented.
    pub fn turn(&mut self, out: Stdout, line: Line<'_>) {
        let _ = io::writer(&out).write_all(line.0);
        let _ = println!(out);
        if line.is_note() {
            return;
        }
        if let Some(call) = Call::parse(line) {
            let _ = print!(out; " ");
            self.call(out, call);
            return;
        }
        if let Some(reading) = Reading::parse(line) {
            let _ = print!(out; " ");
            reading.print(out, self.lend());
            let _ = println!(out);
            return;
        }
        let Some(setting) = Setting::parse(line) else {
            let _ = println!(out; "  unknown");
            return;
        };
        self.set(setting);
    }
}
