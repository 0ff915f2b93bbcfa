// A panel with a board of 3 blocks and 2 slots: what it lends to the calls of both stored forms, as one value, so that each stop has a copy of its own.
use rules::{Answer, Controller, Geometry, Number, Recovery};

pub const SIZES: Geometry = Geometry {
    blocks: 3,
    slots: 2,
};

// The bytes of a memory without the two words after the mark, which the old form's calls and the loads take.
const OLD_BYTES: usize = 488;

// The memory has the new form's 8N + 10B + 19 = 63 words.
#[derive(Clone, Copy)]
pub struct Panel {
    pub memory: [u8; 504],
    pub cache: [u8; 128],
    pub table: [u64; 2],
    pub controller: Controller,
}

#[derive(Clone, Copy)]
pub enum Form {
    Old,
    New,
}

// An enum whose matches stay: each call has values of its own, and what must come back differs by call.
#[derive(Clone, Copy)]
pub enum Call {
    OldFormat(u8),
    // five bytes of a block
    Store(usize, u8),
    Begin(u8),
    Step(usize),
    // the new form's
    Format(u8),
    MoveUp,
    MoveBack,
}

fn act(
    memory: &mut [u8; 504],
    cache: &mut [u8],
    table: &mut [u64],
    controller: Controller,
    call: Call,
    p: usize,
) -> Answer {
    match call {
        Call::OldFormat(fill) => {
            let old = &mut memory[..OLD_BYTES];
            board::format(old, cache, table, controller, SIZES, fill, p)
        }
        Call::Store(block, byte) => {
            let old = &mut memory[..OLD_BYTES];
            board::store(old, cache, table, controller, block, 30, &[byte; 5], p)
        }
        Call::Begin(byte) => {
            let old = &mut memory[..OLD_BYTES];
            board::begin(old, cache, table, controller, &[byte; 64], p)
        }
        Call::Step(most) => {
            let old = &mut memory[..OLD_BYTES];
            board::step(old, cache, table, controller, most, p)
        }
        Call::Format(fill) => header::format(memory, cache, table, controller, SIZES, fill, p),
        Call::MoveUp => header::move_up(memory, cache, table, controller, SIZES, p),
        Call::MoveBack => header::move_back(memory, cache, table, controller, SIZES, p),
    }
}

impl Panel {
    // The call with an allowance. A proof lends one field of a reference at a time, so the fields go into variables.
    pub fn act(&mut self, call: Call, p: usize) -> Answer {
        let Panel {
            mut memory,
            mut cache,
            mut table,
            controller,
        } = *self;
        let answer = act(&mut memory, &mut cache, &mut table, controller, call, p);
        *self = Panel {
            memory,
            cache,
            table,
            controller: answer.controller,
        };
        answer
    }

    // The panel after a call that nothing stops.
    pub fn after(self, call: Call) -> Panel {
        let mut panel = self;
        panel.act(call, usize::MAX);
        panel
    }

    pub fn recover(&mut self, form: Form) -> Recovery {
        let controller = self.controller;
        let recovery = match form {
            Form::Old => {
                let old = &self.memory[..OLD_BYTES];
                board::recover(old, &self.cache, &mut self.table, controller, SIZES)
            }
            Form::New => {
                let table = &mut self.table;
                header::recover(&self.memory, &self.cache, table, controller, SIZES)
            }
        };
        self.controller = recovery.answer.controller;
        recovery
    }

    // A load answers a number, as document 01 has it.
    fn load(&self, block: usize, into: &mut [u8]) -> Number {
        let old = self.old_memory();
        board::load(
            old,
            &self.cache,
            &self.table,
            self.controller,
            block,
            0,
            into,
        )
    }

    // The blocks as loads give them, or None where one is refused.
    pub fn blocks(&self) -> Option<[[u8; 64]; 3]> {
        let mut blocks = [[0u8; 64]; 3];
        for (block, into) in blocks.iter_mut().enumerate() {
            if self.load(block, into) != Number::Done {
                return None;
            }
        }
        Some(blocks)
    }

    pub fn old_memory(&self) -> &[u8] {
        &self.memory[..OLD_BYTES]
    }
}
