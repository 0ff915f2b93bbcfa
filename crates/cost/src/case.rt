// A case: the call, the board it meets and how often it is made, as 14 bytes.
use rules::{Backup, Controller, Geometry, Phase};

// The calls that are measured, by their codes.
#[derive(Clone, Copy, Debug, PartialEq, Eq)]
pub enum Call {
    Load = 1,
    Store = 2,
    Begin = 3,
    // one word of the checkpoint
    Step = 4,
    // all of it
    Checkpoint = 5,
    Format = 6,
    Recover = 7,
    Sweep = 8,
}

// A code that names no call.
#[derive(Clone, Copy, Debug, PartialEq, Eq)]
pub struct NoCall(pub u8);

impl TryFrom<u8> for Call {
    type Error = NoCall;

    fn try_from(code: u8) -> Result<Call, NoCall> {
        Ok(match code {
            1 => Call::Load,
            2 => Call::Store,
            3 => Call::Begin,
            4 => Call::Step,
            5 => Call::Checkpoint,
            6 => Call::Format,
            7 => Call::Recover,
            8 => Call::Sweep,
            _ => return Err(NoCall(code)),
        })
    }
}

#[derive(Clone, Copy)]
pub struct Case {
    // none is made where the code names none
    pub call: Option<Call>,
    // the state codes of the entries: of every slot, and of the last
    pub every: u8,
    pub last: u8,
    pub controller: Controller,
    pub block: usize,
    pub offset: usize,
    pub length: usize,
    pub allowance: usize,
    pub repeats: usize,
}

fn phase_in(byte: u8) -> Phase {
    if byte == 1 {
        return Phase::Writing(0);
    }
    Phase::Running
}

// The block of the last slot or, where that is free, the last block of the board.
fn block_in(g: Geometry, last: u8) -> usize {
    let count = if last == 0 { g.blocks } else { g.slots };
    usize::from(count.saturating_sub(1))
}

fn two(high: u8, low: u8) -> u16 {
    u16::from_be_bytes([high, low])
}

impl From<[u8; 14]> for Case {
    fn from(bytes: [u8; 14]) -> Case {
        let [
            call,
            every,
            last,
            phase,
            n1,
            n0,
            b1,
            b0,
            offset,
            length,
            p1,
            p0,
            r1,
            r0,
        ] = bytes;
        let geometry = Geometry {
            blocks: two(n1, n0),
            slots: two(b1, b0),
        };
        Case {
            call: Call::try_from(call).ok(),
            every,
            last,
            controller: Controller {
                geometry,
                registers: [0; 64],
                finished: Backup::A,
                phase: phase_in(phase),
            },
            block: block_in(geometry, last),
            offset: usize::from(offset),
            length: usize::from(length),
            allowance: usize::from(two(p1, p0)),
            repeats: usize::from(two(r1, r0)),
        }
    }
}

// The word of a slot that holds the block of its own number.
fn entry(slot: usize, code: u8) -> u64 {
    if code == 0 {
        return 0;
    }
    256 * ((slot % 4096) as u64) + u64::from(code)
}

impl Case {
    pub fn put_table(&self, table: &mut [u64]) {
        let slots = usize::from(self.controller.geometry.slots);
        for (slot, word) in table.iter_mut().enumerate() {
            let code = if slot + 1 == slots {
                self.last
            } else {
                self.every
            };
            *word = entry(slot, code);
        }
    }
}
