// A loss of supply inside a field's call, on a copy of the board: what comes back, against what has to come back (document 01, Power).
use crate::images::{Checkpoint, reads_as};
use asking::{Asked, store_bytes};
use checks::answers::refused;
use checks::numbers::accepted;
use lending::Arrays;
use rules::{Answer, Backup, Controller, Geometry, Number, Phase, Recovery, Registers};
use std::fmt;

// What comes back after a stop.
#[derive(Clone, Copy, PartialEq, Eq)]
pub enum Came {
    Kept,
    Draft,
    Old,
    New,
    Nothing,
    Wrong,
}

impl fmt::Display for Came {
    fn fmt<W: fmt::Write>(&self, f: &mut fmt::Formatter<W>) -> fmt::Result {
        f.write_str(match self {
            Came::Kept => "kept",
            Came::Draft => "draft",
            Came::Old => "old",
            Came::New => "new",
            Came::Nothing => "none",
            Came::Wrong => "WRONG",
        })
    }
}

// What the program holds: the bench, the sizes of the board in its memory with the last finished checkpoint, the checkpoint on its way, and the counts.
#[derive(Clone, Copy)]
pub struct Panel {
    pub arrays: Arrays,
    pub controller: Controller,
    pub allowance: Option<u16>,
    pub sizes: Geometry,
    pub saved: Option<Checkpoint>,
    pub draft: Checkpoint,
    pub tried: u64,
    pub wrong: u64,
}

// A field's call when nothing stops it.
#[derive(Clone, Copy)]
pub struct Plan {
    pub asked: Asked,
    pub answer: Answer,
}

impl Plan {
    pub fn of(panel: &Panel, asked: Asked, value: &[u8]) -> Plan {
        let mut copy = panel.arrays;
        let done = act(&mut copy, panel.controller, asked, value, usize::MAX);
        Plan {
            asked,
            answer: done.answer,
        }
    }

    pub fn is_accepted(self) -> bool {
        accepted(self.answer.number)
    }

    // A list of n words has n + 1 places to stop; a refused field has no list.
    pub fn stops(self) -> usize {
        if self.is_accepted() && stores_words(self.asked) {
            self.answer.words.wrapping_add(1)
        } else {
            0
        }
    }

    // What has to come back: a checkpoint on its way is finished by the last word of its list, the mark. A format's first
    // word takes the old mark away, its last one sets the new.
    fn expected(self, p: usize, is_saved: bool) -> Came {
        let whole = p == self.answer.words;
        match self.asked {
            Asked::Format(..) if whole => Came::New,
            Asked::Format(..) if p == 0 && is_saved => Came::Old,
            Asked::Format(..) => Came::Nothing,
            Asked::Step(_) if whole && self.answer.controller.phase == Phase::Running => {
                Came::Draft
            }
            _ => Came::Kept,
        }
    }

    // The sizes of the board whose checkpoint is in the memory: a format's own as soon as it has stored a word.
    fn sizes_at(self, p: usize, sizes: Geometry) -> Geometry {
        match self.asked {
            Asked::Format(g, _) if p != 0 => g,
            _ => sizes,
        }
    }
}

pub fn stores_words(asked: Asked) -> bool {
    match asked {
        Asked::Format(..) | Asked::Store(..) | Asked::Begin(_) | Asked::Step(_) => true,
        _ => false,
    }
}

// The field's call with an allowance. A load or an allowance changes nothing on the board, and no call but a recovery
// says anything of registers.
pub fn act(
    arrays: &mut Arrays,
    controller: Controller,
    asked: Asked,
    value: &[u8],
    p: usize,
) -> Recovery {
    let answer = match asked {
        Asked::Recover => return arrays.recover(controller),
        Asked::Format(g, fill) => arrays.format(controller, g, fill, p),
        Asked::Store(block, offset) => arrays.store(
            controller,
            block as usize,
            offset as usize,
            store_bytes(value),
            p,
        ),
        Asked::Begin(byte) => arrays.begin(controller, &[byte; 64], p),
        Asked::Step(most) => arrays.step(controller, most as usize, p),
        Asked::Load(..) | Asked::Allow(_) | Asked::Bad => refused(Number::Done, controller),
    };
    Recovery {
        answer,
        registers: Registers::Absent,
    }
}

// The record after a loss of supply: only the sizes are given anew, the rest is garbage.
fn lost_record(geometry: Geometry) -> Controller {
    Controller {
        geometry,
        registers: [165u8; 64],
        finished: Backup::B,
        phase: Phase::Writing(60000),
    }
}

// No checkpoint: NO CHECKPOINT, or GEOMETRY where no board was ever formatted.
fn refuses(answer: Answer) -> bool {
    if answer.controller.geometry.blocks == 0 {
        return answer.number == Number::Geometry;
    }
    answer.number == Number::NoCheckpoint
}

// Whether a recovered board is the expected one.
fn is_expected(arrays: &Arrays, recovery: Recovery, expected: Came, panel: &Panel) -> bool {
    let opened = accepted(recovery.answer.number);
    match expected {
        Came::Kept | Came::Old => match &panel.saved {
            Some(saved) => opened && reads_as(arrays, recovery, saved),
            None => false,
        },
        Came::Draft | Came::New => opened && reads_as(arrays, recovery, &panel.draft),
        Came::Nothing => refuses(recovery.answer),
        Came::Wrong => false,
    }
}

// The supply stops after p words of the list, everything volatile is lost, and the board recovers.
pub fn came_back(panel: &Panel, plan: Plan, value: &[u8], p: usize) -> Came {
    let mut copy = panel.arrays;
    act(&mut copy, panel.controller, plan.asked, value, p);
    copy.cache = [165u8; 1024];
    copy.table = [65025u64; 16];
    let recovery = copy.recover(lost_record(plan.sizes_at(p, panel.sizes)));
    let expected = plan.expected(p, panel.saved.is_some());
    if is_expected(&copy, recovery, expected, panel) {
        return expected;
    }
    Came::Wrong
}
