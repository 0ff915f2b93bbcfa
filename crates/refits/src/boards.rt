// The boards that are stopped: one finished checkpoint, then stores after it, in each phase.
use crate::panel::{Call, Panel, SIZES};
use rules::{Backup, Controller, Geometry, Phase};

fn no_board() -> Panel {
    Panel {
        memory: [0u8; 504],
        cache: [0u8; 128],
        table: [0u64; 2],
        controller: Controller {
            geometry: SIZES,
            registers: [0u8; 64],
            finished: Backup::A,
            phase: Phase::Off,
        },
    }
}

// A board of the old form, as its checkpoint finds it: block 0 is dirty.
pub fn stored_board() -> Panel {
    no_board()
        .after(Call::OldFormat(17))
        .after(Call::Store(0, 34))
}

// A finished checkpoint, then stores: block 0 is hidden, block 2 dirty. A recovery forgets them.
pub fn running(stored: Panel) -> Panel {
    let finished = stored.after(Call::Begin(7)).after(Call::Step(11));
    finished.after(Call::Store(0, 68)).after(Call::Store(2, 85))
}

// A checkpoint on its way: 5 of its 11 words, and two blocks in CACHE. As `running` in shape only.
pub fn writing(running: Panel) -> Panel {
    let stepped = running.after(Call::Begin(8)).after(Call::Step(5));
    stepped
        .after(Call::Store(0, 102))
        .after(Call::Store(2, 119))
}

// The same after a step that the supply left after 2 words.
pub fn off(writing: Panel) -> Panel {
    let mut panel = writing;
    panel.act(Call::Step(6), 2);
    panel
}

// A format takes the sizes given and none from the record.
pub fn with_other_sizes(panel: Panel) -> Panel {
    Panel {
        controller: Controller {
            geometry: Geometry {
                blocks: 1,
                slots: 1,
            },
            ..panel.controller
        },
        ..panel
    }
}
