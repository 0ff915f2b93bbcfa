// A loss of supply inside a move or a format, on a copy of the panel, and a recovery in each form after it.
use crate::answers::answer_right;
use crate::expected::{Came, expected};
use crate::images::{Image, formatted_image, reads_as};
use crate::panel::{Call, Form, Panel};
use rules::{Backup, Controller, Geometry, Number, Phase};

// A call to stop, the panel that it is made on, and the image of the last finished checkpoint there.
#[derive(Clone, Copy)]
pub struct Trial {
    pub panel: Panel,
    pub call: Call,
    pub before: Image,
}

// What both forms give after a stop, and whether that and the call's own answer are right: all three are always there.
#[derive(Clone, Copy, PartialEq, Eq)]
pub struct Stop {
    pub old: Came,
    pub new: Came,
    pub right: bool,
}

// Everything volatile is lost: CACHE, the table and the record are garbage.
fn lost(panel: Panel) -> Panel {
    Panel {
        cache: [165u8; 128],
        table: [42405u64; 2],
        controller: Controller {
            geometry: Geometry {
                blocks: 42405,
                slots: 42405,
            },
            registers: [165u8; 64],
            finished: Backup::A,
            phase: Phase::Writing(42405),
        },
        ..panel
    }
}

fn fill_of(call: Call) -> u8 {
    match call {
        Call::Format(fill) => fill,
        _ => 0,
    }
}

impl Trial {
    fn came_back(&self, left: Panel, form: Form) -> Came {
        let mut panel = lost(left);
        let recovery = panel.recover(form);
        let number = recovery.answer.number;
        if number != Number::Done {
            Came::Refused(number)
        } else if reads_as(&panel, recovery, &self.before) {
            Came::Before
        } else if reads_as(&panel, recovery, &formatted_image(fill_of(self.call))) {
            Came::Formatted
        } else {
            Came::Other
        }
    }

    // The supply stops after p words of the call's list, and the board recovers in each form.
    pub fn stopped(&self, p: usize) -> Stop {
        let mut left = self.panel;
        let answer = left.act(self.call, p);
        let old = self.came_back(left, Form::Old);
        let new = self.came_back(left, Form::New);
        let right = answer_right(self.call, &self.panel, &left, answer, p)
            && old == expected(self.call, Form::Old, p)
            && new == expected(self.call, Form::New, p);
        Stop { old, new, right }
    }
}
