// The last finished checkpoint and the one on its way, kept as plain images beside the board (document 01, Checkpoints).
use crate::images::{Checkpoint, image_of, registers_of};
use crate::stops::{Panel, Plan};
use asking::Asked;
use checks::numbers::accepted;
use rules::{Answer, Geometry, Phase, Recovery};

// The checkpoint on its way once an accepted field has begun one: what loads give at a begin, all fill at a format.
pub fn drafted(panel: &Panel, plan: Plan) -> Checkpoint {
    match plan.asked {
        Asked::Format(_, fill) if plan.is_accepted() => Checkpoint {
            image: [fill; 4096],
            registers: None,
        },
        Asked::Begin(byte) if plan.is_accepted() => Checkpoint {
            image: image_of(&panel.arrays, panel.controller),
            registers: Some([byte; 64]),
        },
        _ => panel.draft,
    }
}

// A format cut before its first word leaves the old checkpoint, cut later it leaves none.
fn formatted(panel: &mut Panel, g: Geometry, answer: Answer) {
    if answer.words == 0 {
        return;
    }
    let draft = panel.draft;
    panel.sizes = g;
    panel.saved = if accepted(answer.number) {
        Some(draft)
    } else {
        None
    };
}

// A step that leaves the board Running has stored the mark.
fn stepped(panel: &mut Panel, answer: Answer) {
    if accepted(answer.number) && answer.controller.phase == Phase::Running {
        let draft = panel.draft;
        panel.saved = Some(draft);
    }
}

// The record's sizes aren't the memory's only after a format with other sizes that was cut before its first word. What
// a recovery with the record's sizes then reads is taken as it is.
fn reopened(panel: &mut Panel, recovery: Recovery) {
    let controller = recovery.answer.controller;
    if !accepted(recovery.answer.number) || controller.geometry == panel.sizes {
        return;
    }
    let image = image_of(&panel.arrays, controller);
    panel.sizes = controller.geometry;
    panel.saved = Some(Checkpoint {
        image,
        registers: registers_of(recovery),
    });
}

// What is kept after a field's own call.
pub fn keep(panel: &mut Panel, asked: Asked, done: Recovery) {
    match asked {
        Asked::Format(g, _) => formatted(panel, g, done.answer),
        Asked::Step(_) => stepped(panel, done.answer),
        Asked::Recover => reopened(panel, done),
        _ => {}
    }
}
