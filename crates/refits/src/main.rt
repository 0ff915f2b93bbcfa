// A board is moved between the stored forms, or formatted in the new one, and the supply stops: what does each form read when it returns? Every stop is tried.
#![tactic(auto)]

use boards::{off, running, stored_board, with_other_sizes, writing};
use expected::list_words;
use images::{Image, image_of};
use panel::{Call, Panel};
use report::{Run, print_run};
use stops::Trial;

mod answers;
mod boards;
mod expected;
mod images;
mod panel;
mod report;
mod stops;

#[derive(Clone, Copy, Default)]
struct Tally {
    tried: u64,
    wrong: u64,
}

impl Tally {
    // One more stop.
    fn count(&mut self, right: bool) {
        self.tried = self.tried.wrapping_add(1);
        if !right {
            self.wrong = self.wrong.wrapping_add(1);
        }
    }
}

// Every stop of one call; a run that ends is printed.
fn try_stops(rt: &impl Print, trial: &Trial, tally: &mut Tally) {
    let stop = trial.stopped(0);
    tally.count(stop.right);
    let mut run = Run {
        stop,
        first: 0,
        last: 0,
    };
    for p in 1..=list_words(trial.call) {
        let stop = trial.stopped(p);
        tally.count(stop.right);
        if stop == run.stop {
            run.last = p;
        } else {
            print_run(rt, trial, run);
            run = Run {
                stop,
                first: p,
                last: p,
            };
        }
    }
    print_run(rt, trial, run);
}

// A move up from the old form, then a move back from the new.
fn try_moves(rt: &impl Print, panel: Panel, before: Image, tally: &mut Tally) {
    let up = Trial {
        panel,
        call: Call::MoveUp,
        before,
    };
    try_stops(rt, &up, tally);
    let back = Trial {
        panel: panel.after(Call::MoveUp),
        call: Call::MoveBack,
        before,
    };
    try_stops(rt, &back, tally);
}

fn try_format(rt: &impl Print, panel: Panel, before: Image, tally: &mut Tally) {
    let trial = Trial {
        panel: with_other_sizes(panel.after(Call::MoveUp)),
        call: Call::Format(136),
        before,
    };
    try_stops(rt, &trial, tally);
}

// It goes on after a line that can't be written, here as in `report`.
fn main(rt: HostRuntime) {
    let stored = stored_board();
    let before = image_of(&stored, 7);
    let first = running(stored);
    let second = writing(first);
    let _ = println!(rt; "every stop of the moves and of the new format: 3 blocks, 2 slots");
    let mut tally = Tally::default();
    for panel in [first, second, off(second)] {
        try_moves(&rt, panel, before, &mut tally);
    }
    try_format(&rt, first, before, &mut tally);
    let _ = println!(rt; "{} stops tried, {} deviate", tally.tried, tally.wrong);
}
