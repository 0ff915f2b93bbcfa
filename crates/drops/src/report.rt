// What the program prints of a field: its name, its list, and its stops in runs. A text that can't be written is left out.
use crate::stops::{Came, Panel, Plan, came_back};
use asking::Asked;
use std::fmt;
use std::io::Stdout;

// Stops in a row with the same outcome.
#[derive(Clone, Copy)]
struct Run {
    came: Came,
    count: u64,
}

impl fmt::Display for Run {
    fn fmt<W: fmt::Write>(&self, f: &mut fmt::Formatter<W>) -> fmt::Result {
        write!(f, "{} x{}", self.came, self.count)
    }
}

// A function, since Display of another crate's Asked isn't this crate's to write.
fn name_of(asked: Asked) -> &'static str {
    match asked {
        Asked::Format(..) => "format",
        Asked::Store(..) => "store",
        Asked::Load(..) => "load",
        Asked::Begin(_) => "begin",
        Asked::Step(_) => "step",
        Asked::Allow(_) => "allow",
        Asked::Recover => "recover",
        Asked::Bad => "bad",
    }
}

// The head of a field's line.
pub fn print_field(out: Stdout, field: u64, plan: Plan) {
    let name = name_of(plan.asked);
    let words = plan.answer.words;
    let stops = plan.stops();
    let _ = print!(out; "{field} {name} {words} words {stops} stops");
}

// The stops of a field, each on a copy, to the end of the line; returns how many deviate.
pub fn try_stops(out: Stdout, panel: &Panel, plan: Plan, value: &[u8]) -> u64 {
    let mut wrong: u64 = 0;
    let mut lead = ": ";
    let mut last: Option<Run> = None;
    for p in 0..plan.stops() {
        let came = came_back(panel, plan, value, p);
        if came == Came::Wrong {
            wrong = wrong.wrapping_add(1);
        }
        let mut count: u64 = 0;
        if let Some(run) = last {
            if run.came == came {
                count = run.count;
            } else {
                let _ = print!(out; "{lead}{run}");
                lead = ", ";
            }
        }
        last = Some(Run {
            came,
            count: count.wrapping_add(1),
        });
    }
    if let Some(run) = last {
        let _ = print!(out; "{lead}{run}");
    }
    let _ = println!(out; "");
    wrong
}
