// What the program prints of a call's stops: a line for each run of stops that came back alike. A line that can't be written is left out.
use crate::panel::Call;
use crate::stops::{Stop, Trial};
use rules::Phase;
use std::fmt;

// Stops in a row that came back alike.
#[derive(Clone, Copy)]
pub struct Run {
    pub stop: Stop,
    pub first: usize,
    pub last: usize,
}

impl fmt::Display for Call {
    fn fmt<W: fmt::Write>(&self, f: &mut fmt::Formatter<W>) -> fmt::Result {
        f.write_str(match self {
            Call::OldFormat(_) => "old format",
            Call::Store(_, _) => "store",
            Call::Begin(_) => "begin",
            Call::Step(_) => "step",
            Call::Format(_) => "format",
            Call::MoveUp => "move up",
            Call::MoveBack => "move back",
        })
    }
}

// A function, since Display of another crate's Phase isn't this crate's to write.
fn phase_name(phase: Phase) -> &'static str {
    match phase {
        Phase::Running => "Running",
        Phase::Writing(_) => "Writing",
        Phase::Off => "Off",
    }
}

impl fmt::Display for Stop {
    fn fmt<W: fmt::Write>(&self, f: &mut fmt::Formatter<W>) -> fmt::Result {
        if self.old == self.new {
            write!(f, "both forms {}", self.new)?;
        } else {
            write!(f, "old form {}, new form {}", self.old, self.new)?;
        }
        if !self.right {
            write!(f, ": WRONG")?;
        }
        Ok(())
    }
}

impl fmt::Display for Run {
    fn fmt<W: fmt::Write>(&self, f: &mut fmt::Formatter<W>) -> fmt::Result {
        if self.first == self.last {
            write!(f, "stop {}: {}", self.first, self.stop)
        } else {
            write!(f, "stops {}-{}: {}", self.first, self.last, self.stop)
        }
    }
}

pub fn print_run(rt: &impl Print, trial: &Trial, run: Run) {
    let phase = phase_name(trial.panel.controller.phase);
    let _ = println!(rt; "{}, {phase}, {run}", trial.call);
}
