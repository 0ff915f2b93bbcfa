// What has to come back after a stop, by the order in which the words are stored (document 02, No. 6).
use crate::panel::{Call, Form};
use rules::Number;
use std::fmt;

// What a recovery gives.
#[derive(Clone, Copy, PartialEq, Eq)]
pub enum Came {
    // the last finished checkpoint from before the call
    Before,
    // every byte the fill, and no registers
    Formatted,
    // any other image
    Other,
    Refused(Number),
}

impl fmt::Display for Came {
    fn fmt<W: fmt::Write>(&self, f: &mut fmt::Formatter<W>) -> fmt::Result {
        match *self {
            Came::Before => write!(f, "image of before"),
            Came::Formatted => write!(f, "formatted image"),
            Came::Other => write!(f, "another image"),
            Came::Refused(number) => write!(f, "{}", u64::from(number)),
        }
    }
}

// Both header words, or a format's 8N + B + 13.
pub fn list_words(call: Call) -> usize {
    match call {
        Call::Format(_) => 39,
        _ => 2,
    }
}

// What a recovery in the form gives after the first p words of the call.
pub fn expected(call: Call, form: Form, p: usize) -> Came {
    match (form, call) {
        // A format's second word takes the mark away, and its third from the end sets the new one.
        (Form::Old, Call::Format(_)) => match p {
            0..=1 => Came::Before,
            2..=36 => Came::Refused(Number::NoCheckpoint),
            _ => Came::Formatted,
        },
        // The old form recovers all through a move.
        (Form::Old, _) => Came::Before,
        // The new form recovers while the first header word is there. A move up stores it last.
        (Form::New, Call::MoveUp) => match p {
            0..=1 => Came::Refused(Number::NoHeader),
            _ => Came::Before,
        },
        // A format takes it away with its first word, and stores it with its last.
        (Form::New, Call::Format(_)) => match p {
            0 => Came::Before,
            39 => Came::Formatted,
            _ => Came::Refused(Number::NoHeader),
        },
        // A move back takes it away with its first word.
        (Form::New, _) => match p {
            0 => Came::Before,
            _ => Came::Refused(Number::NoHeader),
        },
    }
}
