// The answers that a call gives, and the record after a loss of supply (document 01, Power).
ghost use Rattle.std.specs.Prelude.{◌≡◌};
ghost use Rattle.checks.specs.Answers.{answer_of, ended_of, off_of, refused_of};

use rules::{Answer, Controller, Number, Phase};

// The record of a board whose supply has stopped.
pub fn switched_off(controller: Controller) -> Controller
    ensures { result ≡ off_of controller }
{
    Controller {
        phase: Phase::Off,
        ..controller
    }
}

pub fn reply(number: Number, words: usize, controller: Controller) -> Answer
    ensures { result ≡ answer_of number words controller }
{
    Answer {
        number,
        words,
        controller,
    }
}

// A refused call stores nothing and leaves the record as it was.
pub fn refused(number: Number, controller: Controller) -> Answer
    ensures { result ≡ refused_of number controller }
{
    reply(number, 0, controller)
}

// The end of a list of so many words that leaves the record as it was: only a cut changes it.
pub fn ended(words: usize, controller: Controller, p: usize) -> Answer
    ensures { result ≡ ended_of p words controller }
{
    if p < words {
        return reply(Number::Cut, p, switched_off(controller));
    }
    reply(Number::Done, words, controller)
}
