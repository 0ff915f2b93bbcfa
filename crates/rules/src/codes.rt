// The numbers that stand for answers, states and finished backups (document 01, Numbers returned; What the board is; Checkpoints).
ghost use Rattle.std.specs.Prelude.{◌≡◌};
ghost use Rattle.rules.specs.Numbers.{number_of};
ghost use Rattle.rules.specs.TableWords.{code_of, StateOf};
ghost use Rattle.rules.specs.Checkpoints.{mark_of};

use crate::{Backup, Number, State};

impl From<Number> for u64 {
    ghost from_gives = { λ number returned. returned ≡ number_of number };

    #[tactic(auto, unfolding(crate::specs::Numbers::number_of))]
    fn from(number: Number) -> u64 {
        match number {
            Number::Done => 0,
            Number::Geometry => 1,
            Number::Buffer => 2,
            Number::Record => 3,
            Number::Off => 4,
            Number::Table => 5,
            Number::Range => 6,
            Number::Full => 7,
            Number::Busy => 8,
            Number::Idle => 9,
            Number::NoCheckpoint => 10,
            Number::Backup => 11,
            Number::NoHeader => 13,
            Number::WrongBoard => 14,
            Number::Cut => 20,
        }
    }
}

// The low byte of a table word.
impl From<State> for u64 {
    ghost from_gives = { λ state code. code ≡ code_of state };

    #[tactic(auto, unfolding(crate::specs::TableWords::code_of))]
    fn from(state: State) -> u64 {
        match state {
            State::Clean => 1,
            State::Dirty => 2,
            State::Hidden => 3,
            State::PreHidden => 4,
            State::PreDirty => 5,
        }
    }
}

// A code that stands for no state.
#[derive(Clone, Copy, Debug, PartialEq, Eq)]
pub struct NoState(pub u64);

impl TryFrom<u64> for State {
    type Error = NoState;

    ghost try_from_gives = { StateOf };

    fn try_from(code: u64) -> Result<State, NoState> {
        match code {
            1 => Ok(State::Clean),
            2 => Ok(State::Dirty),
            3 => Ok(State::Hidden),
            4 => Ok(State::PreHidden),
            5 => Ok(State::PreDirty),
            _ => Err(NoState(code)),
        }
    }
}

// The mark: 1 = A is finished, 2 = B is finished.
impl From<Backup> for u64 {
    ghost from_gives = { λ backup mark. mark ≡ mark_of backup };

    #[tactic(auto, unfolding(crate::specs::Checkpoints::mark_of))]
    fn from(backup: Backup) -> u64 {
        match backup {
            Backup::A => 1,
            Backup::B => 2,
        }
    }
}
