// The table of stores: where the new block goes, whether all its words are stored, and what becomes of its entry (document 01, Stores; document 02, No. 5).
#![tactic(auto)]

ghost use Rattle.std.specs.Prelude.{◌≡◌, ℕ, None};
ghost use Rattle.rules.specs.declared.Phase.TheVariants as P;
ghost use Rattle.rules.specs.TableWords.{entry_at};
ghost use Rattle.rules.specs.Stores.{move_in, stores, is_short};
ghost use Rattle.moves.specs.Moves.{move_of, short_of};

use rules::{Entry, Phase, Place, State};

pub mod windows;

// A row's entry in a column: three cases, of which the third is no refusal but what no well formed table has.
#[derive(Clone, Copy)]
pub enum Move {
    // where all 64 bytes go, and the entry's state after
    To(Place, State),
    // the same where the block already shows there: only the words that the bytes touch are stored (document 02, No. 5)
    InPlace(Place, State),
    NotWellFormed,
}

// The column Running, for a block with an entry.
#[tactic(auto, unfolding(rules::specs::Stores::move_in, rules::specs::Stores::stores, rules::specs::Stores::is_short, rules::specs::Stores::dirty_or_hidden))]
pub fn move_running(state: State) -> Move
    ensures { (slot : ℕ) → (move_of result ≡ move_in P.Running (stores (entry_at slot state))) × (short_of result ≡ is_short P.Running (entry_at slot state)) }
{
    match state {
        State::Clean => Move::To(Place::Home, State::Hidden),
        State::Dirty => Move::InPlace(Place::Checkpoint, State::Dirty),
        State::Hidden => Move::InPlace(Place::Home, State::Hidden),
        State::PreHidden => Move::To(Place::Home, State::Hidden),
        State::PreDirty => Move::To(Place::Checkpoint, State::Dirty),
    }
}

// The column Writing, for a block with an entry.
#[tactic(auto, unfolding(rules::specs::Stores::move_in, rules::specs::Stores::stores, rules::specs::Stores::is_short, rules::specs::Stores::dirty_or_hidden))]
pub fn move_writing(state: State) -> Move
    ensures { (slot count : ℕ) → (move_of result ≡ move_in (P.Writing count) (stores (entry_at slot state))) × (short_of result ≡ is_short (P.Writing count) (entry_at slot state)) }
{
    match state {
        State::Clean => Move::To(Place::Cache, State::PreHidden),
        State::Dirty => Move::NotWellFormed,
        State::Hidden => Move::NotWellFormed,
        State::PreHidden => Move::To(Place::Cache, State::PreHidden),
        State::PreDirty => Move::To(Place::Cache, State::PreDirty),
    }
}

pub fn move_entry(phase: Phase, state: State) -> Move
    ensures { (slot : ℕ) → (move_of result ≡ move_in phase (stores (entry_at slot state))) × (short_of result ≡ is_short phase (entry_at slot state)) }
{
    match phase {
        Phase::Running => move_running(state),
        Phase::Writing(_) => move_writing(state),
        Phase::Off => Move::NotWellFormed,
    }
}

// The row of a block without an entry.
#[tactic(auto, unfolding(rules::specs::Stores::move_in, rules::specs::Stores::stores, rules::specs::Stores::is_short, rules::specs::Stores::dirty_or_hidden))]
pub fn move_new(phase: Phase) -> Move
    ensures { (move_of result ≡ move_in phase (stores None)) × (short_of result ≡ is_short phase None) }
{
    match phase {
        Phase::Running => Move::To(Place::Checkpoint, State::Dirty),
        Phase::Writing(_) => Move::To(Place::Cache, State::PreDirty),
        Phase::Off => Move::NotWellFormed,
    }
}

// The row and the column of a store, by what the lookup found.
pub fn move_for(phase: Phase, found: Option<Entry>) -> Move
    ensures { (move_of result ≡ move_in phase (stores found)) × (short_of result ≡ is_short phase found) }
{
    match found {
        Some(entry) => move_entry(phase, entry.state),
        None => move_new(phase),
    }
}
