// Table words, lookup and a store's slot (document 01, What the board is; Stores).
ghost use Rattle.std.specs.Prelude.{◌≡◌, ◌<◌, ◌≤◌};
ghost use Rattle.rules.specs.TableWords as W;
ghost use Rattle.rules.specs.Stores.{slot_for};
ghost use Rattle.checks.specs.Tables.{Formed};

use super::slots::slot_of;
use rules::{Entry, State};

#[tactic(auto, unfolding(rules::specs::TableWords::word_of))]
pub fn word_of(block: usize, state: State) -> u64
    requires { block < 4096 }
    ensures { result ≡ W.word_of block state }
{
    256 * (block as u64) + u64::from(state)
}

// The state of a code that stands for one.
// No TryFrom: here the code is known to stand for a state.
pub fn state_of(code: u64) -> State
    requires { (1 ≤ code) × (code ≤ 5) }
    ensures { W.code_of result ≡ code }
{
    State::try_from(code).unwrap()
}

pub fn lookup(table: &[u64], block: usize) -> Option<Entry>
    requires { Formed table.now × (block < 4096) }
    ensures { result ≡ W.lookup block table.now }
{
    let slot = slot_of(table, block as u32, false)?;
    let state = state_of(table[slot] % 256);
    Some(Entry { slot, state })
}

pub fn lowest_free(table: &[u64]) -> Option<usize>
    ensures { result ≡ W.lowest_free table.now }
{
    slot_of(table, 0, true)
}

// What a store needs of the table: its block's entry, and its slot, that of the entry or else the lowest free one.
#[derive(Clone, Copy)]
pub struct Seat {
    pub found: Option<Entry>,
    pub slot: Option<usize>,
}

#[tactic(auto, unfolding(rules::specs::Stores::slot_for))]
pub fn seat_for(table: &[u64], block: usize) -> Seat
    requires { Formed table.now × (block < 4096) }
    ensures { (result.found ≡ W.lookup block table.now) × (result.slot ≡ slot_for result.found (W.lowest_free table.now)) }
{
    let found = lookup(table, block);
    let slot = found.map(|entry| entry.slot).or_else(|| lowest_free(table));
    Seat { found, slot }
}
