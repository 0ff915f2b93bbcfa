// The new block of a store built at its place, and its entry in the table (document 01, Stores; Power).
// What is lent comes one by one, by & or &mut as the call needs it: one value of all of it would ask callers for more.
#![tactic(auto)]

ghost use Rattle.std.specs.Prelude.{◌≡◌, true, List, ℕ, ◌+◌, ◌*◌, ◌≤◌, ◌<◌, length, set};
ghost use Rattle.words.specs.Words.{Lays, block_at, bytes_to};
ghost use Rattle.rules.specs.Board.{board_of};
ghost use Rattle.rules.specs.Power.{settle, outcome_of};
ghost use Rattle.rules.specs.TableWords.{entry_at};
ghost use Rattle.rules.specs.declared.State as S;
ghost use Rattle.rules.specs.declared.Window as W;
ghost use Rattle.rules.specs.Loads as R;
ghost use Rattle.rules.specs.Loads.{in_memory, in_cache, spot_in, block_in};
ghost use Rattle.rules.specs.declared.Place as P;
ghost use Rattle.rules.specs.Stores as T;
ghost use Rattle.rules.specs.Stores.{replaced, window_for, window_to, lay_at, moved};
ghost use Rattle.checks.specs.Ready.{Ready};
ghost use Rattle.moves.specs.Moves.{move_of, short_of};
ghost use Rattle.placing.specs.Spots.{spot_of, Fits, InMemory};
ghost use Rattle.placing.specs.Ends.{Ended};

use blocks::place_of;
use checks::answers::{refused, reply, switched_off};
use checks::table::word_of;
use merges::{Patch, lay_whole, merge_across, merge_within};
use moves::Move;
use moves::windows::{all_words, touched};
use rules::{Answer, Controller, Entry, Geometry, Number, Place};

// The 64 bytes of a place: a block of the memory, or of CACHE.
// Both are places and neither is a failure: no Result.
#[derive(Clone, Copy)]
pub enum Spot {
    Memory(usize),
    Cache(usize),
}

pub fn spot_in(g: Geometry, block: usize, slot: usize, place: Place) -> Spot
    requires { slot < 512 }
    ensures { spot_of result ≡ spot_in g block slot place }
{
    match place {
        Place::Home => Spot::Memory(block),
        Place::Checkpoint => Spot::Memory((g.blocks as usize) + slot),
        Place::Cache => Spot::Cache(slot),
    }
}

// Where the block shows, by what the lookup found.
pub fn spot_of(g: Geometry, block: usize, found: Option<Entry>) -> Spot
    requires { (slot : ℕ) (state : S.State) → found ≡ entry_at slot state → slot < 512 }
    ensures { spot_of result ≡ R.spot_of g block found }
{
    match found {
        Some(entry) => {
            let place = place_of(entry.state);
            spot_in(g, block, entry.slot, place)
        }
        None => Spot::Memory(block),
    }
}

// The words that the bytes touch, at the block of the memory where the old block shows (document 02, No. 5). All 8 go as in any other store.
pub fn build_short(memory: &mut [u8], to: usize, patch: Patch<'_>, p: usize) -> usize
    requires { 64 * to + 64 ≤ length memory.old }
    ensures { Lays p (window_to to (T.touched patch.entry.offset (length patch.entry.bytes.now)) (replaced (block_at memory.old to) patch.entry.offset patch.entry.bytes.now)) memory.old memory.new result }
{
    let window = touched(patch.offset, patch.bytes.len());
    if (window.count < Geometry::BLOCK_WORDS) | (p < Geometry::BLOCK_WORDS) {
        return merge_within(memory, to, to, patch, window, p);
    }
    if patch.bytes.len() == 64 {
        return lay_whole(memory, to, patch.bytes);
    }
    let all = all_words();
    merge_within(memory, to, to, patch, all, Geometry::BLOCK_WORDS)
}

// The words of the new block that the allowance leaves, at a block of the memory.
pub fn build_part(
    memory: &mut [u8],
    cache: &[u8],
    from: Spot,
    to: usize,
    patch: Patch<'_>,
    p: usize,
) -> usize
    requires { Fits memory.old cache.now (spot_of from) × (64 * to + 64 ≤ length memory.old) }
    ensures { Lays p (bytes_to (8 * to) 8 (replaced (block_in memory.old cache.now (spot_of from)) patch.entry.offset patch.entry.bytes.now)) memory.old memory.new result }
{
    let all = all_words();
    match from {
        Spot::Memory(index) => merge_within(memory, index, to, patch, all, p),
        Spot::Cache(index) => merge_across(cache, index, memory, to, patch, all, p),
    }
}

// All 8 words, where the allowance is enough.
pub fn build_all(memory: &mut [u8], cache: &[u8], from: Spot, to: usize, patch: Patch<'_>) -> usize
    requires { Fits memory.old cache.now (spot_of from) × (64 * to + 64 ≤ length memory.old) }
    ensures { Lays 8 (bytes_to (8 * to) 8 (replaced (block_in memory.old cache.now (spot_of from)) patch.entry.offset patch.entry.bytes.now)) memory.old memory.new result }
{
    if patch.bytes.len() == 64 {
        return lay_whole(memory, to, patch.bytes);
    }
    let all = all_words();
    match from {
        Spot::Memory(index) => {
            merge_within(memory, index, to, patch, all, Geometry::BLOCK_WORDS)
        }
        Spot::Cache(index) => {
            merge_across(cache, index, memory, to, patch, all, Geometry::BLOCK_WORDS)
        }
    }
}

// Two paths, since a number of words that the compiler knows costs no turns of a loop.
pub fn build_memory(
    memory: &mut [u8],
    cache: &[u8],
    from: Spot,
    to: usize,
    patch: Patch<'_>,
    p: usize,
) -> usize
    requires { Fits memory.old cache.now (spot_of from) × (64 * to + 64 ≤ length memory.old) }
    ensures { Lays p (bytes_to (8 * to) 8 (replaced (block_in memory.old cache.now (spot_of from)) patch.entry.offset patch.entry.bytes.now)) memory.old memory.new result }
{
    if p < Geometry::BLOCK_WORDS {
        return build_part(memory, cache, from, to, patch, p);
    }
    build_all(memory, cache, from, to, patch)
}

// The new block at a block of CACHE, in a function of its own as `merge_within` and `merge_across` are: no words of the list, so the supply cuts nothing.
pub fn build_cache(
    memory: &[u8],
    cache: &mut [u8],
    from: Spot,
    to: usize,
    patch: Patch<'_>,
) -> usize
    requires { Fits memory.now cache.old (spot_of from) × (64 * to + 64 ≤ length cache.old) }
    ensures { Lays 8 (bytes_to (8 * to) 8 (replaced (block_in memory.now cache.old (spot_of from)) patch.entry.offset patch.entry.bytes.now)) cache.old cache.new result }
{
    if patch.bytes.len() == 64 {
        return lay_whole(cache, to, patch.bytes);
    }
    let all = all_words();
    match from {
        Spot::Memory(index) => {
            merge_across(memory, index, cache, to, patch, all, Geometry::BLOCK_WORDS)
        }
        Spot::Cache(index) => { merge_within(cache, index, to, patch, all, Geometry::BLOCK_WORDS) }
    }
}

// The end of a store: the entry follows the words, and a store that the supply cuts leaves the table as it was.
pub fn ended(
    table: &mut [u64],
    controller: Controller,
    slot: usize,
    word: u64,
    words: usize,
    p: usize,
) -> Answer
    requires { slot < length table.old }
    ensures { Ended p words controller (set table.old slot word) table.old result table.new }
{
    if p < words {
        return reply(Number::Cut, p, switched_off(controller));
    }
    table[slot] = word;
    reply(Number::Done, words, controller)
}

// All 8 words of the new block, at a block of the memory. The slot and its word go on one by one: `ended` alone takes both, and takes them apart.
pub fn store_memory(
    memory: &mut [u8],
    cache: &[u8],
    table: &mut [u64],
    controller: Controller,
    from: Spot,
    to: usize,
    patch: Patch<'_>,
    slot: usize,
    word: u64,
    p: usize,
) -> Answer
    requires { Fits memory.old cache.now (spot_of from) × (64 * to + 64 ≤ length memory.old) × (slot < length table.old) }
    ensures { settle p (board_of memory.old cache.now table.old controller) (lay_at (board_of memory.old cache.now table.old controller) (set table.old slot word) (replaced (block_in memory.old cache.now (spot_of from)) patch.entry.offset patch.entry.bytes.now) T.all (in_memory to)) ≡ outcome_of result memory.new cache.now table.new }
{
    let words = build_memory(memory, cache, from, to, patch, p);
    ended(table, controller, slot, word, words, p)
}

// The words that the bytes touch, at the block of the memory where the old block shows.
pub fn store_short(
    memory: &mut [u8],
    table: &mut [u64],
    controller: Controller,
    to: usize,
    patch: Patch<'_>,
    slot: usize,
    word: u64,
    p: usize,
) -> Answer
    requires { (64 * to + 64 ≤ length memory.old) × (slot < length table.old) }
    ensures { (cache : List ℕ) → settle p (board_of memory.old cache table.old controller) (lay_at (board_of memory.old cache table.old controller) (set table.old slot word) (replaced (block_at memory.old to) patch.entry.offset patch.entry.bytes.now) (T.touched patch.entry.offset (length patch.entry.bytes.now)) (in_memory to)) ≡ outcome_of result memory.new cache table.new }
{
    let count = build_short(memory, to, patch, p);
    ended(table, controller, slot, word, count, p)
}

// All 64 bytes of the new block, at a block of CACHE.
pub fn store_cache(
    memory: &[u8],
    cache: &mut [u8],
    table: &mut [u64],
    controller: Controller,
    from: Spot,
    to: usize,
    patch: Patch<'_>,
    slot: usize,
    word: u64,
) -> Answer
    requires { Fits memory.now cache.old (spot_of from) × (64 * to + 64 ≤ length cache.old) × (slot < length table.old) }
    ensures { (p : ℕ) (window : W.Window) → settle p (board_of memory.now cache.old table.old controller) (lay_at (board_of memory.now cache.old table.old controller) (set table.old slot word) (replaced (block_in memory.now cache.old (spot_of from)) patch.entry.offset patch.entry.bytes.now) window (in_cache to)) ≡ outcome_of result memory.now cache.new table.new }
{
    build_cache(memory, cache, from, to, patch);
    ended(table, controller, slot, word, 0, 0)
}

// A store whose block goes to another place than where it shows, or may.
pub fn store_moved(
    memory: &mut [u8],
    cache: &mut [u8],
    table: &mut [u64],
    controller: Controller,
    from: Spot,
    to: Spot,
    patch: Patch<'_>,
    slot: usize,
    word: u64,
    p: usize,
) -> Answer
    requires { Fits memory.old cache.old (spot_of from) × Fits memory.old cache.old (spot_of to) × (slot < length table.old) }
    ensures { settle p (board_of memory.old cache.old table.old controller) (lay_at (board_of memory.old cache.old table.old controller) (set table.old slot word) (replaced (block_in memory.old cache.old (spot_of from)) patch.entry.offset patch.entry.bytes.now) T.all (spot_of to)) ≡ outcome_of result memory.new cache.new table.new }
{
    match to {
        Spot::Memory(index) => {
            store_memory(
                memory, cache, table, controller, from, index, patch, slot, word, p,
            )
        }
        Spot::Cache(index) => {
            store_cache(
                memory, cache, table, controller, from, index, patch, slot, word,
            )
        }
    }
}

pub fn store_at(
    memory: &mut [u8],
    cache: &mut [u8],
    table: &mut [u64],
    controller: Controller,
    block: usize,
    slot: usize,
    from: Spot,
    patch: Patch<'_>,
    next: Move,
    p: usize,
) -> Answer
    requires { Ready controller.geometry memory.old cache.old table.old × (block < controller.geometry.blocks) × (slot < controller.geometry.slots) × Fits memory.old cache.old (spot_of from) × (short_of next ≡ true → InMemory (spot_of from) × ((place : P.Place) (state : S.State) → move_of next ≡ T.to place state → spot_of from ≡ spot_in controller.geometry block slot place)) }
    ensures { settle p (board_of memory.old cache.old table.old controller) (moved (board_of memory.old cache.old table.old controller) block slot (replaced (block_in memory.old cache.old (spot_of from)) patch.entry.offset patch.entry.bytes.now) (window_for (short_of next) patch.entry.offset (length patch.entry.bytes.now)) (move_of next)) ≡ outcome_of result memory.new cache.new table.new }
{
    match next {
        Move::To(place, state) => {
            let word = word_of(block, state);
            let to = spot_in(controller.geometry, block, slot, place);
            store_moved(
                memory, cache, table, controller, from, to, patch, slot, word, p,
            )
        }
        Move::InPlace(_, state) => {
            // a block that stays where it shows is in the memory
            let Spot::Memory(at) = from else {
                return refused(Number::Table, controller);
            };
            let word = word_of(block, state);
            store_short(memory, table, controller, at, patch, slot, word, p)
        }
        Move::NotWellFormed => refused(Number::Table, controller),
    }
}
