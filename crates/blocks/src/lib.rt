// The visible block: as a part of the lent memory or CACHE, and copied from it (document 01, Where a block shows).
// What is lent comes one by one, by & or &mut as the call needs it: one value of all of it would ask callers for more.
#![tactic(auto)]

ghost use Rattle.std.specs.Prelude.{◌≡◌, ◌+◌, ◌*◌, ◌≤◌, ◌<◌, length, take, drop};
ghost use Rattle.words.specs.Words.{block_at};
ghost use Rattle.rules.specs.Geometry.{memory_words, home_block, checkpoint_block};
ghost use Rattle.rules.specs.Loads.{shows, spot_in, block_in};
ghost use Rattle.blocks.specs.Shown.{PartOf, Shown};

use rules::{Entry, Geometry, Place, State};

pub fn place_of(state: State) -> Place
    ensures { result ≡ shows state }
{
    match state {
        State::Hidden => Place::Home,
        State::Clean | State::Dirty => Place::Checkpoint,
        State::PreHidden | State::PreDirty => Place::Cache,
    }
}

// The memory's length stands in each contract: a type of the slice and the sizes would be one for & and one for &mut.

// A block of a part, counted from the part's start.
pub fn block_of(part: &[u8], index: usize) -> &[u8]
    requires { 64 * index + 64 ≤ length part.now }
    ensures { PartOf result part.entry (64 * index) 64 }
{
    let start = 64 * index;
    &part[start..start + 64]
}

pub fn part_home(memory: &[u8], g: Geometry, block: usize) -> &[u8]
    requires { (block < g.blocks) × (length memory.now ≡ 8 * memory_words g) }
    ensures { PartOf result memory.entry (64 * home_block g block) 64 }
{
    block_of(&memory[8 * g.home_start()..], block)
}

pub fn part_checkpoint(memory: &[u8], g: Geometry, slot: usize) -> &[u8]
    requires { (slot < g.slots) × (length memory.now ≡ 8 * memory_words g) }
    ensures { PartOf result memory.entry (64 * checkpoint_block g slot) 64 }
{
    block_of(&memory[8 * g.checkpoint_start()..], slot)
}

// The visible block of an entry.
pub fn part_entry<'a>(
    memory: &'a [u8],
    cache: &'a [u8],
    g: Geometry,
    block: usize,
    entry: Entry,
) -> &'a [u8]
    requires { (block < g.blocks) × (entry.slot < g.slots) × (length memory.now ≡ 8 * memory_words g) × (length cache.now ≡ 64 * g.slots) }
    ensures { Shown result memory.entry cache.entry (spot_in g block entry.slot (shows entry.state)) }
{
    match place_of(entry.state) {
        Place::Home => part_home(memory, g, block),
        Place::Checkpoint => part_checkpoint(memory, g, entry.slot),
        Place::Cache => block_of(cache, entry.slot),
    }
}

pub fn copy_home(memory: &[u8], g: Geometry, block: usize, offset: usize, into: &mut [u8])
    requires { (block < g.blocks) × (length memory.now ≡ 8 * memory_words g) × (offset + length into.old ≤ 64) }
    ensures { into.new ≡ take (length into.old) (drop offset (block_at memory.now (home_block g block))) }
{
    words::copy_part(part_home(memory, g, block), offset, into);
}

// The memory and CACHE are lent for two lifetimes here, so the part of one or the other isn't asked of `part_entry`.
pub fn copy_entry(
    memory: &[u8],
    cache: &[u8],
    g: Geometry,
    block: usize,
    entry: Entry,
    offset: usize,
    into: &mut [u8],
)
    requires { (block < g.blocks) × (entry.slot < g.slots) × (length memory.now ≡ 8 * memory_words g) × (length cache.now ≡ 64 * g.slots) × (offset + length into.old ≤ 64) }
    ensures { into.new ≡ take (length into.old) (drop offset (block_in memory.now cache.now (spot_in g block entry.slot (shows entry.state)))) }
{
    match place_of(entry.state) {
        Place::Home => copy_home(memory, g, block, offset, into),
        Place::Checkpoint => words::copy_part(part_checkpoint(memory, g, entry.slot), offset, into),
        Place::Cache => words::copy_part(block_of(cache, entry.slot), offset, into),
    }
}
