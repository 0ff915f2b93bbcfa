// The lowest slot whose word is of a block, four slots a turn, since a turn's own steps are most of so short a loop (document 01, What the board is).
ghost use Rattle.std.specs.Prelude.{◌≡◌, ◌+◌, ◌≤◌, not, length, if◌then◌else◌, ◌==◌, position};
ghost use Rattle.checks.specs.Tables.{Among, LowestOf, NextOf, of_block, wanted};

// Whether the word has the block's number. The free word has that of block 0.
#[tactic(auto, unfolding(crate::specs::Tables::of_block))]
pub fn of_block(word: u64, block: u32) -> bool
    ensures { result ≡ of_block block word }
{
    (word / 256 % 4294967296) as u32 == block
}

// Where the first word of the block stands in a part of a table.
pub fn first_of(part: &[u64], block: u32) -> Option<usize>
    ensures { result ≡ position (of_block block) part.now }
{
    part.iter().position(|&word| of_block(word, block))
}

// Where the first word of the block stands among the four words from a slot on, if it stands there.
pub fn in_four(table: &[u64], block: u32, slot: usize) -> Option<usize>
    requires { slot + 4 ≤ length table.now }
    ensures { Among (of_block block) table.now slot 4 result }
{
    first_of(&table[slot..slot + 4], block)
}

// The lowest slot from a start on whose word is of the block, one slot a turn.
pub fn next_slowly(table: &[u64], block: u32, start: usize) -> Option<usize>
    requires { start ≤ length table.now }
    ensures { NextOf (of_block block) table.now start result }
{
    let offset = first_of(&table[start..], block)?;
    Some(start + offset)
}

// The same, four slots a turn as far as fours go.
pub fn next_of(table: &[u64], block: u32, start: usize) -> Option<usize>
    requires { start ≤ length table.now }
    ensures { NextOf (of_block block) table.now start result }
{
    let fours = (table.len() - start) / 4;
    for done in 0..fours {
        let slot = start + 4 * done;
        if let Some(offset) = in_four(table, block, slot) {
            return Some(slot + offset);
        }
    }
    next_slowly(table, block, start + 4 * fours)
}

// Whether the word is free, or isn't, as wanted.
pub fn vacancy(word: u64, free: bool) -> bool
    ensures { result ≡ (if free then (word == 0) else not (word == 0)) }
{
    (word == 0) == free
}

// The lowest slot with a word of the block that is free, or that isn't, as wanted.
pub fn slot_of(table: &[u64], block: u32, free: bool) -> Option<usize>
    ensures { LowestOf (wanted block free) table.now result }
{
    let mut start = 0;
    while let Some(slot) = next_of(table, block, start) {
        if vacancy(table[slot], free) {
            return Some(slot);
        }
        start = slot + 1;
    }
    None
}
