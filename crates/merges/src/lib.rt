// The new block of a store, built at its destination word by word (document 01, Stores; document 02, No. 3 and No. 5).
#![tactic(auto)]

ghost use Rattle.std.specs.Prelude.{◌≡◌, List, ℕ, ◌+◌, ◌*◌, ◌-◌, ◌≤◌, ◌<◌, length, take, drop};
ghost use Rattle.words.specs.Words.{word, put, block_at, bytes_to, Lays};
ghost use Rattle.rules.specs.Stores.{replaced, window_to};
ghost use Rattle.merges.specs.Ranges.{Next, Opens};

use rules::{Geometry, Window};
use words::{copy_part, put_bytes};

// The bytes of a store, and where they begin in the block.
#[derive(Clone, Copy)]
pub struct Patch<'a> {
    pub offset: usize,
    pub bytes: &'a [u8],
    ghost inside: { offset + length bytes.now ≤ 64 },
}

// Eight bytes are all that is held of a block on the way.
pub fn eight_at(part: &[u8], start: usize) -> [u8; 8]
    requires { start + 8 ≤ length part.now }
    ensures { result ≡ take 8 (drop start part.now) }
{
    let mut kept = [0; 8];
    copy_part(part, start, &mut kept);
    kept
}

pub fn put_word(part: &mut [u8], place: usize, kept: [u8; 8])
    requires { 8 * place + 8 ≤ length part.old }
    ensures { part.new ≡ put part.old place kept }
{
    put_bytes(part, 8 * place, &kept, 8);
}

// Bytes laid over those of a word; the rest of the word stays.
pub fn lay_over(kept: &mut [u8], offset: usize, bytes: &[u8])
    requires { offset + length bytes.now ≤ length kept.old }
    ensures { kept.new ≡ replaced kept.old offset bytes.now }
{
    let end = offset + bytes.len();
    copy_part(bytes, 0, &mut kept[offset..end]);
}

// The visible word with the bytes of a range, which may be of any length, from `next` up to `stop`, both counted in the block; the word starts at `at`.
pub fn merged_word(
    visible: [u8; 8],
    at: usize,
    next: usize,
    stop: usize,
    offset: usize,
    bytes: &[u8],
) -> [u8; 8]
    requires { (at ≤ next) × (offset ≤ next) × (next ≤ stop) × (stop ≤ at + 8) × (stop ≤ offset + length bytes.now) }
    ensures { result ≡ replaced visible (next - at) (take (stop - offset - (next - offset)) (drop (next - offset) bytes.now)) }
{
    let mut merged = visible;
    let from = next - offset;
    let to = stop - offset;
    lay_over(&mut merged, next - at, &bytes[from..to]);
    merged
}

// Word `k` of the new block stored; `next` is where the range goes on. One test settles a word that the range does not reach.
pub fn lay_word(
    part: &mut [u8],
    place: usize,
    visible: [u8; 8],
    k: usize,
    next: usize,
    patch: Patch<'_>,
) -> usize
    requires { (8 * place + 8 ≤ length part.old) × (k < 8) × Next patch.offset (patch.offset + length patch.bytes.now) (8 * k) next }
    ensures { Next patch.entry.offset (patch.entry.offset + length patch.entry.bytes.now) (8 * k + 8) result × ((block : List ℕ) → length block ≡ 64 → visible ≡ word block k → part.new ≡ put part.old place (word (replaced block patch.entry.offset patch.entry.bytes.now) k)) }
{
    let at = 8 * k;
    if at + 8 <= next {
        put_word(part, place, visible);
        return next;
    }
    let end = patch.offset + patch.bytes.len();
    if end <= at + 8 {
        let last = merged_word(visible, at, next, end, patch.offset, patch.bytes);
        put_word(part, place, last);
        return 64;
    }
    if next == at {
        let covered = eight_at(patch.bytes, at - patch.offset);
        put_word(part, place, covered);
        return at + 8;
    }
    let first = merged_word(visible, at, next, at + 8, patch.offset, patch.bytes);
    put_word(part, place, first);
    at + 8
}

// Words of the new block where it shows in the lent slice that it goes to, perhaps at the same place: a word is read before it is stored, and no other word was.
pub fn merge_within(
    part: &mut [u8],
    from: usize,
    to: usize,
    patch: Patch<'_>,
    window: Window,
    p: usize,
) -> usize
    requires { (64 * from + 64 ≤ length part.old) × (64 * to + 64 ≤ length part.old) × Opens patch.offset window }
    ensures { Lays p (window_to to window (replaced (block_at part.old from) patch.entry.offset patch.entry.bytes.now)) part.old part.new result }
{
    let end = window.first + p.min(window.count);
    let mut next = patch.offset;
    for k in window.first..end {
        let visible = eight_at(part, 64 * from + 8 * k);
        next = lay_word(part, 8 * to + k, visible, k, next, patch);
    }
    window.count
}

// The same where it shows in the other lent slice. One function of both would take the read as a closure, and promise of each read what the loop has stored by then.
pub fn merge_across(
    source: &[u8],
    from: usize,
    part: &mut [u8],
    to: usize,
    patch: Patch<'_>,
    window: Window,
    p: usize,
) -> usize
    requires { (64 * from + 64 ≤ length source.now) × (64 * to + 64 ≤ length part.old) × Opens patch.offset window }
    ensures { Lays p (window_to to window (replaced (block_at source.now from) patch.entry.offset patch.entry.bytes.now)) part.old part.new result }
{
    let end = window.first + p.min(window.count);
    let mut next = patch.offset;
    for k in window.first..end {
        let visible = eight_at(source, 64 * from + 8 * k);
        next = lay_word(part, 8 * to + k, visible, k, next, patch);
    }
    window.count
}

// A range of 64 bytes is the new block: nothing is read of the visible one. Word by word, with 8 bytes on the way (document 02, No. 3).
pub fn lay_whole(part: &mut [u8], to: usize, bytes: &[u8]) -> usize
    requires { (64 * to + 64 ≤ length part.old) × (length bytes.now ≡ 64) }
    ensures { Lays 8 (bytes_to (8 * to) 8 bytes.now) part.old part.new result }
{
    for k in 0..Geometry::BLOCK_WORDS {
        let kept = eight_at(bytes, 8 * k);
        put_word(part, 8 * to + k, kept);
    }
    Geometry::BLOCK_WORDS
}

// A block of the slice stored at another place of it as it is (document 02, No. 7), with 8 bytes on the way (No. 3), and cut by the allowance.
pub fn copy_within(part: &mut [u8], from: usize, to: usize, p: usize) -> usize
    requires { (64 * from + 64 ≤ length part.old) × (64 * to + 64 ≤ length part.old) }
    ensures { Lays p (bytes_to (8 * to) 8 (block_at part.old from)) part.old part.new result }
{
    for k in 0..p.min(Geometry::BLOCK_WORDS) {
        let kept = eight_at(part, 64 * from + 8 * k);
        put_word(part, 8 * to + k, kept);
    }
    Geometry::BLOCK_WORDS
}
