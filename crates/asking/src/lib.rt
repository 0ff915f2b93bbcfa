// What a field asks for, by its tag and its value (document 01, The bench trace).
#![tactic(auto)]

ghost use Rattle.std.specs.Prelude.{◌≡◌, drop};
ghost use Rattle.asking.specs.Asking.{asked};

use fields::short_of;
use rules::Geometry;

#[derive(Clone, Copy, Debug, PartialEq, Eq)]
pub enum Asked {
    // the sizes and the fill byte
    Format(Geometry, u8),
    // block and offset; the bytes stay in the field's value
    Store(u16, u8),
    // block, offset and length
    Load(u16, u8, u8),
    Begin(u8),
    Step(u16),
    Allow(u16),
    Recover,
    // an unknown tag or a wrong length: a field too, with a line of its own
    Bad,
}

// The bytes of a store, which stand after its block and offset.
pub fn store_bytes(value: &[u8]) -> &[u8]
    ensures { result.now ≡ drop 3 value.now }
{
    match value {
        [_, _, _, bytes @ ..] => bytes,
        _ => &[],
    }
}

#[tactic(auto, unfolding(crate::specs::Asking::asked, crate::specs::Asking::asked_format, crate::specs::Asking::asked_store, crate::specs::Asking::asked_load, crate::specs::Asking::asked_begin, crate::specs::Asking::asked_step, crate::specs::Asking::asked_allow, crate::specs::Asking::asked_recover), using(crate::proofs::Sizes::too_few, crate::proofs::Sizes::too_many, crate::proofs::Sizes::right_size, crate::proofs::Sizes::too_short, crate::proofs::Sizes::too_long, crate::proofs::Sizes::within_sizes, crate::proofs::Sizes::named))]
pub fn parse(tag: u8, value: &[u8]) -> Asked
    ensures { result ≡ asked tag value.now }
{
    match (tag, value) {
        (1, &[blocks_high, blocks_low, slots_high, slots_low, fill]) => {
            let g = Geometry {
                blocks: short_of(blocks_high, blocks_low),
                slots: short_of(slots_high, slots_low),
            };
            Asked::Format(g, fill)
        }
        (2, &[high, low, offset, _, ..]) if value.len() <= 67 => {
            Asked::Store(short_of(high, low), offset)
        }
        (3, &[high, low, offset, len]) => Asked::Load(short_of(high, low), offset, len),
        (4, &[byte]) => Asked::Begin(byte),
        (5, &[high, low]) => Asked::Step(short_of(high, low)),
        (6, &[high, low]) => Asked::Allow(short_of(high, low)),
        (7, []) => Asked::Recover,
        _ => Asked::Bad,
    }
}
