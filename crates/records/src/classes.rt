// The class of a wire by the first rule sheet (document 02, No. 1).
ghost use Rattle.std.specs.Prelude.{◌≡◌};
ghost use Rattle.records.specs.Classes.{first_sheet, class_in, class_of};

use crate::{Class, Wire};

#[tactic(auto, unfolding(crate::specs::Classes::class_in))]
pub fn class_of_current(current: u16) -> Class
    ensures { result ≡ class_in first_sheet current }
{
    match current {
        0..=199 => Class::Break,
        200..=399 => Class::Weak,
        400..=2000 => Class::Healthy,
        _ => Class::Short,
    }
}

#[tactic(auto, unfolding(crate::specs::Classes::class_of))]
pub fn class_of(wire: Wire) -> Class
    ensures { result ≡ class_of first_sheet wire }
{
    if wire.latch {
        return Class::Break;
    }
    if wire.test {
        return Class::Test;
    }
    class_of_current(wire.current)
}
