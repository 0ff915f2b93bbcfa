// The words of the new block that a store lays: all 8, or those that its bytes touch (document 02, No. 5).
ghost use Rattle.std.specs.Prelude.{◌≡◌, ◌+◌, ◌≤◌};
ghost use Rattle.rules.specs.Stores as S;

use rules::{Geometry, Window};

pub fn all_words() -> Window
    ensures { result ≡ S.all }
{
    Window {
        first: 0,
        count: Geometry::BLOCK_WORDS,
    }
}

// From the word of the first byte to that of the last.
pub fn touched(offset: usize, len: usize) -> Window
    requires { offset + len ≤ 64 }
    ensures { result ≡ S.touched offset len }
{
    let first = offset / 8;
    let end = (offset + len + 7) / 8;
    Window {
        first,
        count: end - first,
    }
}
