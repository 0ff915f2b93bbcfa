// The two words after the mark: their bytes, what a memory's say, and the stores of them in their order (document 02, No. 6).
ghost use Rattle.std.specs.Prelude.{◌≡◌, ℕ, ◌*◌, length};
ghost use Rattle.words.specs.Words.{Lays};
ghost use Rattle.forms.specs.Stored.{header_bytes, long_words, header_of, first_zeroed, header_to, zeros_to};
ghost use Rattle.forms.specs.Calls.{long_format_list, up_list};

use forms::Header;
use rules::Geometry;
use starts::formats::{format_words, lay_format};
use words::{fill_words, lay_bytes};

// The memory's length stands in each contract: a type of the slice and the sizes would be one for & and one for &mut.

// N's high byte ends the first word, its low byte starts the second.
pub fn header_bytes(g: Geometry) -> [u8; 16]
    ensures { result ≡ header_bytes g }
{
    let [blocks_high, blocks_low] = g.blocks.to_be_bytes();
    let [slots_high, slots_low] = g.slots.to_be_bytes();
    [
        1,
        0,
        1,
        2,
        2,
        0,
        2,
        blocks_high,
        blocks_low,
        3,
        0,
        2,
        slots_high,
        slots_low,
        0,
        0,
    ]
}

pub fn header_in(memory: &[u8], g: Geometry) -> Header
    requires { length memory.now ≡ 8 * long_words g }
    ensures { result ≡ header_of g memory.now }
{
    let stored = &memory[8 * g.memory_words()..];
    let zeros = [0u8; 8];
    if stored[..8] == zeros[..] {
        return Header::Missing;
    }
    let wanted = header_bytes(g);
    if stored[..16] == wanted[..] {
        return Header::Fits;
    }
    Header::Other
}

pub fn zero_first(memory: &mut [u8], g: Geometry, p: usize) -> usize
    requires { length memory.old ≡ 8 * long_words g }
    ensures { Lays p (first_zeroed g) memory.old memory.new result }
{
    let first_place = g.memory_words();
    fill_words(memory, first_place, 1, 0, p)
}

// The second word, then the first: until that is stored the form is the old one.
pub fn lay_header(memory: &mut [u8], g: Geometry, p: usize) -> usize
    requires { length memory.old ≡ 8 * long_words g }
    ensures { Lays p (header_to g) memory.old memory.new result }
{
    let first_place = g.memory_words();
    let second_place = first_place + 1;
    let header = header_bytes(g);
    let second = lay_bytes(memory, second_place, &header[8..], 1, p);
    let left = p.saturating_sub(second);
    let first = lay_bytes(memory, first_place, &header, 1, left);
    second + first
}

// The first word, then the second: once that is zero the form is the old one.
pub fn lay_zeros(memory: &mut [u8], g: Geometry, p: usize) -> usize
    requires { length memory.old ≡ 8 * long_words g }
    ensures { Lays p (zeros_to g) memory.old memory.new result }
{
    let first_place = g.memory_words();
    let second_place = first_place + 1;
    let first = fill_words(memory, first_place, 1, 0, p);
    let left = p.saturating_sub(first);
    let second = fill_words(memory, second_place, 1, 0, left);
    first + second
}

// A header that fits is not stored again.
pub fn lay_up(memory: &mut [u8], g: Geometry, header: Header, p: usize) -> usize
    requires { length memory.old ≡ 8 * long_words g }
    ensures { Lays p (up_list g header) memory.old memory.new result }
{
    match header {
        Header::Missing => lay_header(memory, g, p),
        Header::Fits => 0,
        Header::Other => 0,
    }
}

// The old form's words and three of the header: 8N + B + 13.
pub fn long_format_words(g: Geometry) -> usize
    ensures { (fill : ℕ) → result ≡ length (long_format_list g fill) }
{
    format_words(g) + 3
}

pub fn lay_long_format(memory: &mut [u8], g: Geometry, fill: u8, p: usize) -> usize
    requires { length memory.old ≡ 8 * long_words g }
    ensures { Lays p (long_format_list g fill) memory.old memory.new result }
{
    let zeroed = zero_first(memory, g, p);
    let left1 = p.saturating_sub(zeroed);
    let formatted = lay_format(memory, g, fill, left1);
    let left2 = left1.saturating_sub(formatted);
    let headed = lay_header(memory, g, left2);
    zeroed + (formatted + headed)
}
