// House fields read from a slice and put in one: one-byte tag, two-byte length, value; numbers big-endian.
#![tactic(auto)]

ghost use Rattle.std.specs.Prelude.{◌≡◌, [], ◌∷◌, ◌+◌, ◌≤◌, ◌<◌, length, take, drop};
ghost use Rattle.lines.specs.Puts.{Puts};
ghost use Rattle.fields.specs.Fields.{big_endian, big_number, field};

use lines::{put_byte, put_bytes};

#[tactic(auto, unfolding(crate::specs::Fields::big_number))]
pub fn short_of(high: u8, low: u8) -> u16
    ensures { result ≡ big_number (high ∷ low ∷ []) }
{
    u16::from_be_bytes([high, low])
}

pub fn length_of(high: u8, low: u8) -> usize
    ensures { result ≡ big_number (high ∷ low ∷ []) }
{
    usize::from(short_of(high, low))
}

// The two-byte number at a place of a field's value.
pub fn number2(value: &[u8], start: usize) -> usize
    requires { start + 2 ≤ length value.now }
    ensures { result ≡ big_number (take 2 (drop start value.now)) }
{
    length_of(value[start], value[start + 1])
}

// Each function that puts bytes returns the place after them.
#[tactic(auto, unfolding(crate::specs::Fields::big_endian))]
pub fn put_number2(into: &mut [u8], start: usize, number: usize) -> usize
    requires { start + 2 ≤ length into.old }
    ensures { Puts (big_endian 2 number) start into.old into.new result }
{
    let [.., high, low] = number.to_be_bytes();
    put_bytes(into, start, &[high, low])
}

#[tactic(auto, using(lines::proofs::Places::puts_then), unfolding(crate::specs::Fields::field, crate::specs::Fields::big_endian))]
pub fn put_field(into: &mut [u8], start: usize, tag: u8, value: &[u8]) -> usize
    requires { (length value.now < 65536) × (start + 3 + length value.now ≤ length into.old) }
    ensures { Puts (field tag value.now) start into.old into.new result }
{
    let size_place = put_byte(into, start, tag);
    let value_place = put_number2(into, size_place, value.len());
    put_bytes(into, value_place, value)
}

// A field whose value is a two-byte number.
#[tactic(auto, unfolding(crate::specs::Fields::big_endian))]
pub fn put_number_field(into: &mut [u8], start: usize, tag: u8, number: u16) -> usize
    requires { start + 5 ≤ length into.old }
    ensures { Puts (field tag (big_endian 2 number)) start into.old into.new result }
{
    put_field(into, start, tag, &number.to_be_bytes())
}
