// A wire's record as the bytes of a block: laid, and recognized as the encoding that it is (document 02, No. 1).
#![tactic(auto)]

ghost use Rattle.std.specs.Prelude.{◌≡◌, ◌↔◌, ◌+◌, ◌≤◌, length, Some, IsTrue};
ghost use Rattle.fields.specs.Fields.{field, fields_of};
ghost use Rattle.lines.specs.Puts.{Puts};
ghost use Rattle.records.specs.Classes.{class_name};
ghost use Rattle.records.specs.Records as R;
ghost use Rattle.records.specs.Reading.{Reads};
ghost use Rattle.records.specs.Supposed as S;

use classes::class_of;
use fields::{put_field, put_number_field, short_of};
use std::fmt;

pub mod classes;

// What a wire's record tells. The types admit no latch or test but 0 and 1.
#[derive(Clone, Copy, Debug, PartialEq, Eq)]
pub struct Wire {
    // in hundredths of a milliampere
    pub current: u16,
    pub latch: bool,
    pub test: bool,
}

// A record's fields, as they stand in a block.
#[derive(Clone, Copy, Debug, PartialEq, Eq)]
pub struct Record {
    pub current: u16,
    pub latch: bool,
    // tag 3, which may be missing
    pub test: Option<bool>,
}

#[derive(Clone, Copy, Debug, PartialEq, Eq)]
pub enum Class {
    Break,
    Weak,
    Healthy,
    Short,
    Test,
}

impl fmt::Display for Class {
    ghost output = { λ class. Some (class_name class) };

    fn fmt<W: fmt::Write>(&self, f: &mut fmt::Formatter<W>) -> fmt::Result {
        f.write_str(match self {
            Class::Break => "break",
            Class::Weak => "weak",
            Class::Healthy => "healthy",
            Class::Short => "short",
            Class::Test => "test",
        })
    }
}

// What a record says, and the class of its wire.
#[derive(Clone, Copy, Debug, PartialEq, Eq)]
pub struct Found {
    pub wire: Wire,
    pub class: Class,
}

#[tactic(auto, unfolding(crate::specs::Records::flag))]
// A field put at its place, and no conversion.
fn put_flag(into: &mut [u8], start: usize, tag: u8, flag: bool) -> usize
    requires { start + 4 ≤ length into.old }
    ensures { Puts (field tag (R.flag flag)) start into.old into.new result }
{
    put_field(into, start, tag, &[u8::from(flag)])
}

#[tactic(auto, using(lines::proofs::Places::puts_then), unfolding(crate::specs::Records::fields_in, crate::specs::Records::perhaps, crate::specs::Records::flag, fields::specs::Fields::fields_of, fields::specs::Fields::field, fields::specs::Fields::big_endian))]
fn put_fields(into: &mut [u8], says: Record) -> usize
    requires { 13 ≤ length into.old }
    ensures { Puts (fields_of (R.fields_in says)) 0 into.old into.new result }
{
    let latch_place = put_number_field(into, 0, 1, says.current);
    let test_place = put_flag(into, latch_place, 2, says.latch);
    match says.test {
        None => test_place,
        Some(test) => put_flag(into, test_place, 3, test),
    }
}

// The fields, and zeros to the end of the block.
fn encoded(says: Record) -> [u8; 64]
    ensures { result ≡ R.encoded says }
{
    let mut block = [0u8; 64];
    put_fields(&mut block, says);
    block
}

// All three fields.
impl From<Wire> for Record {
    ghost from_gives = { λ wire says. says ≡ R.laid wire };

    fn from(wire: Wire) -> Record {
        Record {
            current: wire.current,
            latch: wire.latch,
            test: Some(wire.test),
        }
    }
}

// What the writer lays.
#[tactic(auto, unfolding(crate::specs::Records::written))]
pub fn written(wire: Wire) -> [u8; 64]
    ensures { result ≡ R.written wire }
{
    encoded(Record::from(wire))
}

#[tactic(auto, unfolding(crate::specs::Supposed::test_at))]
fn test_at(block: &[u8; 64]) -> Option<bool>
    ensures { result ≡ S.test_at block.now }
{
    (block[9] == 3).then_some(block[12] == 1)
}

// The only record whose encoding the block can be.
#[tactic(auto, unfolding(crate::specs::Supposed::supposed))]
fn supposed(block: &[u8; 64]) -> Record
    ensures { result ≡ S.supposed block.now }
{
    Record {
        current: short_of(block[3], block[4]),
        latch: block[8] == 1,
        test: test_at(block),
    }
}

// A missing tag 3 means 0.
impl From<Record> for Wire {
    ghost from_gives = { λ says wire. wire ≡ R.wire_in says };

    fn from(says: Record) -> Wire {
        Wire {
            current: says.current,
            latch: says.latch,
            test: says.test.unwrap_or(false),
        }
    }
}

fn is_encoding(block: &[u8; 64], says: Record) -> bool
    ensures { IsTrue result ↔ (block.now ≡ R.encoded says) }
{
    *block == encoded(says)
}

pub fn read_block(block: &[u8; 64]) -> Option<Found>
    ensures { Reads block.now result }
{
    let says = supposed(block);
    if !is_encoding(block, says) {
        return None;
    }
    let wire = Wire::from(says);
    Some(Found {
        wire,
        class: class_of(wire),
    })
}
