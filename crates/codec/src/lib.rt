// The controller record as 90 bytes of house fields (document 02, No. 4).
#![tactic(auto)]

ghost use Rattle.std.specs.Prelude.{◌≡◌, [], ◌∷◌, ℕ, ◌+◌, ◌≤◌, ◌<◌, length, take, drop, get_or};
ghost use Rattle.rules.specs.Checkpoints.{count_of};
ghost use Rattle.lines.specs.Puts.{Puts};
ghost use Rattle.fields.specs.Fields.{field};
ghost use Rattle.codec.specs.Encoding as E;
ghost use Rattle.codec.specs.Supposed as S;
ghost use Rattle.codec.specs.Places as P;
ghost use Rattle.codec.specs.Promises.{Bytes};

use fields::{put_field, put_number_field};
use rules::{Backup, Controller, Geometry, Phase};

pub mod tables;

// The record's bytes are a slice and no array, since C lends a slice: its length stands in the contracts.
pub const RECORD_BYTES: usize = 90;

// Byte by byte: a comparison of slices may ask a C host for memcmp.
// Whether a field of this tag and of so many bytes, fewer than 256, begins at a place.
fn begins_at(bytes: &[u8], start: usize, tag: u8, size: u8) -> bool
    requires { start + 3 ≤ length bytes.now }
    ensures { result ≡ P.begins_at bytes.now start tag size }
{
    (bytes[start] == tag) & (bytes[start + 1] == 0) & (bytes[start + 2] == size)
}

// Whether the six fields stand where they must, whatever their values.
fn has_fields(bytes: &[u8]) -> bool
    requires { length bytes.now ≡ 90 }
    ensures { result ≡ P.has_fields bytes.now }
{
    begins_at(bytes, 0, 1, 2)
        & begins_at(bytes, 5, 2, 2)
        & begins_at(bytes, 10, 3, 64)
        & begins_at(bytes, 77, 4, 1)
        & begins_at(bytes, 81, 5, 1)
        & begins_at(bytes, 85, 6, 2)
}

// Whether the byte is a backup's, 1 or 2.
fn is_backup(byte: u8) -> bool
    ensures { result ≡ P.is_backup byte }
{
    (byte == 1) | (byte == 2)
}

// The phase as two fields say it: its byte, and its count of words.
#[derive(Clone, Copy, Debug, PartialEq, Eq)]
struct PhaseFields {
    byte: u8,
    count: u16,
}

impl PhaseFields {
    // Whether the byte is a phase's, 0, 1 or 2, with a count of 0 unless Writing.
    #[tactic(auto, unfolding(crate::specs::Places::is_phase))]
    fn is_phase(self) -> bool
        ensures { result ≡ P.is_phase self.byte self.count }
    {
        (self.byte == 1) | ((self.count == 0) & ((self.byte == 0) | (self.byte == 2)))
    }
}

impl From<Phase> for PhaseFields {
    ghost from_gives = { λ phase fields. (fields.byte ≡ E.phase_byte phase) × (fields.count ≡ count_of phase) };

    #[tactic(auto, unfolding(rules::specs::Checkpoints::count_of))]
    fn from(phase: Phase) -> PhaseFields {
        match phase {
            Phase::Running => PhaseFields { byte: 0, count: 0 },
            Phase::Writing(count) => PhaseFields { byte: 1, count },
            Phase::Off => PhaseFields { byte: 2, count: 0 },
        }
    }
}

// Of every byte, and no TryFrom: a recovery takes any 90 bytes for a record.
impl From<PhaseFields> for Phase {
    ghost from_gives = { λ fields phase. phase ≡ S.phase_for fields.byte fields.count };

    fn from(fields: PhaseFields) -> Phase {
        match fields.byte {
            0 => Phase::Running,
            1 => Phase::Writing(fields.count),
            _ => Phase::Off,
        }
    }
}

// A two-byte number. That bytes are below 256 is known where one is read.
fn number_in(bytes: &[u8], start: usize) -> u16
    requires { start + 2 ≤ length bytes.now }
    ensures { (result ≡ S.number_at bytes.now start) × Bytes bytes.now }
{
    256 * u16::from(bytes[start]) + u16::from(bytes[start + 1])
}

fn phase_fields_in(bytes: &[u8]) -> PhaseFields
    requires { length bytes.now ≡ 90 }
    ensures { (result.byte ≡ get_or bytes.now 84 0) × (result.count ≡ S.number_at bytes.now 88) × Bytes bytes.now }
{
    PhaseFields {
        byte: bytes[84],
        count: number_in(bytes, 88),
    }
}

pub fn is_record(bytes: &[u8]) -> bool
    ensures { result ≡ S.is_record bytes.now }
{
    if bytes.len() != RECORD_BYTES {
        return false;
    }
    has_fields(bytes) & is_backup(bytes[80]) & phase_fields_in(bytes).is_phase()
}

// Of every byte, as the phase is. Both types of a From would be another crate's, so this is a function.
fn backup_for(byte: u8) -> Backup
    ensures { result ≡ S.backup_for byte }
{
    if byte == 1 { Backup::A } else { Backup::B }
}

fn registers_in(bytes: &[u8]) -> [u8; 64]
    requires { length bytes.now ≡ 90 }
    ensures { result ≡ take 64 (drop 13 bytes.now) }
{
    let mut registers = [0u8; 64];
    registers.copy_from_slice(&bytes[13..77]);
    registers
}

pub fn record_in(bytes: &[u8]) -> Controller
    requires { length bytes.now ≡ 90 }
    ensures { result ≡ S.supposed bytes.now }
{
    Controller {
        geometry: Geometry {
            blocks: number_in(bytes, 3),
            slots: number_in(bytes, 8),
        },
        registers: registers_in(bytes),
        finished: backup_for(bytes[80]),
        phase: Phase::from(phase_fields_in(bytes)),
    }
}

fn put_byte_field(into: &mut [u8], start: usize, tag: u8, byte: u8) -> usize
    requires { start + 4 ≤ length into.old }
    ensures { Puts (field tag (byte ∷ [])) start into.old into.new result }
{
    put_field(into, start, tag, &[byte])
}

pub fn put_record(into: &mut [u8], controller: Controller)
    requires { length into.old ≡ 90 }
    ensures { into.new ≡ E.encoded controller }
{
    let phase = PhaseFields::from(controller.phase);
    put_number_field(into, 0, 1, controller.geometry.blocks);
    put_number_field(into, 5, 2, controller.geometry.slots);
    put_field(into, 10, 3, &controller.registers);
    put_byte_field(into, 77, 4, u64::from(controller.finished) as u8);
    put_byte_field(into, 81, 5, phase.byte);
    put_number_field(into, 85, 6, phase.count);
}
