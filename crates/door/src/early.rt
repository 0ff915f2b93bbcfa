// What a door decides before it reads the table: 12 RECORD BYTES, 1 GEOMETRY and 2 BUFFER, in this order (document 02, No. 4).
ghost use Rattle.std.specs.Prelude.{◌≡◌, cond, not};
ghost use Rattle.codec.specs.Supposed as S;
ghost use Rattle.door.specs.Doors as D;
ghost use Rattle.door.specs.Early.{number_of_early, Finds};

use checks::numbers::outside;
use codec::{is_record, record_in};
use rules::{Controller, Geometry};

// Why a call is refused before the table is read.
#[derive(Clone, Copy, Debug, PartialEq, Eq)]
pub enum Early {
    RecordBytes,
    Geometry,
    Buffer,
}

impl From<Early> for u64 {
    ghost from_gives = { λ early number. number ≡ number_of_early early };

    fn from(early: Early) -> u64 {
        match early {
            Early::RecordBytes => 12,
            Early::Geometry => 1,
            Early::Buffer => 2,
        }
    }
}

// 2 BUFFER, by the lent lengths. Not the board's own test: here the table's length is in bytes.
fn inexact(memory: usize, cache: usize, table: usize, g: Geometry) -> bool
    ensures { result ≡ D.inexact g memory cache table }
{
    let words = g.memory_words();
    let slots = g.slots as usize;
    !((memory == 8 * words) & (cache == 64 * slots) & (table == 8 * slots))
}

// The sizes, where they are within their bounds and the lent lengths are exact.
fn fitting(memory: usize, cache: usize, table: usize, g: Geometry) -> Result<Geometry, Early>
    ensures { Finds (D.sizes_number g memory cache table) g result }
{
    if outside(g) {
        return Err(Early::Geometry);
    }
    if inexact(memory, cache, table, g) {
        return Err(Early::Buffer);
    }
    Ok(g)
}

// The record, for the calls that are held to its sizes.
pub fn kept_record(
    memory: usize,
    cache: usize,
    table: usize,
    record_bytes: &[u8],
) -> Result<Controller, Early>
    ensures { Finds (cond (not (S.is_record record_bytes.now)) 12 (D.sizes_number (S.supposed record_bytes.now).geometry memory cache table)) (S.supposed record_bytes.now) result }
{
    if !is_record(record_bytes) {
        return Err(Early::RecordBytes);
    }
    let controller = record_in(record_bytes);
    fitting(memory, cache, table, controller.geometry)?;
    Ok(controller)
}

// The sizes, for the calls that are given them, where the record's bytes are of a form that the call takes. No size is cut to two bytes.
pub fn given_sizes(
    formed: bool,
    memory: usize,
    cache: usize,
    table: usize,
    blocks: u64,
    slots: u64,
) -> Result<Geometry, Early>
    ensures { Finds (cond (not formed) 12 (D.sizes_number (D.sized blocks slots) memory cache table)) (D.sized blocks slots) result }
{
    if !formed {
        return Err(Early::RecordBytes);
    }
    let Ok(blocks) = u16::try_from(blocks) else {
        return Err(Early::Geometry);
    };
    let Ok(slots) = u16::try_from(slots) else {
        return Err(Early::Geometry);
    };
    fitting(memory, cache, table, Geometry { blocks, slots })
}
