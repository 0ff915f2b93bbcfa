// The table as little-endian words (document 02, No. 4).
ghost use Rattle.std.specs.Prelude.{◌≡◌, ◌*◌, length};
ghost use Rattle.words.specs.Words.{numbers, number_bytes};
ghost use Rattle.codec.specs.Promises.{Bytes};

use words::{lay_number, number_at};

// A word for each eight bytes.
pub fn read_table(bytes: &[u8], table: &mut [u64])
    requires { length bytes.now ≡ 8 * length table.old }
    ensures { (table.new ≡ numbers bytes.now 0 (length table.old)) × (number_bytes table.new ≡ bytes.now) }
{
    for slot in 0..table.len() {
        table[slot] = number_at(bytes, slot);
    }
}

pub fn write_table(table: &[u64], bytes: &mut [u8])
    requires { length bytes.old ≡ 8 * length table.now }
    ensures { bytes.new ≡ number_bytes table.now }
{
    for slot in 0..table.len() {
        lay_number(bytes, slot, table[slot], 1);
    }
}
