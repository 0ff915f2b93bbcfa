// Words laid in a part of a memory under an allowance, bytes and numbers read from it, and bytes compared.
#![tactic(auto)]

ghost use Rattle.std.specs.Prelude.{◌≡◌, true, ◌↔◌, [], ◌∷◌, ℕ, ◌+◌, ◌*◌, ◌-◌, ◌≤◌, ◌<◌, min, length, take, drop};
ghost use Rattle.std.proofs.Math.Seq.{paste};
ghost use Rattle.words.specs.Words.{Lays, bytes_to, fill_to, numbers_to, number, word, little_endian};

// So many bytes put from a start on. A count stands beside a slice where a caller puts the first bytes of a longer one: `paste` says which.
pub fn put_bytes(part: &mut [u8], start: usize, bytes: &[u8], count: usize)
    requires { (start + count ≤ length part.old) × (count ≤ length bytes.now) }
    ensures { part.new ≡ paste part.old start bytes.now count }
{
    part[start..start + count].copy_from_slice(&bytes[..count]);
}

// The count is the list's, `bytes_to place count`, whose words may be the first of longer bytes.
// Every function that lays a list returns how many words the whole list has, so that `p < words` says that the supply stopped.
pub fn lay_bytes(part: &mut [u8], place: usize, bytes: &[u8], count: usize, p: usize) -> usize
    requires { (8 * (place + count) ≤ length part.old) × (8 * count ≤ length bytes.now) }
    ensures { Lays p (bytes_to place count bytes.now) part.old part.new result }
{
    put_bytes(part, 8 * place, bytes, 8 * p.min(count));
    count
}

// A part's bytes as one array: a copy of a slice is compiled with a test that the slices don't lie over one another.
fn put_array<const N: usize>(part: &mut [u8], bytes: [u8; N])
    requires { length part.old ≡ N }
    ensures { part.new ≡ bytes.entry }
{
    if let Some(room) = part.as_mut_array::<N>() {
        *room = bytes;
    }
}

// A block where the allowance is enough: it is read whole before it is stored.
pub fn lay_block(part: &mut [u8], place: usize, block: &[u8]) -> usize
    requires { (8 * (place + 8) ≤ length part.old) × (length block.now ≡ 64) }
    ensures { (p : ℕ) → 8 ≤ p → Lays p (bytes_to place 8 block.now) part.old part.new result }
{
    let start = 8 * place;
    let kept = *block.first_chunk::<64>().unwrap();
    put_array(&mut part[start..start + 64], kept);
    8
}

pub fn fill_words(part: &mut [u8], place: usize, count: usize, fill: u8, p: usize) -> usize
    requires { 8 * (place + count) ≤ length part.old }
    ensures { Lays p (fill_to place count fill) part.old part.new result }
{
    let start = 8 * place;
    part[start..start + 8 * p.min(count)].fill(fill);
    count
}

// A number as a word, the lowest byte first: the library's, under the contract that callers cite.
#[tactic(auto, using(crate::proofs::Bytes::word_written))]
pub fn word_bytes(value: u64) -> [u8; 8]
    ensures { result ≡ little_endian 8 value }
{
    value.to_le_bytes()
}

pub fn lay_number(part: &mut [u8], place: usize, value: u64, p: usize) -> usize
    requires { 8 * place + 8 ≤ length part.old }
    ensures { Lays p (numbers_to place (value ∷ [])) part.old part.new result }
{
    let start = 8 * place;
    if 0 < p {
        put_array(&mut part[start..start + 8], word_bytes(value));
    }
    1
}

#[tactic(auto, using(crate::proofs::Bytes::word_read), unfolding(crate::specs::Words::word))]
pub fn number_at(part: &[u8], place: usize) -> u64
    requires { 8 * place + 8 ≤ length part.now }
    ensures { result ≡ number (word part.now place) }
{
    let start = 8 * place;
    let bytes = *part[start..start + 8].first_chunk::<8>().unwrap();
    u64::from_le_bytes(bytes)
}

// Fills `into` from a part, from its byte `start` on.
pub fn copy_part(part: &[u8], start: usize, into: &mut [u8])
    requires { start + length into.old ≤ length part.now }
    ensures { into.new ≡ take (length into.old) (drop start part.now) }
{
    let end = start + into.len();
    into.copy_from_slice(&part[start..end]);
}

// Whether so many bytes are the same; the slices may be longer.
pub fn same_bytes(found: &[u8], wanted: &[u8], count: usize) -> bool
    requires { (count ≤ length found.now) × (count ≤ length wanted.now) }
    ensures { (result ≡ true) ↔ (take count found.now ≡ take count wanted.now) }
{
    found[..count] == wanted[..count]
}
