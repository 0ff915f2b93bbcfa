// Bytes put at a place of a lent slice: as they are, a number in decimal, bytes in hex. Each function returns the place after them.
// By hand and not by `write!`: the contracts say which bytes (`Puts`), and there is no heap.
#![tactic(auto)]

ghost use Rattle.std.specs.Prelude.{◌≡◌, [], ◌∷◌, ◌+◌, ◌*◌, ◌≤◌, ◌<◌, length};
ghost use Rattle.lines.specs.Puts.{Puts};
ghost use Rattle.lines.specs.Lines.{decimal, hex_digit, hex_byte, hex_bytes};

pub fn put_byte(into: &mut [u8], start: usize, byte: u8) -> usize
    requires { start < length into.old }
    ensures { Puts (byte ∷ []) start into.old into.new result }
{
    into[start] = byte;
    start + 1
}

#[tactic(auto, using(crate::proofs::Places::puts_part))]
pub fn put_bytes(into: &mut [u8], start: usize, bytes: &[u8]) -> usize
    requires { start + length bytes.now ≤ length into.old }
    ensures { Puts bytes.now start into.old into.new result }
{
    let end = start + bytes.len();
    into[start..end].copy_from_slice(bytes);
    end
}

// How many digits a number has in decimal. The library has no logarithm to the base 10.
fn digit_count(value: u64) -> usize
    ensures { result ≡ length (decimal value) }
{
    let mut count = 1;
    let mut rest = value;
    while 10 <= rest {
        rest /= 10;
        count += 1;
    }
    count
}

fn digit(value: u64) -> u8
    requires { value < 10 }
    ensures { result ≡ 48 + value }
{
    b'0' + value as u8
}

// No 64-bit number has more than 20 digits.
pub fn put_decimal(into: &mut [u8], start: usize, value: u64) -> usize
    requires { start + 20 ≤ length into.old }
    ensures { Puts (decimal value) start into.old into.new result }
{
    let end = start + digit_count(value);
    // The lowest digit is known first, so they go in from the back.
    let mut rest = value;
    for place in (start..end).rev() {
        into[place] = digit(rest % 10);
        rest /= 10;
    }
    end
}

#[tactic(auto, unfolding(crate::specs::Lines::hex_digit))]
fn hex_digit(value: u8) -> u8
    requires { value < 16 }
    ensures { result ≡ hex_digit value }
{
    if value < 10 {
        b'0' + value
    } else {
        b'a' - 10 + value
    }
}

#[tactic(auto, using(crate::proofs::Places::puts_two), unfolding(crate::specs::Lines::hex_byte))]
pub fn put_hex_byte(into: &mut [u8], start: usize, byte: u8) -> usize
    requires { start + 2 ≤ length into.old }
    ensures { Puts (hex_byte byte) start into.old into.new result }
{
    into[start] = hex_digit(byte / 16);
    into[start + 1] = hex_digit(byte % 16);
    start + 2
}

pub fn put_hex(into: &mut [u8], start: usize, bytes: &[u8]) -> usize
    requires { start + 2 * length bytes.now ≤ length into.old }
    ensures { Puts (hex_bytes bytes.now) start into.old into.new result }
{
    let mut place = start;
    for byte in bytes {
        place = put_hex_byte(into, place, *byte);
    }
    place
}
