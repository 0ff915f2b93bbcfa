// Whole reads on the standard input: a read that fails ends there, as one at the input's end.
#![tactic(auto)]

ghost use Rattle.std.specs.Prelude.{◌≤◌, length};

use std::io::{Read, Stdin};

// Reads until the bytes are full, the input ends or a read fails, and returns how many bytes it put at their start.
pub fn read_full(input: Stdin, bytes: &mut [u8]) -> usize
    ensures { result ≤ length bytes.new }
{
    let mut input = input;
    let mut done = 0;
    // The library's `read_exact` doesn't tell how many bytes came before the end.
    while done < bytes.len() {
        let came = match input.read(&mut bytes[done..]) {
            Ok(count) => count,
            Err(_) => 0,
        };
        if came == 0 {
            return done;
        }
        done += came;
    }
    done
}
