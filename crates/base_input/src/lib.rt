// The input of a program, read into a buffer.
#![tactic(auto)]

ghost use Rattle.std.specs.Prelude.{◌≤◌, ◌≡◌, length};

use std::io::{Read, Stdin};

// Reads until the buffer is full or the input ends, and gives how many bytes were read; a read that fails ends the input.
pub fn read_full(mut stdin: Stdin, buffer: &mut [u8]) -> usize
    ensures upper_bound { result ≤ length buffer.new }
    ensures same_length { length buffer.new ≡ length buffer.old }
{
    let mut done = 0;
    while done < buffer.len() {
        let count = stdin.read(&mut buffer[done..]).unwrap_or(0);
        if count == 0 {
            return done;
        }
        done += count;
    }
    done
}
