// What the programs here do with their input: a stream read until a buffer is full, and numbers read from one; and the example that
// two of them have.
#![tactic(auto)]

ghost use Rattle.std.specs.Prelude.{◌≡◌, ◌≤◌, ◌<◌, ◌++◌, length, take, drop, Some, IfOk, OnOk, IfSome};
ghost use Rattle.std.specs.Int.{w32, to_be_bytes, from_be_bytes};
ghost use Rattle.std.specs.Io.KnownBytes.{Consumes, IsAtEnd};

use std::io;
use std::io::Read;
use types::Config;

// The configuration of document 01's example.
pub const EXAMPLE_CONFIG: Config = Config {
    servers: 2,
    clients: 1,
    addresses: 1,
    skew: 0,
    detection: 5,
    mclt: 4,
    retention: 10,
};

// Its steps, four numbers each: kind and fields.
pub const EXAMPLE: [[u32; 4]; 14] = [
    [1, 5, 0, 0],
    [4, 0, 1, 1],
    [4, 1, 0, 1],
    [1, 5, 0, 0],
    [4, 0, 1, 1],
    [4, 1, 0, 1],
    [1, 5, 0, 0],
    [5, 0, 0, 0],
    [8, 0, 0, 0],
    [8, 1, 0, 0],
    [6, 0, 100, 0],
    [8, 1, 0, 0],
    [8, 2, 0, 0],
    [5, 0, 0, 0],
];

// Reads until the buffer is full or the input ends. Answers how many bytes were read. What the reader had left is known of readers
// over memory; of a file or standard input no contract knows it.
pub fn read_full<R: Read>(from: &mut R, buf: &mut [u8]) -> io::Result<usize>
    ensures within { IfOk result (λ n. n ≤ length buf.new) }
    ensures bytes { IfOk result (λ n. Consumes (R.remaining from.old) (R.remaining from.new) (take n buf.new)) }
    ensures full { IfOk result (λ n. n < length buf.new → IsAtEnd (R.remaining from.new)) }
{
    let mut done = 0;
    // a read gives as many bytes as it likes, so the turns have no count
    while done < buf.len() {
        let n = from.read(&mut buf[done..])?;
        if n == 0 {
            break;
        }
        done += n;
    }
    Ok(done)
}

// Reads a number of four bytes, big-endian. The bytes that an input lacks, where it ends before, are those of `last`.
pub fn next_number<R: Read>(from: &mut R, last: u32) -> io::Result<u32>
    ensures number { IfOk result (λ n. IfSome (R.remaining from.old) (λ xs. n ≡ from_be_bytes w32 (take 4 xs ++ drop (length xs) (to_be_bytes w32 last)))) }
    ensures rest { OnOk result (IfSome (R.remaining from.old) (λ xs. R.remaining from.new ≡ Some (drop 4 xs))) }
{
    let mut read = [0u8; 4];
    let n = read_full(from, &mut read)?;
    let mut four = last.to_be_bytes();
    four[..n].copy_from_slice(&read[..n]);
    Ok(u32::from_be_bytes(four))
}
