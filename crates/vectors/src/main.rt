// Runs stored scripts, one after the other, and prints what the rig prints for each. Standard input has how many there are, then
// for each its length, at most 65,537, and its bytes; numbers are four bytes, big-endian.
#![tactic(auto)]

ghost use Rattle.std.specs.Prelude.{◌≤◌, length, IfOk};

use input::{next_number, read_full};
use std::io;
use std::io::{Read, Write};

// The next script, read into the buffer as far as there is room.
fn read_script<'a>(from: &mut impl Read, buf: &'a mut [u8]) -> io::Result<&'a [u8]>
    ensures { IfOk result (λ s. length s.now ≤ length buf.old) }
{
    let room = buf.len();
    let n = (next_number(from, 0)? as usize).min(room);
    let read = read_full(from, &mut buf[..n])?;
    Ok(&buf[..read])
}

// The next script is run and its output printed.
#[tactic(auto, using(replay::proofs::Whole::lies_within, std::proofs::lemmas::Grind::common_steps))]
fn run_next(
    from: &mut impl Read,
    to: &mut impl Write,
    buf: &mut [u8],
    out: &mut [u8],
) -> io::Result<()> {
    let k = replay::put_output(read_script(from, buf)?, out);
    to.write_all(&out[..k])
}

fn main(rt: HostRuntime) -> io::Result<()> {
    let mut stdin = rt.stdin();
    let mut stdout = rt.stdout();
    // one byte more than the longest script, so that a longer one is seen to be longer
    let mut script = [0u8; 65537];
    let mut out = [0u8; 1048576];
    for _ in 0..next_number(&mut stdin, 0)? {
        run_next(&mut stdin, &mut stdout, &mut script, &mut out)?;
    }
    Ok(())
}
