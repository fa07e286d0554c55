// Runs the script on standard input and prints what its records do, piece by piece.
#![tactic(auto)]

ghost use Rattle.std.specs.Prelude.{OnOk, IfSome};
ghost use Rattle.std.specs.Io.KnownBytes.{Appends};
ghost use Rattle.replay.specs.Output.{output};

use input::read_full;
use std::io;
use std::io::{Read, Write};
use wire::Page;

// Writes the output of a script, and nothing else.
fn print_run<W: Write>(to: &mut W, s: &[u8]) -> io::Result<()>
    ensures { OnOk result (Appends (W.contents to.old) (W.contents to.new) (output s.now)) }
{
    let mut out = [0u8; 65536];
    let mut page = Page {
        out: &mut out,
        end: 0,
    };
    let mut r = replay::begin(s, &mut page);
    // what follows a piece that could not be written would not stand behind it
    to.write_all(page.bytes())?;
    // the run itself says when it has ended, so the pieces have no count
    while !r.ended {
        replay::go_on(s, &mut r, &mut page);
        to.write_all(page.bytes())?;
    }
    Ok(())
}

// Writes the output of the script that a reader has. What that is and what a writer holds is known of those over memory.
fn print_output<R: Read, W: Write>(from: &mut R, to: &mut W) -> io::Result<()>
    ensures { OnOk result (IfSome (R.remaining from.old) (λ s. Appends (W.contents to.old) (W.contents to.new) (output s))) }
{
    // one byte more than the longest script, so that a longer one is seen to be longer
    let mut script = [0u8; 65537];
    let n = read_full(from, &mut script)?;
    print_run(to, &script[..n])
}

fn main(rt: HostRuntime) -> io::Result<()> {
    print_output(&mut rt.stdin(), &mut rt.stdout())
}
