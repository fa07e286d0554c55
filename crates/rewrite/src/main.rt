// Reads a script and writes it again. Prints the verdict on the script; the writer's refusal and how many bytes it wrote; and
// those bytes. The writer is handed the seven numbers of the header, all 0 where there is no script, and the steps of the records
// up to the first that is refused with 3.
#![tactic(auto)]

ghost use Rattle.std.specs.Prelude.{◌≤◌, length};

use arith::refusal_of;
use input::read_full;
use script::FIRST_RECORD;
use std::io;
use std::io::Write;
use types::Config;

// The steps of a script in rows of four numbers, up to the first record that is refused with 3, as every place from the script's
// end on is, or as many as there is room for.
fn read_rows<'a>(s: &[u8], rows: &'a mut [[u32; 4]]) -> &'a [[u32; 4]]
    ensures { length result.now ≤ length rows.old }
{
    let mut p = FIRST_RECORD;
    for (n, row) in rows.iter_mut().enumerate() {
        let Ok(r) = script::record_at(s, p) else {
            return &rows[..n];
        };
        *row = r.step.into();
        p = r.next;
    }
    rows
}

// Writes the script of c and the rows into the buffer, and prints what the writer answers and what it wrote.
#[tactic(auto, using(script::proofs::Round::written_fits, std::proofs::lemmas::Grind::common_steps))]
fn print_again(
    to: &mut impl Write,
    c: Config,
    rows: &[[u32; 4]],
    out: &mut [u8],
) -> io::Result<()> {
    let x = writer::write(c, rows.as_flattened(), out);
    let length = x.unwrap_or(0);
    writeln!(to, "{} {length}", refusal_of(&x))?;
    to.write_all(&out[..length])
}

fn main(rt: HostRuntime) -> io::Result<()> {
    // one byte more than the longest script, so that a longer one is seen to be longer
    let mut script = [0u8; 65537];
    let n = read_full(&mut rt.stdin(), &mut script)?;
    let s = &script[..n];
    let mut stdout = rt.stdout();
    writeln!(stdout, "{}", refusal_of(&script::verdict(s)))?;
    let c = script::config_in(s).unwrap_or_default();
    let mut rows = [[0u32; 4]; 32768];
    let mut out = [0u8; 65536];
    print_again(&mut stdout, c, read_rows(s, &mut rows), &mut out)
}
