// Scripts at the edges of the layout. First the verdict on each stored script that an argument names (`tests/stored_scripts.py`
// makes them); then the example of document 01, written from its steps and read back; then what the writer answers at its own
// edges, and the buffer after it.
#![tactic(auto)]

use arith::refusal_of;
use input::{EXAMPLE, EXAMPLE_CONFIG, read_full};
use script::FIRST_RECORD;
use std::fs::File;
use std::io::Write;
use std::{env, io};
use types::{Config, Refusal};

// A pass of no time, then a step of no known kind: the first is refused.
const TWO_WRONG: [u32; 8] = [1, 0, 0, 0, 99, 0, 0, 0];

// The name of a script and its verdict.
fn judge(to: &mut impl Write, name: &str, mut file: File) -> io::Result<()> {
    let mut bytes = [0u8; 65537];
    let k = read_full(&mut file, &mut bytes)?;
    writeln!(to, "{name} {}", refusal_of(&script::verdict(&bytes[..k])))
}

// Bytes in hexadecimal, on one line.
fn print_bytes(to: &mut impl Write, b: &[u8]) -> io::Result<()> {
    for x in b {
        write!(to, "{x:02x}")?;
    }
    writeln!(to)
}

// The steps of a script, a line for each: kind and fields.
#[tactic(auto, using(script::proofs::Walk::leaves_less))]
fn print_steps(to: &mut impl Write, s: &[u8]) -> io::Result<()> {
    let mut p = FIRST_RECORD;
    // where the next record begins is known when this one is read, so this is no `for`
    while let Ok(r) = script::record_at(s, p) {
        let [kind, first, second, third] = <[u32; 4]>::from(r.step);
        writeln!(to, "step {kind} {first} {second} {third}")?;
        p = r.next;
    }
    Ok(())
}

// What the writer answers: a refusal's number and length 0, or 0 and how long the script is.
fn print_written(to: &mut impl Write, w: Result<usize, Refusal>) -> io::Result<()> {
    writeln!(to, "written {} {}", refusal_of(&w), w.unwrap_or(0))
}

// Writes into the buffer and prints the answer and the bytes after it.
fn try_writer(to: &mut impl Write, c: Config, rows: &[u32], out: &mut [u8]) -> io::Result<()> {
    print_written(to, writer::write(c, rows, out))?;
    print_bytes(to, out)
}

// The example of document 01.
fn show_example(to: &mut impl Write) -> io::Result<()> {
    let mut out = [0u8; 189];
    try_writer(to, EXAMPLE_CONFIG, EXAMPLE.as_flattened(), &mut out)?;
    writeln!(to, " {}", refusal_of(&script::verdict(&out)))?;
    print_steps(to, &out)
}

// A buffer longer than the script, as long, and one byte short, with no step and with the example.
fn show_room(to: &mut impl Write) -> io::Result<()> {
    let none = [0u32; 0];
    let mut long = [170u8; 39];
    try_writer(to, EXAMPLE_CONFIG, &none, &mut long)?;
    let mut fitting = [170u8; 29];
    try_writer(to, EXAMPLE_CONFIG, &none, &mut fitting)?;
    let mut short = [170u8; 28];
    try_writer(to, EXAMPLE_CONFIG, &none, &mut short)?;
    let mut shorter = [170u8; 188];
    try_writer(to, EXAMPLE_CONFIG, EXAMPLE.as_flattened(), &mut shorter)?;
    Ok(())
}

// What is refused first, and a negative e.
fn show_order(to: &mut impl Write) -> io::Result<()> {
    let mut out = [170u8; 43];
    try_writer(to, EXAMPLE_CONFIG, &TWO_WRONG, &mut out)?;
    let unknown = [11, 0, 0, 0];
    try_writer(to, EXAMPLE_CONFIG, &unknown, &mut out)?;
    let bad = Config {
        servers: 5,
        ..EXAMPLE_CONFIG
    };
    try_writer(to, bad, &TWO_WRONG, &mut out)?;
    let e = wire::complement(-3);
    let back = [1, 5, 0, e];
    try_writer(to, EXAMPLE_CONFIG, &back, &mut out)?;
    Ok(())
}

// The most records that fit into 65,536 bytes, and one more.
fn show_longest(to: &mut impl Write) -> io::Result<()> {
    let rows = [2u32; 43672];
    let mut out = [0u8; 70000];
    print_written(to, writer::write(EXAMPLE_CONFIG, &rows[..43668], &mut out))?;
    print_written(to, writer::write(EXAMPLE_CONFIG, &rows, &mut out))?;
    Ok(())
}

fn main(rt: HostRuntime) -> io::Result<()> {
    let mut stdout = rt.stdout();
    for name in env::args(&rt)?.skip(1) {
        let file = File::open(&rt, name.as_str())?;
        judge(&mut stdout, name.as_str(), file)?;
    }
    show_example(&mut stdout)?;
    show_room(&mut stdout)?;
    show_order(&mut stdout)?;
    show_longest(&mut stdout)
}
