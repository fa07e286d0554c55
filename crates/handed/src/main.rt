// Takes a step of each stored list that is handed in as a facade. Prints for each its number, the refusal, the outcome, and
// the place and the new value of each number that changed. Standard input has how many lists there are, then for each how many
// of its numbers are not 0, the place and the value of each of them, its length, at most 2,800, and the four numbers of the step;
// numbers are four bytes, big-endian. The bytes that an input which ends early lacks are those of the number before.
#![tactic(auto)]

ghost use Rattle.std.specs.Prelude.{◌≤◌, length, IfOk};

use input::next_number;
use std::io;
use std::io::{Read, Write};

// The next number of the list that is not 0: its place and its value.
fn read_one(from: &mut impl Read, list: &mut [u32]) -> io::Result<()> {
    let place = next_number(from, 0)?;
    let value = next_number(from, place)?;
    if let Some(number) = list.get_mut(place as usize) {
        *number = value;
    }
    Ok(())
}

// The next list, read into zeros.
fn read_list<'a>(from: &mut impl Read, zeros: &'a mut [u32]) -> io::Result<&'a mut [u32]>
    ensures { IfOk result (λ l. length l.now ≤ length zeros.old) }
{
    let count = next_number(from, 0)?;
    for _ in 0..count {
        read_one(from, zeros)?;
    }
    let n = (next_number(from, count)? as usize).min(zeros.len());
    Ok(&mut zeros[..n])
}

// The next step is taken of a list, and what it answers is printed.
fn take_step(from: &mut impl Read, to: &mut impl Write, list: &mut [u32]) -> io::Result<()> {
    let kind = next_number(from, 0)?;
    let first = next_number(from, kind)?;
    let second = next_number(from, first)?;
    let third = next_number(from, second)?;
    let mut outcome = 0;
    let refusal = export::hoyllaqe_step(list, kind, first, second, third, &mut outcome);
    write!(to, " {refusal} {outcome}")
}

// The place and the new value of each number that is another one than before.
fn print_changes(to: &mut impl Write, before: &[u32], list: &[u32]) -> io::Result<()> {
    for (place, (old, new)) in before.iter().zip(list).enumerate() {
        if old != new {
            write!(to, " {place} {new}")?;
        }
    }
    writeln!(to)
}

// The next list is read into one of zeros, and its step taken; `before` keeps it as it was. Its number is k.
fn run_next(from: &mut impl Read, to: &mut impl Write, k: u32) -> io::Result<()> {
    let mut numbers = [0u32; 2800];
    let list = read_list(from, &mut numbers)?;
    let mut before = [0u32; 2800];
    before[..list.len()].copy_from_slice(list);
    write!(to, "{k}")?;
    take_step(from, to, list)?;
    print_changes(to, &before, list)
}

fn main(rt: HostRuntime) -> io::Result<()> {
    let mut stdin = rt.stdin();
    let mut stdout = rt.stdout();
    for k in 1..=next_number(&mut stdin, 0)? {
        run_next(&mut stdin, &mut stdout, k)?;
    }
    Ok(())
}
