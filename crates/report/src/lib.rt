// Lines of output put on a page, as bytes.
// No `write!`: its contract does not say which bytes a slice gets, and a line took six times as long (100 for 16 ns).
#![tactic(auto)]

ghost use Rattle.std.specs.Prelude.{◌≡◌, ◌++◌, ◌+◌, ◌≤◌, length, flat_map};
ghost use Rattle.types.specs.Numbers.{refusal_of};
ghost use Rattle.rules.specs.Answers.{outcome_of};
ghost use Rattle.wire.specs.Numbers.{over};
ghost use Rattle.wire.specs.Pages.{put, HasRoom};
ghost use Rattle.report.specs.Lines.{decimal, spaced, line_end, record_line, facade_line, held_line};

use itoa::write_digits;
use types::{Config, Outcome, Refusal};
use wire::Page;

// The decimal digits of a number that has more than one. Answers the place behind them. It takes no page and is not inlined, so
// that the page of a run stays in registers: else a refused step and its line took 199 instructions for 159.
#[inline(never)]
fn put_long(out: &mut [u8], at: usize, n: u32) -> usize
    requires { (10 ≤ n) × (at + length (decimal n) ≤ length out.old) }
    ensures value { result ≡ at + length (decimal n) }
    ensures out_after { out.new ≡ over out.old at (decimal n) }
{
    let end = at + n.ilog10() as usize + 1;
    write_digits(u64::from(n), out, end);
    end
}

// The decimal digits of n. Many numbers have one digit, which needs no count: without that case a line took 24 ns for 18.
fn put_digits(page: &mut Page, n: u32)
    requires { HasRoom page.old (decimal n) }
    ensures { page.new ≡ put page.old (decimal n) }
{
    if n < 10 {
        page.put_byte(b'0' + n as u8);
        return;
    }
    page.end = put_long(page.out, page.end, n);
}

// A space and the decimal digits of n.
#[tactic(auto, using(wire::proofs::Pages::pieces))]
fn put_spaced(page: &mut Page, n: u32)
    requires { HasRoom page.old (spaced n) }
    ensures { page.new ≡ put page.old (spaced n) }
{
    page.put_byte(b' ');
    put_digits(page, n);
}

// The numbers of a line, each behind a space, and its end.
#[tactic(auto, using(wire::proofs::Pages::pieces, crate::proofs::Laws::number_fits, crate::proofs::Laws::number_more))]
fn put_numbers(page: &mut Page, numbers: &[u32])
    requires { HasRoom page.old (flat_map spaced numbers.now ++ line_end) }
    ensures { page.new ≡ put page.old (flat_map spaced numbers.now ++ line_end) }
{
    for n in numbers {
        put_spaced(page, *n);
    }
    page.put_byte(b'\n');
}

// The line of a record: its number, refusal, outcome, true time and waiting messages. Inlined, so that a number that is known, as
// 0, is one byte: else a record took 46 instructions more.
#[inline(always)]
#[tactic(auto, using(wire::proofs::Pages::pieces, crate::proofs::Laws::record_is))]
pub fn put_record_line(page: &mut Page, k: u32, refusal: u32, outcome: u32, time: u32, waiting: u32)
    requires { HasRoom page.old (record_line k refusal outcome time waiting) }
    ensures { page.new ≡ put page.old (record_line k refusal outcome time waiting) }
{
    put_digits(page, k);
    put_numbers(page, &[refusal, outcome, time, waiting]);
}

// That line, by the result of the record's step. In two arms, so that the 0 of each is known: with `refusal_of` and `map_or` it is
// not.
pub fn put_result_line(
    page: &mut Page,
    k: u32,
    x: Result<Outcome, Refusal>,
    time: u32,
    waiting: u32,
)
    requires { HasRoom page.old (record_line k (refusal_of x) (outcome_of x) time waiting) }
    ensures { page.new ≡ put page.old (record_line k (refusal_of x) (outcome_of x) time waiting) }
{
    match x {
        Ok(n) => put_record_line(page, k, 0, u32::from(n), time, waiting),
        Err(n) => put_record_line(page, k, u32::from(n), 0, time, waiting),
    }
}

// The first line.
#[tactic(auto, using(wire::proofs::Pages::pieces, crate::proofs::Laws::facade_is))]
pub fn put_facade_line(page: &mut Page, c: Config)
    requires { HasRoom page.old (facade_line c) }
    ensures { page.new ≡ put page.old (facade_line c) }
{
    page.put_word(b"facade");
    put_numbers(page, &[c.servers, c.clients, c.addresses]);
}

// The last line.
#[tactic(auto, using(wire::proofs::Pages::pieces, crate::proofs::Laws::held_is))]
pub fn put_held_line(page: &mut Page, n: u32)
    requires { HasRoom page.old (held_line n) }
    ensures { page.new ≡ put page.old (held_line n) }
{
    page.put_word(b"held");
    put_numbers(page, &[n]);
}
