// A script written into a lent buffer.
#![tactic(auto)]

ghost use Rattle.std.specs.Prelude.{◌≡◌, ◌≤◌, ◌∷◌, [], length, take, flat_map};
ghost use Rattle.wire.specs.Numbers.{bytes_of};
ghost use Rattle.wire.specs.Pages.{put, HasRoom};
ghost use Rattle.script.specs.Layout.{step_refusal, header_of, record_of, records_of, script_of};
ghost use Rattle.script.specs.Writing.{steps_in, steps_refusal, written, written_as, script_into};

use rows::{records_length, write_refusal};
use script::{FIRST_RECORD, fields_of};
use types::{Config, Refusal, Step};
use wire::Page;

// Numbers in four bytes each. `report` has such a loop over what it puts: one function over a closure would promise in more words.
#[tactic(auto, using(wire::proofs::Pages::put_none, wire::proofs::Pages::next_fits, crate::proofs::Laws::number_put))]
fn put_numbers(page: &mut Page, numbers: &[u32])
    requires { HasRoom page.old (flat_map bytes_of numbers.now) }
    ensures { page.new ≡ put page.old (flat_map bytes_of numbers.now) }
{
    for x in numbers {
        page.put_number(*x);
    }
}

// The version byte and the seven numbers.
#[tactic(auto, using(wire::proofs::Pages::pieces, crate::proofs::Laws::header_is))]
fn put_header(page: &mut Page, c: Config)
    requires { HasRoom page.old (header_of c) }
    ensures { page.new ≡ put page.old (header_of c) }
{
    page.put_byte(1);
    put_numbers(page, &<[u32; 7]>::from(c));
}

// The first n fields of a step. Case by case: a slice of n of them took half as much time again.
#[tactic(auto, using(wire::proofs::Pages::put_none))]
fn put_fields(page: &mut Page, n: u32, s: Step)
    requires { (n ≤ 3) × HasRoom page.old (flat_map bytes_of (take n (s.first ∷ s.second ∷ s.third ∷ []))) }
    ensures { page.new ≡ put page.old (flat_map bytes_of (take n (s.first ∷ s.second ∷ s.third ∷ []))) }
{
    match n {
        0 => (),
        1 => put_numbers(page, &[s.first]),
        2 => put_numbers(page, &[s.first, s.second]),
        _ => put_numbers(page, &[s.first, s.second, s.third]),
    }
}

// The record of a step that is not refused: length byte, kind byte and the fields of its kind.
#[tactic(auto, using(crate::proofs::Laws::record_pieces))]
fn put_record(page: &mut Page, s: Step)
    requires { (step_refusal s ≡ 0) × HasRoom page.old (record_of s) }
    ensures { page.new ≡ put page.old (record_of s) }
{
    let n = fields_of(s.kind);
    page.put_word(&[(1 + 4 * n) as u8, s.kind as u8]);
    put_fields(page, n, s);
}

// The records of the steps.
#[tactic(auto, using(script::proofs::Rows::row_is, rows::proofs::Laws::kept_at, crate::proofs::Laws::none_put, crate::proofs::Laws::row_fits, crate::proofs::Laws::row_put))]
fn put_records(page: &mut Page, l: &[u32])
    requires { (steps_refusal (steps_in l.now) ≡ 0) × HasRoom page.old (records_of (steps_in l.now)) }
    ensures { page.new ≡ put page.old (records_of (steps_in l.now)) }
{
    for row in l.as_chunks::<4>().0 {
        put_record(page, Step::from(*row));
    }
}

// The script of c and the steps in l.
#[tactic(auto, using(wire::proofs::Pages::pieces))]
fn put_script(page: &mut Page, c: Config, l: &[u32])
    requires { (steps_refusal (steps_in l.now) ≡ 0) × HasRoom page.old (script_of c (steps_in l.now)) }
    ensures { page.new ≡ put page.old (script_of c (steps_in l.now)) }
{
    put_header(page, c);
    put_records(page, l);
}

// Writes the script of c and the steps in l, and says how long it is; or a refusal, which leaves the buffer unchanged.
#[tactic(auto, using(script::proofs::Round::script_length, rows::proofs::Laws::records_high), unfolding(script::specs::Writing::written, script::specs::Writing::script_into))]
pub fn write(c: Config, l: &[u32], out: &mut [u8]) -> Result<usize, Refusal>
    ensures value { written_as result ≡ written c (steps_in l.now) (length out.old) }
    ensures out_after { out.new ≡ script_into c (steps_in l.now) out.old }
{
    let size = FIRST_RECORD + records_length(l);
    write_refusal(c, l, size, out.len())?;
    let mut page = Page { out, end: 0 };
    put_script(&mut page, c, l);
    Ok(size)
}
