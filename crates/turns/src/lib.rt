// The turns of a run: each record's step, and its line, put on a page.
#![tactic(auto)]

ghost use Rattle.std.specs.Prelude.{◌≡◌};
ghost use Rattle.wire.specs.Pages.{put, HasRoom};
ghost use Rattle.turns.specs.Turns.{last_lines, lines_from, progress_from, UnderWay};

use facade::{held_clients, take_step};
use report::{put_held_line, put_result_line};
use script::record_at;
use types::{Facade, Refusal};
use wire::Page;

// A run under way. The script stands beside it: a run is a value, which borrows nothing.
#[derive(Clone, Copy)]
pub struct Progress {
    pub facade: Facade,
    // the place of the next record in the script, and its number
    pub place: usize,
    pub number: u32,
    // whether the last line is put; the facade is then the last one. No enum, since the other three are read in both states
    pub ended: bool,
}

// The lines that end the run r are put: that of the next record, unless the script is over, and the last one.
#[tactic(auto, using(wire::proofs::Pages::pieces))]
fn put_last_lines(s: &[u8], r: &Progress, page: &mut Page)
    requires { HasRoom page.old (last_lines r.now.facade s.now r.now.place r.now.number) }
    ensures { page.new ≡ put page.old (last_lines r.now.facade s.now r.now.place r.now.number) }
{
    let f = &r.facade;
    if r.place < s.len() {
        put_result_line(page, r.number, Err(Refusal::NoRecord), f.time, f.waiting);
    }
    put_held_line(page, held_clients(f));
}

// The lines of so many turns of the run r are put.
pub fn put_turns(s: &[u8], r: &mut Progress, page: &mut Page, most: u32)
    requires { UnderWay s.now r.old × HasRoom page.old (lines_from most r.old.facade s.now r.old.place r.old.number) }
    ensures progress_after { (r.new ≡ progress_from most r.old.facade s.now r.old.place r.old.number) × UnderWay s.now r.new }
    ensures page_after { page.new ≡ put page.old (lines_from most r.old.facade s.now r.old.place r.old.number) }
{
    r.ended = false;
    for i in 0..most {
        match record_at(s, r.place) {
            Err(_) => {
                r.ended = true;
                put_last_lines(s, r, page);
                return;
            }
            Ok(d) => {
                let x = take_step(&mut r.facade, d.step);
                put_result_line(page, r.number, x, r.facade.time, r.facade.waiting);
                r.place = d.next;
                r.number += 1;
            }
        }
    }
}
