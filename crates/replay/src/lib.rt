// The run of a whole script: the lines that the rig prints, all at once or piece by piece.
#![tactic(auto)]

ghost use Rattle.std.specs.Prelude.{◌≡◌, false, length, ◌≤◌};
ghost use Rattle.wire.specs.Pages.{put, HasRoom, blank};
ghost use Rattle.script.specs.Reading.{header_in};
ghost use Rattle.turns.specs.Turns.{lines_from, progress_from, UnderWay};
ghost use Rattle.replay.specs.Output.{first_line, beginning, output, output_length, output_into, piece_turns, most_piece};

use facade::fresh;
use report::{put_facade_line, put_result_line};
use script::{FIRST_RECORD, config_in, header_in};
use turns::{Progress, put_turns};
use types::Config;
use wire::Page;

// How many turns a piece has.
const PIECE_TURNS: u32 = 2048;

// Room for any output.
const MOST_OUTPUT: usize = 1048576;

// The configuration in the header of a script, zeros where it has none.
#[tactic(auto, unfolding(script::specs::Reading::header_in))]
fn config_of(s: &[u8]) -> Config
    ensures { result ≡ (header_in s.now).config }
{
    config_in(s).unwrap_or_default()
}

// The first line of a script, or the only one where its header is refused.
#[tactic(auto, using(crate::proofs::Whole::refused_first, crate::proofs::Whole::accepted_first))]
fn put_first_line(s: &[u8], page: &mut Page)
    requires { HasRoom page.old (first_line s.now) }
    ensures { page.new ≡ put page.old (first_line s.now) }
{
    match header_in(s) {
        Ok(c) => put_facade_line(page, c),
        Err(x) => put_result_line(page, 0, Err(x.refusal), 0, 0),
    }
}

// The run of a script, whose first line is put. The run has ended where the header is refused.
pub fn begin(s: &[u8], page: &mut Page) -> Progress
    requires { HasRoom page.old (first_line s.now) }
    ensures run { result ≡ beginning s.now }
    ensures page_after { page.new ≡ put page.old (first_line s.now) }
{
    put_first_line(s, page);
    Progress {
        facade: fresh(config_of(s)),
        place: FIRST_RECORD,
        number: 1,
        ended: header_in(s).is_err(),
    }
}

// The next piece of a run under way: the lines of 2,048 turns, in place of what was put before.
pub fn go_on(s: &[u8], r: &mut Progress, page: &mut Page)
    requires { UnderWay s.now r.old × (r.old.ended ≡ false) × (most_piece ≤ length page.old.out.now) }
    ensures run { (r.new ≡ progress_from piece_turns r.old.facade s.now r.old.place r.old.number) × UnderWay s.now r.new }
    ensures page_after { page.new ≡ put (blank page.old) (lines_from piece_turns r.old.facade s.now r.old.place r.old.number) }
{
    page.end = 0;
    put_turns(s, r, page, PIECE_TURNS);
}

// All the output of a script is put.
#[tactic(auto, using(crate::proofs::Whole::whole))]
fn put_all(s: &[u8], page: &mut Page)
    requires { HasRoom page.old (output s.now) }
    ensures { page.new ≡ put page.old (output s.now) }
{
    let mut r = begin(s, page);
    if !r.ended {
        put_turns(s, &mut r, page, s.len() as u32 + 1);
    }
}

// Runs a script and answers how long its output is, which is put at the front of the buffer. A buffer of less than
// 1,048,576 bytes is left as it is.
#[tactic(auto, unfolding(crate::specs::Output::output_length, crate::specs::Output::output_into))]
pub fn put_output(s: &[u8], out: &mut [u8]) -> usize
    ensures value { result ≡ output_length s.now (length out.old) }
    ensures out_after { out.new ≡ output_into s.now out.old }
{
    if out.len() < MOST_OUTPUT {
        return 0;
    }
    let mut page = Page { out, end: 0 };
    put_all(s, &mut page);
    page.end
}
