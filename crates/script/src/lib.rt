// A script read: its header, its records one by one, and the verdict on the whole.
#![tactic(auto)]

ghost use Rattle.std.specs.Prelude.{◌≡◌, ◌+◌, ◌*◌, ◌≤◌, cond, length, get_or};
ghost use Rattle.types.specs.Numbers.{refusal_of};
ghost use Rattle.script.specs.Layout.{fields_of, length_of, step_refusal, first_record};
ghost use Rattle.script.specs.Reading.{config_read, is_script, header_in, header_as, field_in, step_in, is_framed, decode as decode', decoded_as, record_at, result_of, found_as, records_refusal, verdict as verdict'};

use arith::check;
use ranges::config_in_range;
use std::array;
use steps::{action_of, malformed};
use types::{Config, Refusal, Refused, Step};
use wire::number_at;

// The place of the first record, behind the version byte and the seven numbers.
pub const FIRST_RECORD: usize = 29;

// The length of the longest script.
pub const LONGEST: usize = 65536;

// A record of a script, and the place behind it. No iterator walks the records: a run goes on at a place, piece by piece, and the
// definitions read a script by place.
#[derive(Clone, Copy)]
pub struct Record {
    pub step: Step,
    pub next: usize,
}

// The seven numbers.
#[tactic(auto, unfolding(crate::specs::Reading::config_read))]
fn config_read(s: &[u8]) -> Config
    requires { first_record ≤ length s.now }
    ensures { result ≡ config_read s.now }
{
    Config::from(array::from_fn(|i| number_at(s, 1 + 4 * i)))
}

// Refusal 1: whether s has the length and the version of a script.
#[tactic(auto, unfolding(rules::specs::Conditions::is_within), using(crate::proofs::Laws::and_is))]
fn is_script(s: &[u8]) -> bool
    ensures { result ≡ is_script s.now }
{
    FIRST_RECORD <= s.len() && s.len() <= LONGEST && s[0] == 1
}

// The seven numbers of a script, in range or not: refusal 1.
#[tactic(auto, using(crate::proofs::Laws::script_is_long))]
pub fn config_in(s: &[u8]) -> Result<Config, Refusal>
    ensures { result ≡ cond (is_script s.now) (Ok (config_read s.now)) (Err Refusal.NoScript) }
{
    if is_script(s) {
        Ok(config_read(s))
    } else {
        Err(Refusal::NoScript)
    }
}

// The header of a script: refusal 1, beside zeros, or 2, beside the configuration that is out of range.
#[tactic(auto, unfolding(crate::specs::Reading::header_in, rules::specs::Conditions::unless))]
pub fn header_in(s: &[u8]) -> Result<Config, Refused<Config>>
    ensures { header_as result ≡ header_in s.now }
{
    let c = config_in(s).map_err(|refusal| Refused {
        refusal,
        beside: Config::default(),
    })?;
    check(config_in_range(c), Refusal::OutOfRange).map_err(|refusal| Refused {
        refusal,
        beside: c,
    })?;
    Ok(c)
}

// How many fields follow a kind. 0, and no `None`, for a kind that there is not: its record may have any length.
#[tactic(auto, using(crate::proofs::Laws::no_fields), unfolding(crate::specs::Layout::fields_of, crate::specs::Layout::field_count, rules::specs::Steps::action_of))]
pub fn fields_of(kind: u32) -> u32
    ensures { (result ≡ fields_of kind) × (result ≤ 3) }
{
    match kind {
        1 => 3,
        2 => 1,
        3 => 1,
        4 => 3,
        5 => 1,
        6 => 2,
        7 => 2,
        8 => 2,
        9 => 1,
        10 => 1,
        _ => 0,
    }
}

// Refusals 4 and 5 of a step.
pub fn step_refusal(s: Step) -> Result<(), Refusal>
    ensures { refusal_of result ≡ step_refusal s }
{
    malformed(action_of(s))
}

// Field i of a record of n fields.
fn field_in(r: &[u8], n: u32, i: u32) -> u32
    requires { (n ≤ 3) × (1 + 4 * n ≤ length r.now) }
    ensures { result ≡ field_in r.now n i }
{
    if i < n {
        number_at(r, 1 + 4 * i as usize)
    } else {
        0
    }
}

// The kind and the fields of a record.
#[tactic(auto, unfolding(crate::specs::Reading::step_in))]
fn step_in(r: &[u8]) -> Step
    requires { length_of (get_or r.now 0 0) ≤ length r.now }
    ensures { result ≡ step_in r.now }
{
    let kind = u32::from(r[0]);
    let n = fields_of(kind);
    Step {
        kind,
        first: field_in(r, n, 0),
        second: field_in(r, n, 1),
        third: field_in(r, n, 2),
    }
}

// Whether a record has a kind byte and, where the kind is known, its length.
#[tactic(auto, using(crate::proofs::Laws::and_is, crate::proofs::Laws::or_is, crate::proofs::Laws::framed))]
fn is_framed(r: &[u8]) -> bool
    ensures { result ≡ is_framed r.now }
{
    if r.is_empty() {
        return false;
    }
    let n = fields_of(u32::from(r[0]));
    n == 0 || r.len() == (1 + 4 * n) as usize
}

// The step that a record says: refusal 3. What the step itself breaks, 4 or 5, is `step_refusal`.
#[tactic(auto, using(crate::proofs::Laws::framed_is_long))]
pub fn decode(r: &[u8]) -> Result<Step, Refusal>
    ensures step { result ≡ cond (is_framed r.now) (Ok (step_in r.now)) (Err Refusal.NoRecord) }
    ensures says { decoded_as result ≡ decode' r.now }
{
    if is_framed(r) {
        Ok(step_in(r))
    } else {
        Err(Refusal::NoRecord)
    }
}

// Refusal 3, and the place behind what is no record.
fn no_record(next: usize) -> Result<Record, Refused<usize>>
    ensures { result ≡ Err (record { refusal = Refusal.NoRecord; beside = next }) }
{
    Err(Refused {
        refusal: Refusal::NoRecord,
        beside: next,
    })
}

// The record at place p, decoded as that part of the script: refusal 3, also where it is not whole, as from the end on.
#[tactic(auto, using(crate::proofs::Results::outside, crate::proofs::Results::inside, crate::proofs::Results::all_said, crate::proofs::Walk::part_from_to))]
pub fn record_at(s: &[u8], p: usize) -> Result<Record, Refused<usize>>
    ensures found { result ≡ result_of (record_at s.now p) }
    ensures says { found_as result ≡ record_at s.now p }
{
    let end = s.len();
    if end <= p {
        return no_record(end);
    }
    let n = usize::from(s[p]);
    if end - p <= n {
        return no_record(end);
    }
    let start = p + 1;
    let next = start + n;
    match decode(&s[start..next]) {
        Ok(step) => Ok(Record { step, next }),
        Err(_) => no_record(next),
    }
}

// The first refusal among the records from the first record on.
#[tactic(auto, using(crate::proofs::Walk::leaves_less, crate::proofs::Walk::none_from_the_end, crate::proofs::Walk::stops, crate::proofs::Walk::stops_at, crate::proofs::Walk::goes_past))]
fn records_refusal(s: &[u8]) -> Result<(), Refusal>
    ensures { refusal_of result ≡ records_refusal (length s.now) s.now first_record }
{
    let mut p = FIRST_RECORD;
    // where the next record begins is known when this one is read, so this is no `for`
    while p < s.len() {
        let r = record_at(s, p)?;
        step_refusal(r.step)?;
        p = r.next;
    }
    Ok(())
}

// The first refusal that reading the whole script meets.
#[tactic(auto, unfolding(crate::specs::Reading::verdict))]
pub fn verdict(s: &[u8]) -> Result<(), Refusal>
    ensures { refusal_of result ≡ verdict' s.now }
{
    header_in(s)?;
    records_refusal(s)
}
