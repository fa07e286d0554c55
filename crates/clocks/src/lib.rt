// True time, clocks and notice times: what a pass does, and the refusals that look at time.
#![tactic(auto)]

ghost use Rattle.std.specs.Prelude.{◌≡◌, ◌+◌, ◌≤◌, ◌<◌, get_or, nat_abs};
ghost use Rattle.rules.specs.Parts.{no_server, offset_at};
ghost use Rattle.rules.specs.Steps.{offset_allows, has_heard, is_in_touch, are_in_touch, is_credible_notice, moved as moved', lapse as lapse'};
ghost use Rattle.rules.proofs.Kept.{Configured};
ghost use Rattle.rules.specs.Ranges.{last_time};

use arith::{clock_reading, not_negative, shifted};
use types::{Config, Facade, Server};

// Refusal 9: no clock, ahead by o, goes back or is off by more than Δ.
#[tactic(auto, using(rules::proofs::Laws::tests))]
pub fn offset_allows(c: Config, o: i32, d: u32, e: i32) -> bool
    requires { (nat_abs o ≤ 1000) × (nat_abs e ≤ 2000) }
    ensures { result ≡ offset_allows c o d e }
{
    not_negative(d, e) && shifted(o, e).unsigned_abs() <= c.skew
}

// Server k, whose last notice about server j was at h, had that at most ν before `now`, or is that server.
#[tactic(auto, using(rules::proofs::Laws::tests))]
fn has_heard(c: Config, now: u32, k: usize, j: usize, h: u32) -> bool
    ensures { result ≡ has_heard c now k j h }
{
    j == k || u64::from(now) <= u64::from(h) + u64::from(c.detection)
}

// Server k, if it is alive, had a notice about every other within ν, by its notice times. A clause here and below, and no `InRange`:
// no more is asked of the configuration.
#[tactic(auto, using(rules::proofs::Laws::tests))]
fn is_in_touch(c: Config, now: u32, k: usize, row: &[u32; 4], alive: bool) -> bool
    requires { c.servers ≤ 4 }
    ensures { result ≡ is_in_touch c now k row.now alive }
{
    let count = c.servers as usize;
    !alive
        || row[..count]
            .iter()
            .enumerate()
            .all(|(j, h)| has_heard(c, now, k, j, *h))
}

// Refusal 10: by the notice times no live server is more than ν without a notice about another, at true time `now`. Whether one is
// alive is looked up by its place, as its number is needed too.
pub fn are_in_touch(c: Config, now: u32, ts: &[[u32; 4]; 4], ss: &[Server; 4]) -> bool
    requires { c.servers ≤ 4 }
    ensures { result ≡ are_in_touch c now ts.now (λ k. (get_or ss.now k no_server).alive) }
{
    let count = c.servers as usize;
    ts[..count]
        .iter()
        .enumerate()
        .all(|(k, row)| is_in_touch(c, now, k, row, ss[k].alive))
}

// True time and all clocks go on by d, and that of party p by e more.
pub fn moved(f: &mut Facade, d: u32, p: u32, e: i32)
    requires { (f.old.time + d ≤ last_time) × (p < 36) × (nat_abs (offset_at f.old p) ≤ 1000) × (nat_abs e ≤ 2000) }
    ensures { f.new ≡ moved' f.old d p e }
{
    let at = p as usize;
    f.time += d;
    f.offsets[at] = shifted(f.offsets[at], e);
}

// Holds whose end is not above their client's clock are over. A clause, and no `InRange`: the configuration is the facade's own, which
// may be of any numbers. By places: over a `zip` with the offsets the check leaves three goals more to prove.
#[tactic(auto, using(arith::proofs::Chains::written_none, arith::proofs::Chains::written_more, arith::proofs::Chains::written_all, arith::proofs::Chains::next_still), unfolding(rules::specs::Steps::lapsed_at, rules::specs::Steps::holds_ended, rules::specs::Steps::lapse))]
pub fn lapse(f: &mut Facade)
    requires { Configured f.old.config × (f.old.time ≤ last_time) }
    ensures { f.new ≡ lapse' f.old }
{
    let first = f.config.servers as usize;
    let count = f.config.clients as usize;
    let time = f.time;
    let offsets = f.offsets;
    for (i, y) in f.clients[..count].iter_mut().enumerate() {
        let r = clock_reading(time, offsets[first + i]);
        y.state = client::lapsed(r, y.state);
    }
}

// Refusal 11: what a notice says of a server, alive or not since `changed`, is so at true time t, or was until less than ν ago.
#[tactic(auto, using(rules::proofs::Laws::tests))]
pub fn is_credible_notice(c: Config, t: u32, alive: bool, changed: u32, says: u32) -> bool
    ensures { result ≡ is_credible_notice c t alive changed says }
{
    let recent = u64::from(t) < u64::from(changed) + u64::from(c.detection);
    (alive == (says == 1)) || recent
}
