// What the rules 6 to 12 say of a step of a facade, and what happens in it: f is the facade. That its world is in range is a clause;
// `facade` says why.
#![tactic(auto)]

ghost use Rattle.std.specs.Prelude.{◌≡◌, cond, Some, None, ltb};
ghost use Rattle.types.specs.Numbers.{refusal_of};
ghost use Rattle.rules.specs.Conditions.{unless};
ghost use Rattle.rules.specs.Parts.{server_at, state_at, message_at};
ghost use Rattle.rules.specs.Ranges.{is_server};
ghost use Rattle.rules.proofs.Sizes.{WorldInRange};
ghost use Rattle.rules.specs.Views.{whole};
ghost use Rattle.rules.specs.Steps.{pass, notice, malformed, barred as barred', position, takes_out, delivered as delivered', deed_of};

use arith::check;
use client::{is_holding, is_offered};
use clocks::{are_in_touch, is_credible_notice, offset_allows};
use outbox::no_message;
use steps::WellFormed;
use types::{
    Action, ClientEvent, Config, Deed, Facade, LAST_INTERACTION, LAST_TIME, Message, Refusal,
    ServerEvent, State,
};

// Whether server k is alive; one that does not exist is not.
fn is_alive(f: &Facade, k: u32) -> bool
    ensures { result ≡ (server_at f.now k).alive }
{
    f.servers.get(k as usize).is_some_and(|s| s.alive)
}

// c, the true time of the last change of server k.
fn last_change(f: &Facade, k: u32) -> u32
    ensures { result ≡ (server_at f.now k).changed }
{
    f.servers.get(k as usize).map_or(0, |s| s.changed)
}

// The state of client i; one that does not exist is idle.
fn state_at(f: &Facade, i: u32) -> State
    ensures { result ≡ state_at f.now i }
{
    f.clients.get(i as usize).map_or(State::Idle, |y| y.state)
}

// Refusals 6 and 7 of fail, return and cleanup of server k, which is in a state that allows it or not. Beside those of a client: one
// function of both would be handed a count and a test that is always met.
#[tactic(auto, unfolding(rules::specs::Conditions::unless))]
fn server_barred(c: Config, k: u32, allowed: bool) -> Result<(), Refusal>
    ensures { refusal_of result ≡ unless (is_server c k) 6 (unless allowed 7 0) }
{
    check(k < c.servers, Refusal::DoesNotExist)?;
    check(allowed, Refusal::WrongState)
}

// Refusals 6, 7 and 12 of discover, request and renew of client i; `left` says whether a new κ, if it takes one, is left.
#[tactic(auto, unfolding(rules::specs::Conditions::unless))]
pub fn client_barred(c: Config, i: u32, allowed: bool, left: bool) -> Result<(), Refusal>
    ensures { refusal_of result ≡ unless (ltb i c.clients) 6 (unless allowed 7 (unless left 12 0)) }
{
    check(i < c.clients, Refusal::DoesNotExist)?;
    check(allowed, Refusal::WrongState)?;
    check(left, Refusal::NoInteractionLeft)
}

// Refusals 6, 7 and 11 of a notice to server k about server j.
#[tactic(auto, using(rules::proofs::Laws::tests), unfolding(rules::specs::Conditions::unless, rules::specs::Steps::barred, rules::specs::Steps::exists, rules::specs::Steps::state_allows, rules::specs::Steps::of_pass, rules::specs::Steps::of_notice, rules::specs::Steps::is_credible, rules::specs::Steps::interaction_left))]
fn notice_barred(f: &Facade, k: u32, j: u32, says: u32) -> Result<(), Refusal>
    ensures { refusal_of result ≡ barred' (whole f.now) (notice k j says) 0 }
{
    let c = f.config;
    check(
        k < c.servers && j < c.servers && j != k,
        Refusal::DoesNotExist,
    )?;
    check(is_alive(f, k), Refusal::WrongState)?;
    check(
        is_credible_notice(c, f.time, is_alive(f, j), last_change(f, j), says),
        Refusal::NotCredible,
    )
}

// Refusals 6, 8, 9 and 10 of a pass. Its d, party and e stand side by side here, in `Action`, in `Deed` and in `moved`, as a record
// has them.
#[tactic(auto, using(rules::proofs::Laws::tests, rules::proofs::Sizes::world_sizes, rules::proofs::Sizes::world_time, rules::proofs::Sizes::world_offset, crate::proofs::Laws::pass_fields, std::proofs::lemmas::Int::ints), unfolding(rules::specs::Conditions::unless, rules::specs::Steps::barred, rules::specs::Steps::exists, rules::specs::Steps::state_allows, rules::specs::Steps::of_pass, rules::specs::Steps::time_left, rules::specs::Steps::clock_allows, rules::specs::Steps::in_touch, rules::specs::Steps::of_notice, rules::specs::Steps::interaction_left))]
fn pass_barred(f: &Facade, d: u32, p: u32, e: i32) -> Result<(), Refusal>
    requires { WorldInRange f.now × (malformed (pass d p e) 0 ≡ 0) }
    ensures { refusal_of result ≡ barred' (whole f.now) (pass d p e) 0 }
{
    let c = f.config;
    check(p < c.servers + c.clients, Refusal::DoesNotExist)?;
    check(f.time + d <= LAST_TIME, Refusal::NoTimeLeft)?;
    check(
        offset_allows(c, f.offsets[p as usize], d, e),
        Refusal::ClockOff,
    )?;
    check(
        are_in_touch(c, f.time + d, &f.notices, &f.servers),
        Refusal::OutOfTouch,
    )
}

// Refusals 6 to 12.
#[tactic(auto, unfolding(rules::specs::Conditions::unless, rules::specs::Steps::barred, rules::specs::Steps::exists, rules::specs::Steps::state_allows, rules::specs::Steps::of_pass, rules::specs::Steps::of_notice, rules::specs::Steps::interaction_left))]
pub fn barred(f: &Facade, a: WellFormed) -> Result<(), Refusal>
    requires { WorldInRange f.now }
    ensures { refusal_of result ≡ barred' (whole f.now) a.action 0 }
{
    let c = f.config;
    let left = f.next <= LAST_INTERACTION;
    match a.action {
        Action::Pass(d, p, e) => pass_barred(f, d, p, e),
        Action::Fail(k) | Action::Cleanup(k) => server_barred(c, k, is_alive(f, k)),
        Action::Return(k) => server_barred(c, k, !is_alive(f, k)),
        Action::Notice(k, j, says) => notice_barred(f, k, j, says),
        Action::Discover(i) => client_barred(c, i, !is_holding(state_at(f, i)), left),
        Action::Request(i, _) => client_barred(c, i, is_offered(state_at(f, i)), true),
        Action::Renew(i, _) => client_barred(c, i, is_holding(state_at(f, i)), left),
        Action::Deliver(p, _) | Action::Lose(p) => check(p < f.waiting, Refusal::DoesNotExist),
        Action::Unknown => Ok(()),
    }
}

// The position of the message that a step takes out, if it takes one out.
#[tactic(auto, unfolding(rules::specs::Steps::takes_out, rules::specs::Steps::position))]
pub fn position_taken(a: Action) -> Option<u32>
    ensures { result ≡ cond (takes_out a) (Some (position a)) None }
{
    match a {
        Action::Deliver(p, 0) | Action::Lose(p) => Some(p),
        _ => None,
    }
}

// The message at position p.
fn message_at(f: &Facade, p: u32) -> Message
    ensures { result ≡ message_at f.now p }
{
    f.messages.get(p as usize).copied().unwrap_or(no_message())
}

// A message is handled by the party that it is for.
#[tactic(auto, unfolding(rules::specs::Steps::delivered))]
fn delivered(c: Config, m: Message) -> Deed
    ensures { result ≡ delivered' c m }
{
    let to = m.receiver;
    if to < c.servers {
        return Deed::Serves(to, ServerEvent::Receives(m));
    }
    Deed::Asks(to - c.servers, ClientEvent::Hears(m))
}

// What happens in a step.
#[tactic(auto, unfolding(rules::specs::Steps::deed_of, rules::specs::Steps::position))]
pub fn deed_of(f: &Facade, a: Action) -> Deed
    ensures { result ≡ deed_of f.now.config (message_at f.now (position a)) a }
{
    match a {
        Action::Pass(d, p, e) => Deed::Passes(d, p, e),
        Action::Fail(k) => Deed::Serves(k, ServerEvent::Fails),
        Action::Return(k) => Deed::Serves(k, ServerEvent::Returns),
        Action::Notice(k, j, says) => Deed::Serves(k, ServerEvent::Notices(j, says)),
        Action::Discover(i) => Deed::Asks(i, ClientEvent::Discovers),
        Action::Request(i, t) => Deed::Asks(i, ClientEvent::Requests(t)),
        Action::Renew(i, t) => Deed::Asks(i, ClientEvent::Renews(t)),
        Action::Deliver(p, _) => delivered(f.config, message_at(f, p)),
        Action::Cleanup(k) => Deed::Serves(k, ServerEvent::CleansUp),
        Action::Lose(_) | Action::Unknown => Deed::Rests,
    }
}
