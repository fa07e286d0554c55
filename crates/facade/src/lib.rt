// A whole facade: fresh, a step of any kind, and how many clients hold.
#![tactic(auto)]

ghost use Rattle.std.specs.Option.{is_some};
ghost use Rattle.std.specs.Prelude.{◌≡◌, ◌≤◌, ◌<◌, cond, Ok, Err, T, IfSome};
ghost use Rattle.types.specs.Numbers.{refusal_of};
ghost use Rattle.types.specs.declared.Refusal.TheVariants.{Full};
ghost use Rattle.types.specs.declared.Deed.TheVariants.{Serves, Asks};
ghost use Rattle.rules.specs.Answers.{answer_of, started};
ghost use Rattle.rules.specs.Ranges.{in_range};
ghost use Rattle.rules.specs.Steps.{fresh as fresh', start as start', enacted, answer_to, step as step', held_clients};
ghost use Rattle.cable.specs.Exchange.{room_for, taken_from};
ghost use Rattle.deeds.specs.Deeds.{event_in_range};
ghost use Rattle.facade.specs.Full.{unless_full};

use arith::check;
use cable::{room_for, send_all, take_from};
use client::held_among;
use clocks::{lapse, moved};
use decisions::{barred, deed_of, position_taken};
use deeds::{asked, next_after, notices_after, served};
use ranges::{checked, in_range};
use steps::{WellFormed, formed};
use types::{
    Client, ClientEvent, Config, Deed, Facade, Outbox, Outcome, Refusal, Refused, ServerEvent,
    State, Step,
};

// Before any step. All places are filled alike.
pub fn fresh(c: Config) -> Facade
    ensures { result ≡ fresh' c }
{
    let s = server::cleared_server(true, 0, 0, [0; 32]);
    let idle = Client { state: State::Idle };
    let empty = outbox::no_message();
    Facade {
        config: c,
        time: 0,
        next: 1,
        offsets: [0; 36],
        servers: [s; 4],
        notices: [[0; 4]; 4],
        clients: [idle; 32],
        messages: [empty; 128],
        waiting: 0,
    }
}

// The fresh facade of a configuration; refusal 2, beside the same facade, where a number of it is out of range.
#[tactic(auto, unfolding(rules::specs::Conditions::unless, rules::specs::Steps::start))]
pub fn start(c: Config) -> Result<Facade, Refused<Facade>>
    ensures { started result ≡ start' c }
{
    let f = fresh(c);
    match checked(c) {
        Ok(_) => Ok(f),
        Err(refusal) => Err(Refused { refusal, beside: f }),
    }
}

// Refusal 13: there is no room for what is sent, the message at the position that is named being taken out.
fn fits(f: &Facade, taken: Option<u32>, sent: &Outbox) -> Result<(), Refusal>
    requires { (f.now.waiting ≤ 128) × (sent.now.count ≤ 4) × IfSome taken (λ p. p < f.now.waiting) }
    ensures { result ≡ cond (room_for f.now.waiting (is_some taken) sent.now.count) (Ok tt) (Err Full) }
{
    check(
        room_for(f.waiting, taken.is_some(), sent.count),
        Refusal::Full,
    )
}

// That a facade is in range stands in clauses, and no type carries it: `ask` may leave the next interaction beyond its range, and
// only a whole step, which tests that one is left, keeps it. Nor is there a type for those that read it, as `served` and `barred`:
// they borrow a facade that changes between them, so each call would make a value for one clause. So it is with a position that is
// below `waiting`, with an event that names what is there, and with a waiting count that is not above 128: each is so of the facade
// as it is then.

// `serve` and `ask` put different parts, and end alike in three calls. One function over a closure that puts the part would
// promise in four lines what these three calls say.

// Server k is told of an event.
#[tactic(auto, using(rules::proofs::Sizes::world_of_sound, rules::proofs::Sizes::sizes, rules::proofs::Sizes::waiting_high, crate::proofs::Laws::few_served, crate::proofs::Laws::taken_high))]
fn serve(f: &mut Facade, taken: Option<u32>, k: u32, e: ServerEvent) -> Result<Outcome, Refusal>
    requires { T (in_range f.old) × (k < f.old.config.servers) × T (event_in_range f.old.config k e) × IfSome taken (λ p. p < f.old.waiting) }
    ensures { answer_of result f.new ≡ unless_full f.old (enacted (taken_from f.old taken) (Serves k e)) }
{
    let mut s = f.servers[k as usize];
    let x = served(f, k, &mut s, e);
    fits(f, taken, &x.outbox)?;
    notices_after(f, k, e);
    f.servers[k as usize] = s;
    take_from(f, taken);
    send_all(f, &x.outbox);
    Ok(x.outcome)
}

// Client i is told of an event.
#[tactic(auto, using(rules::proofs::Sizes::world_of_sound, rules::proofs::Sizes::sizes, rules::proofs::Sizes::next_high, rules::proofs::Sizes::waiting_high, crate::proofs::Laws::few_asked, crate::proofs::Laws::taken_high))]
fn ask(f: &mut Facade, taken: Option<u32>, i: u32, e: ClientEvent) -> Result<Outcome, Refusal>
    requires { T (in_range f.old) × (i < f.old.config.clients) × IfSome taken (λ p. p < f.old.waiting) }
    ensures { answer_of result f.new ≡ unless_full f.old (enacted (taken_from f.old taken) (Asks i e)) }
{
    let x = asked(f, i, e);
    fits(f, taken, &x.outbox)?;
    f.next = next_after(f.next, e);
    f.clients[i as usize] = x.after;
    take_from(f, taken);
    send_all(f, &x.outbox);
    Ok(x.outcome)
}

// A well-formed step of a facade in range. A refused one changes nothing.
#[tactic(auto, using(rules::proofs::Sizes::world_of_sound))]
fn take(f: &mut Facade, a: WellFormed) -> Result<Outcome, Refusal>
    requires { T (in_range f.old) }
    ensures { answer_of result f.new ≡ answer_to f.old a.action }
{
    barred(f, a)?;
    let taken = position_taken(a.action);
    match deed_of(f, a.action) {
        Deed::Rests => {
            take_from(f, taken);
            Ok(Outcome::Done)
        }
        Deed::Passes(d, p, e) => {
            moved(f, d, p, e);
            lapse(f);
            Ok(Outcome::Done)
        }
        Deed::Serves(k, e) => serve(f, taken, k, e),
        Deed::Asks(i, e) => ask(f, taken, i, e),
    }
}

// A step of a facade that is in range.
pub fn take_step(f: &mut Facade, s: Step) -> Result<Outcome, Refusal>
    requires { T (in_range f.old) }
    ensures { answer_of result f.new ≡ step' f.old s }
{
    take(f, formed(s)?)
}

// A step of any facade, with any kind number and fields.
pub fn step(f: &mut Facade, s: Step) -> Result<Outcome, Refusal>
    ensures { answer_of result f.new ≡ step' f.old s }
{
    check(in_range(f), Refusal::OutOfRange)?;
    take_step(f, s)
}

// How many clients of a facade hold.
pub fn held_clients(f: &Facade) -> u32
    ensures { result ≡ held_clients f.now }
{
    held_among(f.config, &f.clients)
}
