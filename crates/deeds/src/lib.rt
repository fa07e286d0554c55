// What a party does to which something happens. That the world of a facade and an event are in range stands in clauses; `facade`
// says why.
#![tactic(auto)]

ghost use Rattle.std.specs.Prelude.{◌≡◌, ◌≤◌, ◌<◌, T};
ghost use Rattle.rules.specs.Parts.{with_life, with_notices};
ghost use Rattle.rules.specs.Messages.{answer};
ghost use Rattle.rules.specs.Steps.{server_after, notices_after, client_after, next_after, served as served', asked as asked'};
ghost use Rattle.deeds.specs.Deeds.{event_in_range};
ghost use Rattle.rules.specs.Ranges.{after_last};
ghost use Rattle.rules.proofs.Sizes.{WorldInRange};

use arith::clock_reading;
use client::{discovers, renews, requests};
use outbox::done;
use ranges::{ClientOf, ServerAt};
use types::{Client, ClientEvent, Facade, Reaction, Server, ServerEvent, State};

// Server s is alive or not from true time t on.
fn put_life(s: &mut Server, alive: bool, t: u32)
    ensures { s.new ≡ with_life s.old alive t }
{
    s.alive = alive;
    s.changed = t;
}

// Server s after an event at true time t.
#[tactic(auto, using(crate::proofs::Laws::about_low, crate::proofs::Laws::body_ready), unfolding(rules::specs::Steps::server_after))]
fn server_after(who: ServerAt, t: u32, s: &mut Server, e: ServerEvent) -> Reaction<()>
    requires { T (event_in_range who.config who.number e) }
    ensures { answer s.new result.outcome result.outbox ≡ server_after who.config t who.number who.reading s.old e }
{
    match e {
        ServerEvent::Receives(m) => return server::server_receives(who, s, m),
        ServerEvent::Fails => put_life(s, false, t),
        ServerEvent::Returns => {
            server::after_return(who.reading, s);
            put_life(s, true, t);
        }
        ServerEvent::Notices(j, says) => server::noticed(who, s, j, says),
        ServerEvent::CleansUp => server::cleaned(who.known(), who.reading, s),
    }
    done(())
}

// Server k of a facade after an event by its clock, s being its value. The facade keeps what it has of the server, since a step may
// be refused yet.
#[tactic(auto, using(rules::proofs::Sizes::world_sizes, rules::proofs::Sizes::world_time, rules::proofs::Sizes::world_reading, std::proofs::lemmas::Int::ints))]
pub fn served(f: &Facade, k: u32, s: &mut Server, e: ServerEvent) -> Reaction<()>
    requires { WorldInRange f.now × (k < f.now.config.servers) × T (event_in_range f.now.config k e) }
    ensures { answer s.new result.outcome result.outbox ≡ served' f.now k s.old e }
{
    let who = ServerAt {
        config: f.config,
        number: k,
        reading: clock_reading(f.time, f.offsets[k as usize]),
    };
    server_after(who, f.time, s, e)
}

// The notice times after it.
#[tactic(auto, using(rules::proofs::Sizes::world_sizes, crate::proofs::Laws::about_low), unfolding(rules::specs::Steps::notices_after))]
pub fn notices_after(f: &mut Facade, k: u32, e: ServerEvent)
    requires { WorldInRange f.old × (k < f.old.config.servers) × T (event_in_range f.old.config k e) }
    ensures { f.new ≡ with_notices f.old (notices_after f.old.notices f.old.time k e) }
{
    let now = f.time;
    match e {
        ServerEvent::Returns => f.notices[k as usize] = [now; 4],
        ServerEvent::Notices(j, _) => f.notices[k as usize][j as usize] = now,
        ServerEvent::Fails | ServerEvent::Receives(_) | ServerEvent::CleansUp => {}
    }
}

// A client in state x after an event, its clock reading being r and n the next interaction.
#[tactic(auto, unfolding(rules::specs::Steps::client_after))]
fn client_after(who: ClientOf, n: u32, r: u32, x: State, e: ClientEvent) -> Reaction<Client>
    ensures { result ≡ client_after who.config n who.number r x e }
{
    match e {
        ClientEvent::Discovers => discovers(who, x, n),
        ClientEvent::Requests(t) => requests(who, x, t),
        ClientEvent::Renews(t) => renews(who, x, t, n),
        ClientEvent::Hears(m) => client::client_receives(r, x, m),
    }
}

// Client i of a facade after an event, by its clock.
#[tactic(auto, using(rules::proofs::Sizes::world_sizes, rules::proofs::Sizes::world_time))]
pub fn asked(f: &Facade, i: u32, e: ClientEvent) -> Reaction<Client>
    requires { WorldInRange f.now × (i < f.now.config.clients) }
    ensures { result ≡ asked' f.now i e }
{
    let party = (f.config.servers + i) as usize;
    let reading = clock_reading(f.time, f.offsets[party]);
    let who = ClientOf {
        config: f.config,
        number: i,
    };
    client_after(who, f.next, reading, f.clients[i as usize].state, e)
}

// The next interaction after it.
#[tactic(auto, unfolding(rules::specs::Steps::next_after))]
pub fn next_after(n: u32, e: ClientEvent) -> u32
    requires { n ≤ after_last }
    ensures { result ≡ next_after n e }
{
    match e {
        ClientEvent::Discovers | ClientEvent::Renews(_) => n + 1,
        ClientEvent::Requests(_) | ClientEvent::Hears(_) => n,
    }
}
