// What a client does, on its own value: r is its clock reading, x its state. And how many hold.
#![tactic(auto)]

ghost use Rattle.std.specs.Prelude.{◌≡◌};
ghost use Rattle.types.specs.declared.Outcome.TheVariants.{Unmet};
ghost use Rattle.rules.specs.Messages.{nothing as nothing'};
ghost use Rattle.rules.specs.Client.{is_offered, is_holding, reply as reply', broadcast as broadcast', lapsed as lapsed', discovers as discovers', requests as requests', renews as renews', asks_with, on_offer, expects as expects', kept_end, on_ack, client_receives};
ghost use Rattle.rules.specs.Steps.{held_among};

use outbox::{nothing, to_each, unmet};
use ranges::ClientOf;
use types::{Body, Client, Config, Message, Outbox, Outcome, Reaction, State};

// A client in state x with outcome n, and what it sends.
fn reply(x: State, n: Outcome, o: Outbox) -> Reaction<Client>
    ensures { result ≡ reply' x n o }
{
    Reaction {
        after: Client { state: x },
        outcome: n,
        outbox: o,
    }
}

// A condition is not met: the client stays in its state and sends nothing.
fn unmoved(x: State) -> Reaction<Client>
    ensures { result ≡ reply' x Unmet nothing' }
{
    unmet(Client { state: x })
}

// The same message to each server.
fn broadcast(who: ClientOf, q: u32, body: Body) -> Outbox
    ensures { result ≡ broadcast' who.config who.number q body }
{
    let servers = who.config.servers;
    let m = Message {
        sender: servers + who.number,
        receiver: 0,
        interaction: q,
        body,
    };
    to_each(m, servers)
}

#[tactic(auto, unfolding(rules::specs::Client::is_offered))]
pub fn is_offered(x: State) -> bool
    ensures { result ≡ is_offered x }
{
    matches!(x, State::Offered(..))
}

#[tactic(auto, unfolding(rules::specs::Client::is_holding))]
pub fn is_holding(x: State) -> bool
    ensures { result ≡ is_holding x }
{
    matches!(x, State::Holding(..))
}

// A hold whose end is not above the clock is over.
#[tactic(auto, unfolding(rules::specs::Client::lapsed))]
pub fn lapsed(r: u32, x: State) -> State
    ensures { result ≡ lapsed' r x }
{
    match x {
        State::Holding(_, e, _) if e <= r => State::Idle,
        _ => x,
    }
}

// A discover with the new interaction q.
#[tactic(auto, unfolding(rules::specs::Client::discovers))]
pub fn discovers(who: ClientOf, x: State, q: u32) -> Reaction<Client>
    ensures { result ≡ discovers' who.config who.number x q }
{
    if is_holding(x) {
        return unmoved(x);
    }
    reply(
        State::Asking(q),
        Outcome::Done,
        broadcast(who, q, Body::Discover),
    )
}

// A request with the wanted end t.
#[tactic(auto, unfolding(rules::specs::Client::requests))]
pub fn requests(who: ClientOf, x: State, t: u32) -> Reaction<Client>
    ensures { result ≡ requests' who.config who.number x t }
{
    match x {
        State::Offered(q, a) => {
            let sent = broadcast(who, q, Body::Request(a, t));
            reply(State::Waiting(q, a), Outcome::Done, sent)
        }
        _ => unmoved(x),
    }
}

// A renewal with the wanted end t and the new interaction n.
#[tactic(auto, unfolding(rules::specs::Client::renews))]
pub fn renews(who: ClientOf, x: State, t: u32, n: u32) -> Reaction<Client>
    ensures { result ≡ renews' who.config who.number x t n }
{
    match x {
        State::Holding(a, e, _) => {
            let sent = broadcast(who, n, Body::Renew(a, e, t));
            reply(State::Holding(a, e, n), Outcome::Done, sent)
        }
        _ => unmoved(x),
    }
}

// Whether the client is asking with q.
#[tactic(auto, unfolding(rules::specs::Client::asks_with))]
fn asks_with(x: State, q: u32) -> bool
    ensures { result ≡ asks_with x q }
{
    matches!(x, State::Asking(stored) if stored == q)
}

#[tactic(auto, unfolding(rules::specs::Client::on_offer))]
fn on_offer(x: State, q: u32, a: u32) -> Reaction<Client>
    ensures { result ≡ on_offer x q a }
{
    if asks_with(x, q) {
        return reply(State::Offered(q, a), Outcome::Done, nothing());
    }
    unmoved(x)
}

// Whether the client waits for, or holds, address a with q.
#[tactic(auto, using(rules::proofs::Laws::tests), unfolding(rules::specs::Client::expects))]
fn expects(x: State, q: u32, a: u32) -> bool
    ensures { result ≡ expects' x q a }
{
    match x {
        State::Waiting(stored, address) => stored == q && address == a,
        State::Holding(address, _, stored) => stored == q && address == a,
        _ => false,
    }
}

// The end that is kept, where an ack says e: the later one where the client holds.
#[tactic(auto, unfolding(rules::specs::Client::kept_end))]
fn kept_end(x: State, e: u32) -> u32
    ensures { result ≡ kept_end x e }
{
    match x {
        State::Holding(_, own, _) => own.max(e),
        _ => e,
    }
}

// An ack of address a with end e.
#[tactic(auto, using(rules::proofs::Laws::tests), unfolding(rules::specs::Client::on_ack))]
fn on_ack(r: u32, x: State, q: u32, a: u32, e: u32) -> Reaction<Client>
    ensures { result ≡ on_ack r x q a e }
{
    if expects(x, q, a) && r < e {
        return reply(
            State::Holding(a, kept_end(x, e), q),
            Outcome::Done,
            nothing(),
        );
    }
    unmoved(x)
}

// A message that comes to the client. One that is for a server has no condition that is met.
#[tactic(auto, unfolding(rules::specs::Client::client_handles))]
pub fn client_receives(r: u32, x: State, m: Message) -> Reaction<Client>
    ensures { result ≡ client_receives r x m }
{
    match m.body {
        Body::Offer(a) => on_offer(x, m.interaction, a),
        Body::Ack(a, e) => on_ack(r, x, m.interaction, a, e),
        _ => unmoved(x),
    }
}

// How many of these clients hold, of which the configuration says how many there are.
pub fn held_among(c: Config, ys: &[Client; 32]) -> u32
    ensures { result ≡ held_among c ys.now }
{
    ys.iter()
        .take(c.clients as usize)
        .filter(|y| is_holding(y.state))
        .count() as u32
}
