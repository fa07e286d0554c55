// What is sealed in: a server's notices, return and cleanup, and the messages that it handles.
// s is the server, changed where it stands. A server knows no facade and no true time.
#![tactic(auto)]

ghost use Rattle.std.specs.Prelude.{◌≡◌, ◌<◌, T};
ghost use Rattle.types.specs.declared.Reservation.{Reservation};
ghost use Rattle.types.specs.declared.Outcome.TheVariants.{Done};
ghost use Rattle.rules.specs.Messages.{answer, nothing as nothing'};
ghost use Rattle.rules.specs.Parts.{binding_at, with_binding};
ghost use Rattle.rules.specs.Ranges.{body_in_range};
ghost use Rattle.rules.specs.Server.{noticed as noticed', cleared_server, after_return, freed_if_old, cleaned as cleaned', is_request, address_of, handled_at, server_receives};

use leading::{may_lead, next_server, raised};
use lending::{
    drop_reservations, lowest_offerable, on_discover, on_renew, on_request, reservations_by,
};
use outbox::{nothing, unmet};
use ranges::{InRange, ServerAt};
use types::{Binding, Body, Config, Matter, Message, Outcome, Reaction, Reservation, Server};
use writes::{closed, on_write, on_write_ack};

// A notice: server `about` is dead (0) or alive (1). For each address it is decided anew whether the server leads it.
pub fn noticed(who: ServerAt, s: &mut Server, about: u32, says: u32)
    requires { about < who.config.servers }
    ensures { answer s.new Done nothing' ≡ noticed' who.config who.number who.reading s.old about says }
{
    s.believed[about as usize] = says == 1;
    let b = s.believed;
    let c = who.known();
    let k = who.number;
    let r = who.reading;
    let mut first = 0;
    // by places: over a `zip` of the flags and the records the check leaves five goals to prove, for three
    for a in 0..who.config.addresses as usize {
        let before = s.leads[a];
        let now = may_lead(c, k, r, s.returned, before, b, first);
        s.leads[a] = now;
        s.potlease[a] = raised(c, r, before, now, s.potlease[a]);
        first = next_server(who.config.servers, first);
    }
}

// A server that believes everyone live, with nothing led, reserved, lent or open.
pub fn cleared_server(alive: bool, changed: u32, returned: u32, records: [u32; 32]) -> Server
    ensures { result ≡ cleared_server alive changed returned records }
{
    Server {
        alive,
        changed,
        returned,
        believed: [true; 4],
        leads: [false; 32],
        reserved: [None; 32],
        lent: [0; 32],
        potlease: records,
        writes: [closed(); 32],
    }
}

// The server when it comes back: records survive, and all else of its own is as new.
#[tactic(auto, unfolding(rules::specs::Server::after_return))]
pub fn after_return(r: u32, s: &mut Server)
    ensures { answer s.new Done nothing' ≡ after_return r s.old }
{
    *s = cleared_server(s.alive, s.changed, r, s.potlease);
}

// A reservation, free if its reading + θ is below the clock.
#[tactic(auto, unfolding(rules::specs::Server::freed_if_old))]
fn freed_if_old(c: Config, r: u32, x: Option<Reservation>) -> Option<Reservation>
    ensures { result ≡ freed_if_old c r x }
{
    x.filter(|w| u64::from(r) <= u64::from(w.reading) + u64::from(c.retention))
}

// The server, whose clock reads r, drops its old reservations.
#[tactic(auto, unfolding(rules::specs::Server::cleaned))]
pub fn cleaned(c: InRange, r: u32, s: &mut Server)
    ensures { answer s.new Done nothing' ≡ cleaned' c r s.old }
{
    let n = c.config.addresses;
    reservations_by(|x| freed_if_old(c.config, r, x), n, &mut s.reserved);
}

#[tactic(auto, unfolding(rules::specs::Server::is_request))]
fn is_request(body: Body) -> bool
    ensures { result ≡ is_request body }
{
    matches!(body, Body::Request(..))
}

// The address that a message is about: the one that it names, or for a discover the lowest that may be offered; 0 where there is none.
// No `Option`: an empty body meets no condition, and a discover is tested again at address 0, where the test failed: a `None`
// would get the same answer.
#[tactic(auto, unfolding(rules::specs::Server::address_for))]
fn address_of(who: ServerAt, s: &Server, body: Body) -> u32
    ensures { result ≡ address_of who.config who.reading s.now body }
{
    match body {
        Body::Empty => 0,
        Body::Discover => {
            lowest_offerable(who.known(), who.reading, &s.leads, &s.reserved, &s.potlease)
        }
        Body::Offer(a)
        | Body::Request(a, _)
        | Body::Renew(a, _, _)
        | Body::Write(a, _)
        | Body::WriteAck(a, _)
        | Body::Ack(a, _) => a,
    }
}

// A message with this body, where b is what is kept for its address. One that is for a client has no condition that is met.
#[tactic(auto, using(crate::proofs::Laws::ack_sender), unfolding(rules::specs::Server::handled_at))]
fn handled_at(who: ServerAt, b: Binding, matter: Matter, body: Body) -> Reaction<Binding>
    requires { T (body_in_range who.config matter.party who.number body) }
    ensures { result ≡ handled_at who.config who.number who.reading b matter.party matter.interaction matter.address body }
{
    match body {
        Body::Discover => on_discover(who.known(), who.number, who.reading, b, matter),
        Body::Request(_, t) => on_request(who, b, matter, t),
        Body::Renew(_, e, t) => on_renew(who, b, matter, e, t),
        Body::Write(_, v) => on_write(who.number, b, matter, v),
        Body::WriteAck(_, v) => on_write_ack(who.config, b, matter, v),
        Body::Empty | Body::Offer(_) | Body::Ack(..) => unmet(b),
    }
}

// What the server keeps for the address at that place.
fn binding_at(s: &Server, at: usize) -> Binding
    requires { at < 32 }
    ensures { result ≡ binding_at s.now at }
{
    Binding {
        leads: s.leads[at],
        reserved: s.reserved[at],
        lent: s.lent[at],
        potlease: s.potlease[at],
        write: s.writes[at],
    }
}

// What the server keeps for that address becomes b.
fn put_binding(s: &mut Server, at: usize, b: Binding)
    requires { at < 32 }
    ensures { s.new ≡ with_binding s.old at b }
{
    s.leads[at] = b.leads;
    s.reserved[at] = b.reserved;
    s.lent[at] = b.lent;
    s.potlease[at] = b.potlease;
    s.writes[at] = b.write;
}

// A message that comes to the server. A dead one handles nothing.
#[tactic(auto, using(rules::proofs::Kept::address_place), unfolding(rules::specs::Server::server_receives, rules::specs::Server::server_handles, rules::specs::Server::dropped))]
pub fn server_receives(who: ServerAt, s: &mut Server, m: Message) -> Reaction<()>
    requires { T (body_in_range who.config m.sender who.number m.body) }
    ensures { answer s.new result.outcome result.outbox ≡ server_receives who.config who.number who.reading s.old m }
{
    if !s.alive {
        return Reaction {
            after: (),
            outcome: Outcome::Dead,
            outbox: nothing(),
        };
    }
    let matter = Matter {
        party: m.sender,
        interaction: m.interaction,
        address: address_of(who, s, m.body),
    };
    if is_request(m.body) {
        drop_reservations(who.config.addresses, m.interaction, &mut s.reserved);
    }
    let at = matter.address as usize;
    let x = handled_at(who, binding_at(s, at), matter, m.body);
    put_binding(s, at, x.after);
    Reaction {
        after: (),
        outcome: x.outcome,
        outbox: x.outbox,
    }
}
