// What a server does with a discover, a request and a renewal: b is what it keeps for the address that the message is about; c is
// the configuration, k the server's number and r its clock reading, or `who` is all three.
#![tactic(auto)]

ghost use Rattle.std.specs.Prelude.{◌≡◌, ◌≤◌, Option};
ghost use Rattle.rules.specs.Parts.{message};
ghost use Rattle.types.specs.declared.Reservation.{Reservation};
ghost use Rattle.rules.specs.Messages.{nothing as nothing', post as post', to_others};
ghost use Rattle.rules.specs.Server.{has_passed, is_free, may_offer, on_discover, lowest_offerable, granted as granted', on_request, reservations_by, freed_if_of, on_renew};

use outbox::{nothing, post, reply, to_others, unmet};
use ranges::{InRange, ServerAt};
use types::{
    Binding, Body, Matter, Message, OpenWrite, Outbox, Outcome, Pending, Reaction, Reservation,
};

// Whether the record v has passed by more than 2Δ.
fn has_passed(c: InRange, r: u32, v: u32) -> bool
    ensures { result ≡ has_passed c r v }
{
    u64::from(v) + u64::from(2 * c.config.skew) < u64::from(r)
}

// Whether an address may be offered: led, not reserved, and its record v has passed.
#[tactic(auto, using(rules::proofs::Laws::tests), unfolding(rules::specs::Server::is_free))]
fn may_offer(c: InRange, r: u32, leads: bool, reserved: Option<Reservation>, v: u32) -> bool
    ensures { result ≡ may_offer c r leads reserved v }
{
    leads && reserved.is_none() && has_passed(c, r, v)
}

// The lowest address that may be offered, by what a server leads, reserves and has on record; 0 where there is none.
// No `Option`: `on_discover` tests address 0 again, where the test failed, so a `None` would get the same answer. Three arrays, and
// no `Server`: they are all of one that the rule looks at.
pub fn lowest_offerable(
    c: InRange,
    r: u32,
    leads: &[bool; 32],
    reserved: &[Option<Reservation>; 32],
    records: &[u32; 32],
) -> u32
    ensures { result ≡ lowest_offerable c r leads.now reserved.now records.now }
{
    (0..c.config.addresses)
        .find(|a| {
            let at = *a as usize;
            may_offer(c, r, leads[at], reserved[at], records[at])
        })
        .unwrap_or(0)
}

// The address, if it may be offered, is reserved for the interaction and offered. No `ServerAt`: it takes any number and reading.
#[tactic(auto, unfolding(rules::specs::Server::on_discover, rules::specs::Server::offerable, rules::specs::Server::offered))]
pub fn on_discover(c: InRange, k: u32, r: u32, b: Binding, matter: Matter) -> Reaction<Binding>
    ensures { result ≡ on_discover c k r b matter.party matter.interaction matter.address }
{
    if !may_offer(c, r, b.leads, b.reserved, b.potlease) {
        return unmet(b);
    }
    let reservation = Reservation {
        interaction: matter.interaction,
        reading: r,
    };
    let offer = reply(k, matter, Body::Offer(matter.address));
    Reaction {
        after: Binding {
            reserved: Some(reservation),
            ..b
        },
        outcome: Outcome::Done,
        outbox: post(nothing(), offer),
    }
}

// The ack with the lent end, then the writes to every other server.
fn lease_messages(who: ServerAt, matter: Matter, l: u32, v: u32) -> Outbox
    ensures { result ≡ to_others who.number (λ j. message who.number j matter.interaction (Body.Write matter.address v)) who.config.servers (post' nothing' (message who.number matter.party matter.interaction (Body.Ack matter.address l))) }
{
    let ack = reply(who.number, matter, Body::Ack(matter.address, l));
    let write = Message {
        body: Body::Write(matter.address, v),
        ..ack
    };
    let sent = post(nothing(), ack);
    to_others(who.number, write, who.config.servers, sent)
}

// The address is lent until l, and t was wanted: v is for the others to record.
#[tactic(auto, unfolding(rules::specs::Server::granted))]
fn granted(who: ServerAt, b: Binding, matter: Matter, t: u32, l: u32) -> Reaction<Binding>
    ensures { result ≡ granted' who.config who.number b matter.party matter.interaction matter.address t l }
{
    let v = t.max(l);
    let asked = Pending {
        interaction: matter.interaction,
        end: v,
    };
    let mut itself = [false; 4];
    itself[who.number as usize] = true;
    Reaction {
        after: Binding {
            lent: l,
            potlease: b.potlease.max(v),
            write: OpenWrite {
                pending: Some(asked),
                acked: itself,
            },
            ..b
        },
        outcome: Outcome::Done,
        outbox: lease_messages(who, matter, l, v),
    }
}

// A reservation, free if it is one of q.
#[tactic(auto, unfolding(rules::specs::Server::freed_if_of))]
fn freed_if_of(q: u32, x: Option<Reservation>) -> Option<Reservation>
    ensures { result ≡ freed_if_of q x }
{
    x.filter(|w| w.interaction != q)
}

// Of the reservations of the first n addresses each becomes what `keep` leaves of it.
pub fn reservations_by<F: Fn(Option<Reservation>) -> Option<Reservation>>(
    keep: F,
    n: u32,
    rs: &mut [Option<Reservation>; 32],
)
    requires few { n ≤ 32 }
    requires callable { F.IsAlwaysCallable keep }
    ensures { (g : Option Reservation → Option Reservation) → ((x y : Option Reservation) → F.post keep x y → y ≡ g x) → rs.new ≡ reservations_by g n rs.old }
{
    for x in rs[..n as usize].iter_mut() {
        *x = keep(*x);
    }
}

// Of the reservations of the first n addresses those of q are dropped.
pub fn drop_reservations(n: u32, q: u32, rs: &mut [Option<Reservation>; 32])
    requires { n ≤ 32 }
    ensures { rs.new ≡ reservations_by (freed_if_of q) n rs.old }
{
    reservations_by(|x| freed_if_of(q, x), n, rs);
}

// A request for the address until t, when the reservations of the interaction are dropped.
#[tactic(auto, using(rules::proofs::Laws::tests), unfolding(rules::specs::Server::on_request, rules::specs::Server::grantable))]
pub fn on_request(who: ServerAt, b: Binding, matter: Matter, t: u32) -> Reaction<Binding>
    ensures { result ≡ on_request who.config who.number who.reading b matter.party matter.interaction matter.address t }
{
    if b.leads && has_passed(who.known(), who.reading, b.potlease) {
        return granted(who, b, matter, t, who.reading + who.config.mclt);
    }
    unmet(b)
}

// A renewal of the address with the old end e.
#[tactic(auto, using(rules::proofs::Laws::tests), unfolding(rules::specs::Server::on_renew))]
pub fn on_renew(who: ServerAt, b: Binding, matter: Matter, e: u32, t: u32) -> Reaction<Binding>
    ensures { result ≡ on_renew who.config who.number who.reading b matter.party matter.interaction matter.address e t }
{
    if b.leads && who.reading <= e {
        let l = b.lent.max(who.reading + who.config.mclt);
        return granted(who, b, matter, t, l);
    }
    unmet(b)
}
