// What the firmware of one server, or of one client, calls. Nothing is trusted: what is refused changes and sends nothing.
#![tactic(auto)]

ghost use Rattle.std.specs.Prelude.{◌≡◌, ◌≤◌, ◌<◌, Bool, true, false, ltb, MatchResult, IfOk, T};
ghost use Rattle.types.specs.declared.Config.{Config};
ghost use Rattle.types.specs.declared.Refusal.TheVariants.{OutOfRange, DoesNotExist};
ghost use Rattle.types.specs.Numbers.{refusal_of};
ghost use Rattle.rules.specs.Conditions.{◌and◌, unless};
ghost use Rattle.rules.specs.Ranges.{config_in_range, reading_in_range, server_in_range, state_in_range, last_time, after_last, last_reading, body_in_range, is_server};
ghost use Rattle.rules.specs.Server.{noticed as noticed'};
ghost use Rattle.device.specs.Device.{message_fits, reply_of, device_receives, device_noticed, device_returned, device_cleaned, device_hears, device_discovers, device_requests, device_renews, device_lapses};

use arith::check;
use client::{is_holding, is_offered};
use decisions::client_barred;
use outbox::done;
use ranges::{
    ClientOf, InRange, ServerAt, checked, message_in_range, server_in_range, state_in_range,
};
use steps::malformed;
use types::{
    AFTER_LAST, Action, Client, Config, LAST_INTERACTION, LAST_READING, LAST_TIME, Message,
    Reaction, Refusal, Server,
};

// A server or a client as firmware hands it in: its configuration, its number and clock reading in it, and its own value.
#[derive(Clone, Copy)]
pub struct Device<P> {
    pub config: Config,
    pub number: u32,
    pub reading: u32,
    pub value: P,
}

// What a device is: a server or a client. It knows neither true time nor the next interaction, so the widest bounds are taken.
trait Party {
    ghost fits: { Config → Self → Bool };

    fn is_in_range(&self, c: InRange) -> bool
        ensures { result ≡ fits c self.now };
}

impl Party for Server {
    ghost fits = { λ c s. server_in_range c last_time after_last s };

    fn is_in_range(&self, c: InRange) -> bool {
        server_in_range(c.config, LAST_TIME, AFTER_LAST, *self)
    }
}

impl Party for Client {
    ghost fits = { λ c y. state_in_range c after_last y.state };

    fn is_in_range(&self, c: InRange) -> bool {
        state_in_range(c.config, AFTER_LAST, self.state)
    }
}

// The configuration as one in range, or refusal 2 where a number of the device is out of range.
#[tactic(auto, using(rules::proofs::Laws::tests))]
fn check_device<P: Party>(d: &Device<P>) -> Result<InRange, Refusal>
    ensures { MatchResult result (λ x. (x ≡ d.now.config) × ((config_in_range d.now.config and reading_in_range d.now.reading and P.fits d.now.config d.now.value) ≡ true) × (d.now.reading ≤ last_reading)) (λ n. (n ≡ OutOfRange) × ((config_in_range d.now.config and reading_in_range d.now.reading and P.fits d.now.config d.now.value) ≡ false)) }
{
    let c = checked(d.config)?;
    check(d.reading <= LAST_READING, Refusal::OutOfRange)?;
    check(d.value.is_in_range(c), Refusal::OutOfRange)?;
    Ok(c)
}

// Refusal 2 where m is not in range, or not for party p. The number of a client may be any, so that of its party may pass 32 bits.
#[tactic(auto, using(rules::proofs::Laws::tests), unfolding(crate::specs::Device::message_fits, rules::specs::Ranges::message_in_range))]
fn check_message(c: InRange, p: u64, m: Message) -> Result<(), Refusal>
    ensures { MatchResult result (λ _. (message_fits c p m ≡ true) × T (body_in_range c m.sender p m.body)) (λ n. (n ≡ OutOfRange) × (message_fits c p m ≡ false)) }
{
    check(
        u64::from(m.receiver) == p && message_in_range(c, AFTER_LAST, m),
        Refusal::OutOfRange,
    )
}

// Server k at its clock reading r, or refusal 6 where there is none.
fn checked_server(c: InRange, k: u32, r: u32) -> Result<ServerAt, Refusal>
    requires { r ≤ last_reading }
    ensures { MatchResult result (λ w. (w.config ≡ c) × (w.number ≡ k) × (w.reading ≡ r) × (is_server c k ≡ true)) (λ n. (n ≡ DoesNotExist) × (is_server c k ≡ false)) }
{
    check(k < c.config.servers, Refusal::DoesNotExist)?;
    Ok(ServerAt {
        config: c.config,
        number: k,
        reading: r,
    })
}

// Client i, or the refusals 6, 7 and 12 of a step of it.
#[tactic(auto, unfolding(rules::specs::Conditions::unless))]
fn client_of(c: InRange, i: u32, allowed: bool, left: bool) -> Result<ClientOf, Refusal>
    ensures refusal { refusal_of result ≡ unless (ltb i c.clients) 6 (unless allowed 7 (unless left 12 0)) }
    ensures client { IfOk result (λ w. (w.config ≡ c) × (w.number ≡ i)) }
{
    client_barred(c.config, i, allowed, left)?;
    Ok(ClientOf {
        config: c.config,
        number: i,
    })
}

// A message comes to the server.
#[tactic(auto, using(rules::proofs::Laws::tests), unfolding(rules::specs::Conditions::unless, crate::specs::Device::own_refusal, crate::specs::Device::guarded, crate::specs::Device::server_fits, crate::specs::Device::device_receives))]
pub fn device_receives(d: Device<Server>, m: Message) -> Result<Reaction<Server>, Refusal>
    ensures { reply_of d.value result ≡ device_receives d.config d.number d.reading d.value m }
{
    let c = check_device(&d)?;
    check_message(c, u64::from(d.number), m)?;
    let who = checked_server(c, d.number, d.reading)?;
    let mut s = d.value;
    let x = server::server_receives(who, &mut s, m);
    Ok(Reaction {
        after: s,
        outcome: x.outcome,
        outbox: x.outbox,
    })
}

// What the server is after a notice. Apart from the tests that stand before it: in one function the check leaves a goal to prove.
fn noticed(who: ServerAt, s: Server, about: u32, says: u32) -> Reaction<Server>
    requires { about < who.config.servers }
    ensures { result ≡ noticed' who.config who.number who.reading s about says }
{
    let mut t = s;
    server::noticed(who, &mut t, about, says);
    done(t)
}

// A notice: server `about` is dead (0) or alive (1).
#[tactic(auto, using(rules::proofs::Laws::tests, crate::proofs::Laws::not_none), unfolding(rules::specs::Conditions::unless, rules::specs::Steps::malformed, rules::specs::Steps::is_known, rules::specs::Steps::fields_in_range, rules::specs::Steps::exists, rules::specs::Steps::state_allows, rules::specs::Steps::interaction_left, crate::specs::Device::device_refusal, crate::specs::Device::guarded, crate::specs::Device::server_fits, crate::specs::Device::device_noticed))]
pub fn device_noticed(d: Device<Server>, about: u32, says: u32) -> Result<Reaction<Server>, Refusal>
    ensures { reply_of d.value result ≡ device_noticed d.config d.number d.reading d.value about says }
{
    let c = check_device(&d)?;
    malformed(Action::Notice(d.number, about, says))?;
    let who = checked_server(c, d.number, d.reading)?;
    check(
        about < who.config.servers && about != who.number,
        Refusal::DoesNotExist,
    )?;
    Ok(noticed(who, d.value, about, says))
}

// The server comes back after a failure. Whether it is alive is not its own to say: `alive` stays as given.
#[tactic(auto, unfolding(rules::specs::Conditions::unless, crate::specs::Device::own_refusal, crate::specs::Device::guarded, crate::specs::Device::server_fits, crate::specs::Device::device_returned))]
pub fn device_returned(d: Device<Server>) -> Result<Reaction<Server>, Refusal>
    ensures { reply_of d.value result ≡ device_returned d.config d.number d.reading d.value }
{
    let c = check_device(&d)?;
    let who = checked_server(c, d.number, d.reading)?;
    let mut s = d.value;
    server::after_return(who.reading, &mut s);
    Ok(done(s))
}

// Old reservations are dropped.
#[tactic(auto, unfolding(rules::specs::Conditions::unless, crate::specs::Device::own_refusal, crate::specs::Device::guarded, crate::specs::Device::server_fits, crate::specs::Device::device_cleaned))]
pub fn device_cleaned(d: Device<Server>) -> Result<Reaction<Server>, Refusal>
    ensures { reply_of d.value result ≡ device_cleaned d.config d.number d.reading d.value }
{
    let c = check_device(&d)?;
    let who = checked_server(c, d.number, d.reading)?;
    let mut s = d.value;
    server::cleaned(who.known(), who.reading, &mut s);
    Ok(done(s))
}

// A message comes to the client.
#[tactic(auto, using(rules::proofs::Laws::tests), unfolding(rules::specs::Conditions::unless, crate::specs::Device::own_refusal, crate::specs::Device::guarded, crate::specs::Device::client_fits, crate::specs::Device::device_hears))]
pub fn device_hears(d: Device<Client>, m: Message) -> Result<Reaction<Client>, Refusal>
    ensures { reply_of d.value result ≡ device_hears d.config d.number d.reading d.value m }
{
    let c = check_device(&d)?;
    let party = u64::from(d.config.servers) + u64::from(d.number);
    check_message(c, party, m)?;
    check(d.number < d.config.clients, Refusal::DoesNotExist)?;
    Ok(client::client_receives(d.reading, d.value.state, m))
}

// A discover with the new interaction q.
#[tactic(auto, using(rules::proofs::Laws::tests, crate::proofs::Laws::not_none), unfolding(rules::specs::Conditions::unless, rules::specs::Steps::malformed, rules::specs::Steps::is_known, rules::specs::Steps::fields_in_range, rules::specs::Steps::exists, rules::specs::Steps::state_allows, rules::specs::Steps::interaction_left, crate::specs::Device::device_refusal, crate::specs::Device::guarded, crate::specs::Device::client_fits, crate::specs::Device::device_discovers))]
pub fn device_discovers(d: Device<Client>, q: u32) -> Result<Reaction<Client>, Refusal>
    ensures { reply_of d.value result ≡ device_discovers d.config d.number d.reading d.value q }
{
    let x = d.value.state;
    let c = check_device(&d)?;
    check(1 <= q, Refusal::OutOfRange)?;
    let who = client_of(c, d.number, !is_holding(x), q <= LAST_INTERACTION)?;
    Ok(client::discovers(who, x, q))
}

// A request with the wanted end t.
#[tactic(auto, using(crate::proofs::Laws::not_none), unfolding(rules::specs::Conditions::unless, rules::specs::Steps::malformed, rules::specs::Steps::is_known, rules::specs::Steps::fields_in_range, rules::specs::Steps::exists, rules::specs::Steps::state_allows, rules::specs::Steps::interaction_left, crate::specs::Device::device_refusal, crate::specs::Device::guarded, crate::specs::Device::client_fits, crate::specs::Device::device_requests))]
pub fn device_requests(d: Device<Client>, t: u32) -> Result<Reaction<Client>, Refusal>
    ensures { reply_of d.value result ≡ device_requests d.config d.number d.reading d.value t }
{
    let x = d.value.state;
    let c = check_device(&d)?;
    malformed(Action::Request(d.number, t))?;
    let who = client_of(c, d.number, is_offered(x), true)?;
    Ok(client::requests(who, x, t))
}

// A renewal with the wanted end t and the new interaction q.
#[tactic(auto, using(rules::proofs::Laws::tests, crate::proofs::Laws::not_none), unfolding(rules::specs::Conditions::unless, rules::specs::Steps::malformed, rules::specs::Steps::is_known, rules::specs::Steps::fields_in_range, rules::specs::Steps::exists, rules::specs::Steps::state_allows, rules::specs::Steps::interaction_left, crate::specs::Device::device_refusal, crate::specs::Device::guarded, crate::specs::Device::client_fits, crate::specs::Device::device_renews))]
pub fn device_renews(d: Device<Client>, t: u32, q: u32) -> Result<Reaction<Client>, Refusal>
    ensures { reply_of d.value result ≡ device_renews d.config d.number d.reading d.value t q }
{
    let x = d.value.state;
    let c = check_device(&d)?;
    check(1 <= q, Refusal::OutOfRange)?;
    malformed(Action::Renew(d.number, t))?;
    let who = client_of(c, d.number, is_holding(x), q <= LAST_INTERACTION)?;
    Ok(client::renews(who, x, t, q))
}

// Time passes: a hold whose end is not above the clock is over.
#[tactic(auto, unfolding(rules::specs::Conditions::unless, crate::specs::Device::own_refusal, crate::specs::Device::guarded, crate::specs::Device::client_fits, crate::specs::Device::device_lapses))]
pub fn device_lapses(d: Device<Client>) -> Result<Reaction<Client>, Refusal>
    ensures { reply_of d.value result ≡ device_lapses d.config d.number d.reading d.value }
{
    check_device(&d)?;
    check(d.number < d.config.clients, Refusal::DoesNotExist)?;
    let state = client::lapsed(d.reading, d.value.state);
    Ok(done(Client { state }))
}
