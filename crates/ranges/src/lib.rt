// Refusal 2: the ranges of a configuration and of a facade handed in.
#![tactic(auto)]

ghost use Rattle.std.specs.Prelude.{◌≡◌, ◌≤◌, ◌<◌, true, false, leb, get_or, MatchResult};
ghost use Rattle.types.specs.declared.Refusal.TheVariants.{OutOfRange};
ghost use Rattle.rules.specs.Conditions.{◌and◌, is_within, all};
ghost use Rattle.rules.specs.Parts.{server_at, state_at, message_at, offset_at, offset_of, notice_in, notice_at, no_server, no_client, no_message, parties};
ghost use Rattle.rules.specs.Ranges.{config_in_range, interaction_in_range, offset_in_range, reservation_in_range, write_in_range, address_in_range, server_in_range, notice_in_range, state_in_range, is_client, body_in_range, message_in_range, in_range, last_time, last_reading, after_last, most_waiting};
ghost use Rattle.rules.proofs.Kept.{Configured};

use arith::{check, not_negative};
use std::marker::Model;
use types::{
    AFTER_LAST, Body, Client, Config, Facade, LAST_END, LAST_READING, LAST_TIME, MOST_WAITING,
    Message, Pending, Refusal, Reservation, Server, State,
};

// A configuration whose seven numbers are in range. A clause sees the configuration.
#[derive(Clone, Copy)]
pub struct InRange {
    pub config: Config,
}

impl Model for InRange {
    ghost use Rattle.types.specs.declared.Config.{Config};
    ghost use Rattle.rules.proofs.Kept.{Configured};

    ghost Value = { Config };

    ghost view = { λ a. a.config };

    ghost invariant = { λ a. Configured a.config };

    ghost inverse = { λ c. record { config = c } };
}

// A server that the configuration has, at its clock reading. For what asks for all three; a function that takes any number or any
// reading has them side by side. The configuration is no `InRange` here: a struct with such a field cannot yet be handed on and read
// after it.
#[derive(Clone, Copy)]
pub struct ServerAt {
    pub config: Config,
    pub number: u32,
    pub reading: u32,
    ghost in_range: { Configured config },
    ghost exists: { number < config.servers },
    ghost timely: { reading ≤ last_reading },
}

impl ServerAt {
    // Its configuration, which is in range.
    pub fn known(self) -> InRange
        ensures { result ≡ self.config }
    {
        InRange {
            config: self.config,
        }
    }
}

// A client that the configuration has.
#[derive(Clone, Copy)]
pub struct ClientOf {
    pub config: Config,
    pub number: u32,
    ghost in_range: { Configured config },
    ghost exists: { number < config.clients },
}

// Whether the numbers of servers, clients and addresses are in range. At two tests by `contains` in a row the search gives up.
#[tactic(auto, using(rules::proofs::Laws::tests), unfolding(rules::specs::Conditions::is_within))]
fn counts_in_range(c: Config) -> bool
    ensures { result ≡ (is_within 2 4 c.servers and is_within 1 32 c.clients and is_within 1 32 c.addresses) }
{
    2 <= c.servers
        && c.servers <= 4
        && 1 <= c.clients
        && c.clients <= 32
        && 1 <= c.addresses
        && c.addresses <= 32
}

// Whether the four times are.
#[tactic(auto, using(rules::proofs::Laws::tests), unfolding(rules::specs::Conditions::is_within))]
fn times_in_range(c: Config) -> bool
    ensures { result ≡ (leb c.skew 1000 and is_within 1 10000 c.detection and is_within 1 1000000 c.mclt and leb c.retention 1000000) }
{
    c.skew <= 1000
        && 1 <= c.detection
        && c.detection <= 10000
        && 1 <= c.mclt
        && c.mclt <= 1000000
        && c.retention <= 1000000
}

// Whether the seven numbers of a configuration are in range. In two parts: at twelve tests in a row the search gives up.
#[tactic(auto, using(rules::proofs::Laws::tests, crate::proofs::Laws::grouped), unfolding(rules::specs::Ranges::config_in_range))]
pub fn config_in_range(c: Config) -> bool
    ensures { result ≡ config_in_range c }
{
    counts_in_range(c) && times_in_range(c)
}

// That configuration as one in range, or refusal 2.
#[tactic(auto, using(crate::proofs::Laws::told))]
pub fn checked(c: Config) -> Result<InRange, Refusal>
    ensures { MatchResult result (λ x. (x ≡ c) × (config_in_range c ≡ true)) (λ n. (n ≡ OutOfRange) × (config_in_range c ≡ false)) }
{
    check(config_in_range(c), Refusal::OutOfRange)?;
    Ok(InRange { config: c })
}

// A stored interaction number q, where n is the next one.
#[tactic(auto, using(rules::proofs::Laws::tests), unfolding(rules::specs::Ranges::interaction_in_range))]
pub fn interaction_in_range(n: u32, q: u32) -> bool
    ensures { result ≡ interaction_in_range n q }
{
    1 <= q && q < n
}

// An offset at true time t.
#[tactic(auto, using(rules::proofs::Laws::tests), unfolding(rules::specs::Ranges::offset_in_range))]
fn offset_in_range(c: Config, t: u32, o: i32) -> bool
    ensures { result ≡ offset_in_range c t o }
{
    o.unsigned_abs() <= c.skew && not_negative(t, o)
}

// This and the next share one call, and are a line each.
#[tactic(auto, using(rules::proofs::Laws::tests), unfolding(rules::specs::Ranges::reservation_in_range))]
fn reservation_in_range(n: u32, x: Option<Reservation>) -> bool
    ensures { result ≡ reservation_in_range n x }
{
    x.is_none_or(|x| interaction_in_range(n, x.interaction) && x.reading <= LAST_READING)
}

#[tactic(auto, using(rules::proofs::Laws::tests), unfolding(rules::specs::Ranges::write_in_range))]
fn write_in_range(n: u32, x: Option<Pending>) -> bool
    ensures { result ≡ write_in_range n x }
{
    x.is_none_or(|x| interaction_in_range(n, x.interaction) && x.end <= LAST_END)
}

// What a server stores for address a.
#[tactic(auto, using(rules::proofs::Laws::tests), unfolding(rules::specs::Ranges::address_in_range))]
fn address_in_range(n: u32, s: Server, a: u32) -> bool
    requires { a < 32 }
    ensures { result ≡ address_in_range n s a }
{
    let at = a as usize;
    reservation_in_range(n, s.reserved[at])
        && s.lent[at] <= LAST_END
        && s.potlease[at] <= LAST_END
        && write_in_range(n, s.writes[at].pending)
}

// A clause here and below, and no `InRange`: no more is asked of the configuration.
fn addresses_in_range(c: Config, n: u32, s: Server) -> bool
    requires { c.addresses ≤ 32 }
    ensures { result ≡ all (address_in_range n s) c.addresses }
{
    (0..c.addresses).all(|a| address_in_range(n, s, a))
}

// A server's value at true time t, where n is the next interaction.
#[tactic(auto, using(rules::proofs::Laws::tests), unfolding(rules::specs::Ranges::server_in_range))]
pub fn server_in_range(c: Config, t: u32, n: u32, s: Server) -> bool
    requires { c.addresses ≤ 32 }
    ensures { result ≡ server_in_range c t n s }
{
    s.changed <= t && s.returned <= LAST_READING && addresses_in_range(c, n, s)
}

#[tactic(auto, using(rules::proofs::Laws::tests), unfolding(rules::specs::Ranges::state_in_range))]
pub fn state_in_range(c: Config, n: u32, x: State) -> bool
    ensures { result ≡ state_in_range c n x }
{
    match x {
        State::Idle => true,
        State::Asking(q) => interaction_in_range(n, q),
        State::Offered(q, a) | State::Waiting(q, a) => interaction_in_range(n, q)
            && a < c.addresses,
        State::Holding(a, e, q) => a < c.addresses && e <= LAST_END && interaction_in_range(n, q),
    }
}

// Whether party p is a client.
#[tactic(auto, using(rules::proofs::Laws::tests), unfolding(rules::specs::Ranges::is_client))]
fn is_client(c: InRange, p: u32) -> bool
    ensures { result ≡ is_client c p }
{
    c.config.servers <= p && p < c.config.servers + c.config.clients
}

// The parties and numbers of a message, as its type has them.
#[tactic(auto, using(rules::proofs::Laws::tests), unfolding(rules::specs::Ranges::body_in_range))]
fn body_in_range(c: InRange, from: u32, to: u32, body: Body) -> bool
    ensures { result ≡ body_in_range c from to body }
{
    let n = c.config.addresses;
    let by_server = from < c.config.servers;
    let to_server = to < c.config.servers;
    let by_client = is_client(c, from);
    let to_client = is_client(c, to);
    match body {
        Body::Empty => false,
        Body::Discover => by_client && to_server,
        Body::Offer(a) => by_server && to_client && a < n,
        Body::Request(a, t) => by_client && to_server && a < n && t <= LAST_END,
        Body::Renew(a, e, t) => {
            by_client && to_server && a < n && e <= LAST_END && t <= LAST_END
        }
        Body::Write(a, v) | Body::WriteAck(a, v) => {
            by_server && to_server && a < n && v <= LAST_END
        }
        Body::Ack(a, e) => by_server && to_client && a < n && e <= LAST_END,
    }
}

#[tactic(auto, using(rules::proofs::Laws::tests), unfolding(rules::specs::Ranges::message_in_range))]
pub fn message_in_range(c: InRange, n: u32, m: Message) -> bool
    ensures { result ≡ message_in_range c n m }
{
    interaction_in_range(n, m.interaction) && body_in_range(c, m.sender, m.receiver, m.body)
}

// These and the clients and messages below are a chain each: one function over a test would promise in more words what they say.
fn offsets_in_range(c: InRange, t: u32, os: &[i32; 36]) -> bool
    ensures { result ≡ all (λ p. offset_in_range c t (offset_of os.now p)) (parties c) }
{
    let count = (c.config.servers + c.config.clients) as usize;
    os[..count].iter().all(|o| offset_in_range(c.config, t, *o))
}

fn servers_in_range(c: InRange, t: u32, n: u32, ss: &[Server; 4]) -> bool
    ensures { result ≡ all (λ k. server_in_range c t n (get_or ss.now k no_server)) c.servers }
{
    let count = c.config.servers as usize;
    ss[..count]
        .iter()
        .all(|s| server_in_range(c.config, t, n, *s))
}

// The time h of the last notice that server k had about server j.
#[tactic(auto, using(rules::proofs::Laws::tests), unfolding(rules::specs::Ranges::notice_in_range))]
fn notice_in_range(t: u32, k: usize, j: usize, h: u32) -> bool
    ensures { result ≡ notice_in_range t k j h }
{
    j == k || h <= t
}

// The notice times of server k.
fn row_in_range(c: InRange, t: u32, k: usize, row: &[u32; 4]) -> bool
    ensures { result ≡ all (λ j. notice_in_range t k j (get_or row.now j 0)) c.servers }
{
    let count = c.config.servers as usize;
    row[..count]
        .iter()
        .enumerate()
        .all(|(j, h)| notice_in_range(t, k, j, *h))
}

fn notices_in_range(c: InRange, t: u32, ts: &[[u32; 4]; 4]) -> bool
    ensures { result ≡ all (λ k. all (λ j. notice_in_range t k j (notice_in ts.now k j)) c.servers) c.servers }
{
    let count = c.config.servers as usize;
    ts[..count]
        .iter()
        .enumerate()
        .all(|(k, row)| row_in_range(c, t, k, row))
}

fn clients_in_range(c: InRange, n: u32, ys: &[Client; 32]) -> bool
    ensures { result ≡ all (λ i. state_in_range c n (get_or ys.now i no_client).state) c.clients }
{
    let count = c.config.clients as usize;
    ys[..count]
        .iter()
        .all(|y| state_in_range(c.config, n, y.state))
}

fn messages_in_range(c: InRange, n: u32, waiting: u32, ms: &[Message; 128]) -> bool
    requires { waiting ≤ 128 }
    ensures { result ≡ all (λ p. message_in_range c n (get_or ms.now p no_message)) waiting }
{
    let count = waiting as usize;
    ms[..count].iter().all(|m| message_in_range(c, n, *m))
}

// The places of a facade: the offsets, servers, notices, clients and messages. Its configuration becomes an `InRange` here, so that
// it is in range is a clause.
#[tactic(auto, using(rules::proofs::Laws::tests))]
fn places_in_range(f: &Facade) -> bool
    requires { Configured f.now.config × (f.now.waiting ≤ 128) }
    ensures { result ≡ (all (λ p. offset_in_range f.now.config f.now.time (offset_at f.now p)) (parties f.now.config)
        and all (λ k. server_in_range f.now.config f.now.time f.now.next (server_at f.now k)) f.now.config.servers
        and all (λ k. all (λ j. notice_in_range f.now.time k j (notice_at f.now k j)) f.now.config.servers) f.now.config.servers
        and all (λ i. state_in_range f.now.config f.now.next (state_at f.now i)) f.now.config.clients
        and all (λ p. message_in_range f.now.config f.now.next (message_at f.now p)) f.now.waiting) }
{
    let c = InRange { config: f.config };
    offsets_in_range(c, f.time, &f.offsets)
        && servers_in_range(c, f.time, f.next, &f.servers)
        && notices_in_range(c, f.time, &f.notices)
        && clients_in_range(c, f.next, &f.clients)
        && messages_in_range(c, f.next, f.waiting, &f.messages)
}

// Whether true time, the next interaction and the waiting count are in range.
#[tactic(auto, using(rules::proofs::Laws::tests), unfolding(rules::specs::Conditions::is_within))]
fn numbers_in_range(f: &Facade) -> bool
    ensures { result ≡ (leb f.now.time last_time and is_within 1 after_last f.now.next and leb f.now.waiting most_waiting) }
{
    f.time <= LAST_TIME && (1..=AFTER_LAST).contains(&f.next) && f.waiting <= MOST_WAITING
}

// Whether every number of a facade is in its range.
#[tactic(auto, using(rules::proofs::Laws::tests, crate::proofs::Laws::told, crate::proofs::Laws::waiting_told, crate::proofs::Laws::grouped), unfolding(rules::specs::Ranges::in_range))]
pub fn in_range(f: &Facade) -> bool
    ensures { result ≡ in_range f.now }
{
    config_in_range(f.config) && numbers_in_range(f) && places_in_range(f)
}
