// The data of document 01, what a step says and does, and what the parties answer.
// A comment names the term of the paper where it differs.
#![tactic(auto)]

ghost use Rattle.std.specs.Prelude.{◌≡◌};
ghost use Rattle.types.specs.Numbers.{outcome_number, refusal_number};
ghost use Rattle.types.specs.Rows.{config_from, config_row, step_from, step_row};

// The last true time.
pub const LAST_TIME: u32 = 1000000000;

// The last clock reading: a clock is ahead by 1,000 at most.
pub const LAST_READING: u32 = 1000001000;

// The last end, wanted end τ or record.
pub const LAST_END: u32 = 2000000000;

// The last interaction number κ used.
pub const LAST_INTERACTION: u32 = 1000000;

// The number after it, which the next interaction is when none is left.
pub const AFTER_LAST: u32 = 1000001;

// The most messages that may wait.
pub const MOST_WAITING: u32 = 128;

// The configuration: how many there are of each, and the four times.
#[derive(Clone, Copy, Default)]
pub struct Config {
    // S
    pub servers: u32,
    // C
    pub clients: u32,
    // A
    pub addresses: u32,
    // Δ, the most by which a clock is off
    pub skew: u32,
    // ν, the notice bound: the longest time without a notice
    pub detection: u32,
    // μ, the short lease: the maximum client lead time
    pub mclt: u32,
    // θ, the reservation time
    pub retention: u32,
}

// The seven numbers, in the order of document 01.
impl From<[u32; 7]> for Config {
    ghost from_gives = { λ xs c. c ≡ config_from xs };

    fn from(xs: [u32; 7]) -> Config {
        let [
            servers,
            clients,
            addresses,
            skew,
            detection,
            mclt,
            retention,
        ] = xs;
        Config {
            servers,
            clients,
            addresses,
            skew,
            detection,
            mclt,
            retention,
        }
    }
}

impl From<Config> for [u32; 7] {
    ghost from_gives = { λ c xs. xs ≡ config_row c };

    fn from(c: Config) -> [u32; 7] {
        [
            c.servers,
            c.clients,
            c.addresses,
            c.skew,
            c.detection,
            c.mclt,
            c.retention,
        ]
    }
}

// The interaction κ in which an address was reserved, and the clock reading then.
#[derive(Clone, Copy, PartialEq, Eq)]
pub struct Reservation {
    pub interaction: u32,
    pub reading: u32,
}

// The interaction κ of a write, and the end v that the other servers are asked to record.
#[derive(Clone, Copy, PartialEq, Eq)]
pub struct Pending {
    pub interaction: u32,
    pub end: u32,
}

// The open write, if there is one, and the servers that acknowledged it. These stand beside it: a facade handed in may name some
// where no write is open.
#[derive(Clone, Copy)]
pub struct OpenWrite {
    pub pending: Option<Pending>,
    pub acked: [bool; 4],
}

#[derive(Clone, Copy)]
pub struct Server {
    pub alive: bool,
    // c, the true time of the last change
    pub changed: u32,
    // the clock reading at the last return
    pub returned: u32,
    // the servers believed live
    pub believed: [bool; 4],
    // for each address: whether it leads, its reservation, the lent end (acklease),
    // the record (potlease) and the open write; side by side, and not one array of bindings, since document 01 names that form
    pub leads: [bool; 32],
    pub reserved: [Option<Reservation>; 32],
    pub lent: [u32; 32],
    pub potlease: [u32; 32],
    pub writes: [OpenWrite; 32],
}

// What a server keeps for one address, in the terms of DHCP a binding.
#[derive(Clone, Copy)]
pub struct Binding {
    pub leads: bool,
    pub reserved: Option<Reservation>,
    // the lent end (acklease)
    pub lent: u32,
    // the record
    pub potlease: u32,
    pub write: OpenWrite,
}

#[derive(Clone, Copy)]
pub enum State {
    Idle,
    // κ
    Asking(u32),
    // κ, address
    Offered(u32, u32),
    // κ, address
    Waiting(u32, u32),
    // address, end, κ last used
    Holding(u32, u32, u32),
}

#[derive(Clone, Copy)]
pub struct Client {
    pub state: State,
}

// What a message says besides its parties and κ.
#[derive(Clone, Copy)]
pub enum Body {
    // no message: what an unused place holds; no `Option`, since document 01 names the array of messages
    Empty,
    Discover,
    // address
    Offer(u32),
    // address, wanted end τ
    Request(u32, u32),
    // address, old end, wanted end τ
    Renew(u32, u32, u32),
    // address, end v
    Write(u32, u32),
    // address, end v
    WriteAck(u32, u32),
    // address, end
    Ack(u32, u32),
}

// Sender and receiver are party numbers: the servers come first, and client i is party S + i.
#[derive(Clone, Copy)]
pub struct Message {
    pub sender: u32,
    pub receiver: u32,
    // κ
    pub interaction: u32,
    pub body: Body,
}

// What a message is about to the server that handles it: who sent it, in which interaction, and the address.
#[derive(Clone, Copy)]
pub struct Matter {
    pub party: u32,
    // κ
    pub interaction: u32,
    pub address: u32,
}

// Each array has as many places as there may be, since there is no heap.
#[derive(Clone, Copy)]
pub struct Facade {
    pub config: Config,
    // true time
    pub time: u32,
    // the next interaction number κ
    pub next: u32,
    // for each party, the signed amount by which its clock is ahead; beside the servers and clients, since a pass names a party
    pub offsets: [i32; 36],
    pub servers: [Server; 4],
    // the true time of the last notice that server k had about server j, at [k][j]
    pub notices: [[u32; 4]; 4],
    pub clients: [Client; 32],
    // in the order sent; those from `waiting` on are no part of the facade. An array and a count: document 01 names that form
    pub messages: [Message; 128],
    pub waiting: u32,
}

// A step: the kind number decides it, and its fields follow in the paper's order.
// A step with fewer fields leaves the others unread. The kind is a number, and no enum, since document 01 names that form.
#[derive(Clone, Copy)]
pub struct Step {
    pub kind: u32,
    pub first: u32,
    pub second: u32,
    pub third: u32,
}

// A row of four numbers: kind and fields.
impl From<[u32; 4]> for Step {
    ghost from_gives = { λ xs s. s ≡ step_from xs };

    fn from(xs: [u32; 4]) -> Step {
        let [kind, first, second, third] = xs;
        Step {
            kind,
            first,
            second,
            third,
        }
    }
}

impl From<Step> for [u32; 4] {
    ghost from_gives = { λ s xs. xs ≡ step_row s };

    fn from(s: Step) -> [u32; 4] {
        [s.kind, s.first, s.second, s.third]
    }
}

// What a step says: its kind, with the fields that the kind has. `Unknown` is every other kind, and no `None`, since rule 4 judges it
// as rule 5 does the others. `says` and `keep` are numbers, as a record has them, since rule 5 judges them; a `bool` further on would
// ask more of callers, who may hand on any number.
#[derive(Clone, Copy)]
pub enum Action {
    // d, party, e
    Pass(u32, u32, i32),
    // server
    Fail(u32),
    // server
    Return(u32),
    // server, about, says
    Notice(u32, u32, u32),
    // client
    Discover(u32),
    // client, wanted end τ
    Request(u32, u32),
    // client, wanted end τ
    Renew(u32, u32),
    // position, keep
    Deliver(u32, u32),
    // position
    Lose(u32),
    // server
    Cleanup(u32),
    Unknown,
}

// What happens to a server.
#[derive(Clone, Copy)]
pub enum ServerEvent {
    Fails,
    Returns,
    // about, says
    Notices(u32, u32),
    Receives(Message),
    CleansUp,
}

// What a client does or hears.
#[derive(Clone, Copy)]
pub enum ClientEvent {
    Discovers,
    // wanted end τ
    Requests(u32),
    // wanted end τ
    Renews(u32),
    Hears(Message),
}

// What happens in a step that is not refused, besides that a message may be taken out.
#[derive(Clone, Copy)]
pub enum Deed {
    // nothing
    Rests,
    // true time goes on by d, and the clock of a party by e more
    Passes(u32, u32, i32),
    // to a server
    Serves(u32, ServerEvent),
    // to a client
    Asks(u32, ClientEvent),
}

// What a party sends: the first `count` messages, in order. There is no heap for a `Vec`, and definitions say what each of the four
// places holds, as the flat form has them. That `count` is at most four is no ghost field: `post` and `to_others` take outboxes that
// come to count five.
#[derive(Clone, Copy)]
pub struct Outbox {
    pub count: u32,
    pub messages: [Message; 4],
}

// What came of what a party was told: it is done, a condition is not met, or the receiver is dead.
#[derive(Clone, Copy, PartialEq, Eq)]
pub enum Outcome {
    Done,
    Unmet,
    Dead,
}

impl From<Outcome> for u32 {
    ghost from_gives = { λ x n. n ≡ outcome_number x };

    fn from(outcome: Outcome) -> u32 {
        outcome as u32
    }
}

// The refusals, in the order of document 01.
#[derive(Clone, Copy, PartialEq, Eq)]
pub enum Refusal {
    // the script is too short, too long or of another version
    NoScript = 1,
    // a number of a configuration or of a facade handed in is outside its range
    OutOfRange,
    // a record has no length, runs past the end, or has another length than its kind
    NoRecord,
    UnknownKind,
    FieldOutOfRange,
    // a party, server, client or position that is named does not exist, or a notice is about its own receiver
    DoesNotExist,
    WrongState,
    // true time would pass the last
    NoTimeLeft,
    // a clock would go back, or be off by more than Δ
    ClockOff,
    // a live server would be more than ν without a notice about another
    OutOfTouch,
    NotCredible,
    NoInteractionLeft,
    // more messages would wait than may
    Full,
}

impl From<Refusal> for u32 {
    ghost from_gives = { λ x n. n ≡ refusal_number x };

    fn from(refusal: Refusal) -> u32 {
        refusal as u32
    }
}

// A refusal, and what is answered beside it all the same, as the fresh facade of a configuration out of range.
#[derive(Clone, Copy)]
pub struct Refused<T> {
    pub refusal: Refusal,
    pub beside: T,
}

impl<T: Copy> From<Refused<T>> for Refusal {
    ghost from_gives = { λ x n. n ≡ x.refusal };

    fn from(x: Refused<T>) -> Refusal {
        x.refusal
    }
}

// What a party, or what a server keeps for one address, is after something happened, the outcome, and what is sent. A server that is
// changed in place is no part of it: then `after` is `()`.
#[derive(Clone, Copy)]
pub struct Reaction<T> {
    pub after: T,
    pub outcome: Outcome,
    pub outbox: Outbox,
}
