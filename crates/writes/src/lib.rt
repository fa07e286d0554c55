// What a server does with a write and a write ack: c is the configuration, k the server's number, b what it keeps for the address
// that the message is about.
#![tactic(auto)]

ghost use Rattle.std.specs.Prelude.{◌≡◌, false, ◌≤◌, ◌<◌, get_or};
ghost use Rattle.rules.specs.Conditions.{all};
ghost use Rattle.rules.specs.Server.{on_write, matches_write, acknowledged as acknowledged', on_write_ack, closed as closed'};

use outbox::{done, nothing, post, reply, unmet};
use types::{Binding, Body, Config, Matter, OpenWrite, Outcome, Pending, Reaction};

// The sender asks that the end v is recorded, and is told that it is.
#[tactic(auto, unfolding(rules::specs::Server::on_write))]
pub fn on_write(k: u32, b: Binding, matter: Matter, v: u32) -> Reaction<Binding>
    ensures { result ≡ on_write k b matter.party matter.interaction matter.address v }
{
    let ack = reply(k, matter, Body::WriteAck(matter.address, v));
    Reaction {
        after: Binding {
            potlease: b.potlease.max(v),
            ..b
        },
        outcome: Outcome::Done,
        outbox: post(nothing(), ack),
    }
}

// Whether the open write is that of q and v.
#[tactic(auto, using(rules::proofs::Laws::tests), unfolding(rules::specs::Server::matches_write))]
fn matches_write(q: u32, v: u32, x: Option<Pending>) -> bool
    ensures { result ≡ matches_write q v x }
{
    x == Some(Pending {
        interaction: q,
        end: v,
    })
}

// Whether all of the first n servers are in.
fn are_all_in(acked: [bool; 4], n: u32) -> bool
    requires { n ≤ 4 }
    ensures { result ≡ all (λ j. get_or acked j false) n }
{
    acked[..n as usize].iter().all(|x| *x)
}

// No open write.
pub fn closed() -> OpenWrite
    ensures { result ≡ closed' }
{
    OpenWrite {
        pending: None,
        acked: [false; 4],
    }
}

// What is kept when the write of q and v has these acks. A clause here and below, and no `InRange`: no more is asked of the
// configuration.
#[tactic(auto, unfolding(rules::specs::Server::acknowledged))]
fn acknowledged(c: Config, b: Binding, q: u32, v: u32, acked: [bool; 4]) -> Binding
    requires { c.servers ≤ 4 }
    ensures { result ≡ acknowledged' c b q v acked }
{
    if are_all_in(acked, c.servers) {
        return Binding {
            lent: b.lent.max(v),
            write: closed(),
            ..b
        };
    }
    let asked = Pending {
        interaction: q,
        end: v,
    };
    Binding {
        write: OpenWrite {
            pending: Some(asked),
            acked,
        },
        ..b
    }
}

// The sender says that it recorded the end v.
#[tactic(auto, using(rules::proofs::Laws::tests), unfolding(rules::specs::Server::on_write_ack))]
pub fn on_write_ack(c: Config, b: Binding, matter: Matter, v: u32) -> Reaction<Binding>
    requires { (c.servers ≤ 4) × (matter.party < 4) }
    ensures { result ≡ on_write_ack c b matter.party matter.interaction v }
{
    let q = matter.interaction;
    let met = b.leads && matches_write(q, v, b.write.pending);
    if !met {
        return unmet(b);
    }
    let mut acked = b.write.acked;
    acked[matter.party as usize] = true;
    done(acknowledged(c, b, q, v, acked))
}
