// What a party sends: an outbox of at most four messages, in the order sent. And what it answers where it sends nothing.
#![tactic(auto)]

ghost use Rattle.std.specs.Prelude.{◌≡◌, ℕ, ◌≤◌, Bool};
ghost use Rattle.types.specs.declared.Outcome.TheVariants.{Done, Unmet};
ghost use Rattle.rules.specs.Parts.{message, no_message};
ghost use Rattle.rules.specs.Messages.{nothing as nothing', answer, post as post', to_servers, to_each, to_others};

use types::{Body, Matter, Message, Outbox, Outcome, Reaction};

// No message: what an unused place holds.
pub fn no_message() -> Message
    ensures { result ≡ no_message }
{
    Message {
        sender: 0,
        receiver: 0,
        interaction: 0,
        body: Body::Empty,
    }
}

// What server k says to the sender of a message, in the interaction of that.
pub fn reply(k: u32, matter: Matter, body: Body) -> Message
    ensures { result ≡ message k matter.party matter.interaction body }
{
    Message {
        sender: k,
        receiver: matter.party,
        interaction: matter.interaction,
        body,
    }
}

pub fn nothing() -> Outbox
    ensures { result ≡ nothing' }
{
    Outbox {
        count: 0,
        messages: [no_message(); 4],
    }
}

// What a party is when something is done, with nothing sent.
pub fn done<T>(x: T) -> Reaction<T>
    ensures { result ≡ answer x Done nothing' }
{
    Reaction {
        after: x,
        outcome: Outcome::Done,
        outbox: nothing(),
    }
}

// What it is when a condition is not met: as it was, with nothing sent.
pub fn unmet<T>(x: T) -> Reaction<T>
    ensures { result ≡ answer x Unmet nothing' }
{
    Reaction {
        after: x,
        outcome: Outcome::Unmet,
        outbox: nothing(),
    }
}

// One message more. There is room for four; servers send to the three others and one client.
pub fn post(o: Outbox, m: Message) -> Outbox
    requires { o.count ≤ 4 }
    ensures { result ≡ post' o m }
{
    let mut out = o;
    if o.count < 4 {
        out.messages[o.count as usize] = m;
    }
    out.count += 1;
    out
}

// After what o holds, the message m to each of n servers that is not left out, in order.
fn to_servers<F: Fn(u32) -> bool>(left_out: F, m: Message, n: u32, o: Outbox) -> Outbox
    requires few { (n ≤ 4) × (o.count ≤ 1) }
    requires callable { F.IsAlwaysCallable left_out }
    ensures { (g : ℕ → Bool) → ((x : ℕ) (y : Bool) → F.post left_out x y → y ≡ g x) → result ≡ to_servers g (λ j. message m.sender j m.interaction m.body) n o }
{
    let mut out = o;
    for j in 0..n {
        if !left_out(j) {
            out = post(out, Message { receiver: j, ..m });
        }
    }
    out
}

// The message m to each of n servers, in order, and nothing else.
pub fn to_each(m: Message, n: u32) -> Outbox
    requires { n ≤ 4 }
    ensures { result ≡ to_each (λ j. message m.sender j m.interaction m.body) n nothing' }
{
    to_servers(|_| false, m, n, nothing())
}

// After what o holds, the message m to each of n servers other than k, in order.
pub fn to_others(k: u32, m: Message, n: u32, o: Outbox) -> Outbox
    requires { (n ≤ 4) × (o.count ≤ 1) }
    ensures { result ≡ to_others k (λ j. message m.sender j m.interaction m.body) n o }
{
    to_servers(|j| j == k, m, n, o)
}
