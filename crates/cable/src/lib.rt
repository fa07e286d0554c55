// The waiting messages of a facade, in the order sent: one is taken out, and what a step sends waits behind the rest. That at most
// 128 wait, that a position is one of theirs and that at most four are sent stand in clauses: each is so of a facade and an outbox
// as they are then, and one handed in may count anything.
#![tactic(auto)]

ghost use Rattle.std.specs.Prelude.{◌≡◌, ◌≤◌, ◌<◌, T, IfSome};
ghost use Rattle.rules.specs.Messages.{removed, sent_behind, send_all};
ghost use Rattle.cable.specs.Exchange.{rest_of, waiting_then, room_for, taken_from};

use types::{Facade, MOST_WAITING, Message, Outbox};

// How many of n waiting messages stay, where one is taken out if `taken`.
pub fn rest_of(n: u32, taken: bool) -> u32
    requires { T taken → 1 ≤ n }
    ensures { result ≡ rest_of n taken }
{
    if taken { n - 1 } else { n }
}

// How many of them wait then, where so many more are sent.
fn waiting_then(n: u32, taken: bool, count: u32) -> u32
    requires { (n ≤ 128) × (count ≤ 4) × (T taken → 1 ≤ n) }
    ensures { result ≡ waiting_then n taken count }
{
    rest_of(n, taken) + count
}

// Whether so many more find room, where one of n waiting messages is taken out first if `taken`.
pub fn room_for(n: u32, taken: bool, count: u32) -> bool
    requires { (n ≤ 128) × (count ≤ 4) × (T taken → 1 ≤ n) }
    ensures { result ≡ room_for n taken count }
{
    waiting_then(n, taken, count) <= MOST_WAITING
}

// Of n waiting messages that at p is taken out: those behind it move up, and the last place is emptied.
#[tactic(auto, using(crate::proofs::Laws::moved_up))]
fn take_out(ms: &mut [Message; 128], p: u32, n: u32)
    requires { (p < n) × (n ≤ 128) }
    ensures { ms.new ≡ removed ms.old p n }
{
    let at = p as usize;
    let end = n as usize;
    let none = outbox::no_message();
    ms.copy_within(at + 1..end, at);
    ms[end - 1] = none;
}

// What o holds waits behind the w messages that wait. What there is no room for is dropped; refusal 13 stands before. Each message
// has its own test: `copy_from_slice` of those that find room takes two bounds more, for the first place and for how many fit, and
// over `skip` and `zip` the check leaves three goals to prove.
#[tactic(auto, using(crate::proofs::Laws::sent_more, crate::proofs::Laws::sent_full), unfolding(rules::specs::Messages::sent_behind))]
fn put_behind(ms: &mut [Message; 128], w: u32, o: &Outbox)
    requires { o.now.count ≤ 4 }
    ensures { ms.new ≡ sent_behind ms.old w o.now o.now.count }
{
    for k in 0..o.count as usize {
        let at = w as usize + k;
        if at < ms.len() {
            ms[at] = o.messages[k];
        }
    }
}

// The message at the position that is named, if one is, is taken out.
#[tactic(auto, unfolding(crate::specs::Exchange::taken_from))]
pub fn take_from(f: &mut Facade, taken: Option<u32>)
    requires { (f.old.waiting ≤ 128) × IfSome taken (λ p. p < f.old.waiting) }
    ensures { f.new ≡ taken_from f.old taken }
{
    if let Some(p) = taken {
        let n = f.waiting;
        take_out(&mut f.messages, p, n);
        f.waiting = n - 1;
    }
}

// What o holds waits behind the others.
pub fn send_all(f: &mut Facade, o: &Outbox)
    requires { (f.old.waiting ≤ 128) × (o.now.count ≤ 4) }
    ensures { f.new ≡ send_all f.old o.now }
{
    let n = f.waiting;
    put_behind(&mut f.messages, n, o);
    f.waiting = n + o.count;
}
