// The flat form of a facade and its parts: read from a list of numbers, put into one, and whether a list is one.
#![tactic(auto)]

ghost use Rattle.std.specs.Prelude.{◌≡◌, List, ℕ, ◌+◌, ◌*◌, ◌<◌, ◌≤◌, length, flat_map, Some};
ghost use Rattle.std.specs.Int.{w32};
ghost use Rattle.std.proofs.Common.{SFits};
ghost use Rattle.types.specs.Rows.{config_row};
ghost use Rattle.wire.specs.Numbers.{over};
ghost use Rattle.flat.specs.Blocks.{each_in, codes, IsFlat};
ghost use Rattle.flat.specs.Pages.{past, put as put'};
ghost use Rattle.flat.specs.Flat.{plain, number_in, flag_numbers, flag_in, offset_numbers, offset_in, config_in, option_numbers, option_in, reservation_numbers, reservation_in, pending_numbers, pending_in, write_numbers, write_in, server_numbers, server_in, state_numbers, state_of, client_numbers, client_in, body_numbers, body_of, message_numbers, message_in, outbox_numbers, outbox_in, facade_numbers, facade_at};
ghost use Rattle.flat.specs.Shape.{Any, Has, WriteShaped, ServerShaped, OutboxShaped, FacadeShaped};

use arith::as_signed;
use std::array;
use types::{
    Body, Client, Config, Facade, Message, OpenWrite, Outbox, Pending, Reservation, Server, State,
};
use wire::complement;

// A list, and the place in it that is read next. `read` takes a copy: with a reference what is read goes through memory, and a facade
// took 11 in a hundred more instructions.
#[derive(Clone, Copy)]
pub struct Cursor<'a> {
    pub list: &'a [u32],
    pub at: usize,
}

impl<'a> Cursor<'a> {
    // At the front of a list.
    pub fn new(list: &'a [u32]) -> Cursor<'a>
        ensures { (result.list.now ≡ list.now) × (result.at ≡ 0) }
    {
        Cursor { list, at: 0 }
    }

    pub fn next<T: Flat>(&mut self) -> T
        requires { self.old.at + T.WIDTH ≤ length self.old.list.now }
        ensures value { result ≡ T.value self.old.list.now self.old.at }
        ensures after { self.new ≡ past self.old T.WIDTH }
    {
        let x = T::read(*self);
        self.at += T::width();
        x
    }
}

// A lent list, and how much of it is put. What is put next goes behind that. A `Page` of `wire` is the same for bytes: they are not
// one struct over the type of an element, since the proofs of six crates would then name that type wherever they name a page.
#[derive(Drop)]
pub struct Page<'a> {
    pub out: &'a mut [u32],
    pub end: usize,
}

impl Page<'_> {
    // `end` and `room` follow from the clauses above them: they are what the next call needs.
    #[tactic(auto, using(crate::proofs::Pages::over_behind, crate::proofs::Laws::put_back))]
    pub fn put<T: Flat>(&mut self, x: &T)
        requires { self.old.end + T.WIDTH ≤ length self.old.out.now }
        ensures flat { IsFlat T.Shaped T.numbers T.value T.WIDTH x.now }
        ensures after { self.new ≡ put' self.old (T.numbers x.now) }
        ensures back { T.value self.new.out.now self.old.end ≡ x.now }
        ensures end { self.new.end ≡ self.old.end + T.WIDTH }
        ensures room { length self.new.out.now ≡ length self.old.out.now }
    {
        x.put(&mut self.out[self.end..]);
        self.end += T::width();
    }
}

// A type with a flat form: its values have equally many numbers.
pub trait Flat: Sized {
    ghost WIDTH: { ℕ };

    // the numbers of a value
    ghost numbers: { Self → List ℕ };

    // what a list reads as from a place on
    ghost value: { List ℕ → ℕ → Self };

    // the shape that the type gives a value: how long its arrays are, and that a signed number fits
    ghost Shaped: { Self → Type 0 };

    // How many numbers a value has. No constant: that of an array would be a product that may not fit.
    fn width() -> usize
        requires { WIDTH < 18446744073709551616 }
        ensures { result ≡ WIDTH };

    // What stands at the cursor.
    fn read(from: Cursor) -> Self
        requires { from.at + WIDTH ≤ length from.list.now }
        ensures { result ≡ value from.entry.list.now from.entry.at };

    // At the front of a list. By `flat` the value has its shape and its width, and reads back wherever its
    // numbers stand.
    fn put(&self, out: &mut [u32])
        requires { WIDTH ≤ length out.old }
        ensures flat { IsFlat Shaped numbers value WIDTH self.now }
        ensures out_after { out.new ≡ over out.old 0 (numbers self.now) };
}

#[tactic(auto, using(wire::proofs::Over::over_one, crate::proofs::Back::plain_flat))]
impl Flat for u32 {
    ghost WIDTH = { 1 };

    ghost numbers = { plain };

    ghost value = { number_in };

    ghost Shaped = { Any };

    fn width() -> usize {
        1
    }

    fn read(from: Cursor) -> u32 {
        from.list[from.at]
    }

    fn put(&self, out: &mut [u32]) {
        out[0] = *self;
    }
}

#[tactic(auto, using(crate::proofs::Back::flag_flat))]
impl Flat for bool {
    ghost WIDTH = { 1 };

    ghost numbers = { flag_numbers };

    ghost value = { flag_in };

    ghost Shaped = { Any };

    fn width() -> usize {
        1
    }

    fn read(from: Cursor) -> bool {
        u32::read(from) == 1
    }

    fn put(&self, out: &mut [u32]) {
        u32::from(*self).put(out);
    }
}

#[tactic(auto, using(crate::proofs::Back::offset_flat))]
impl Flat for i32 {
    ghost WIDTH = { 1 };

    ghost numbers = { offset_numbers };

    ghost value = { offset_in };

    ghost Shaped = { SFits w32 };

    fn width() -> usize {
        1
    }

    fn read(from: Cursor) -> i32 {
        as_signed(u32::read(from))
    }

    fn put(&self, out: &mut [u32]) {
        complement(*self).put(out);
    }
}

// The elements one behind the other, in blocks of equal width. Numbers too go one by one: with copy_from_slice, which takes each few
// numbers through memory, a facade took 2.5 times as long.
impl<T: Flat, const N: usize> Flat for [T; N] {
    ghost WIDTH = { T.WIDTH * N };

    ghost numbers = { flat_map T.numbers };

    ghost value = { each_in T.value T.WIDTH N };

    ghost Shaped = { Has N T.Shaped };

    fn width() -> usize {
        if N == 0 {
            return 0;
        }
        T::width() * N
    }

    fn read(from: Cursor) -> [T; N] {
        array::from_fn(
            |i|
                requires { from.at + T.WIDTH * i + T.WIDTH ≤ length from.list.now }
            {
                let at = from.at + T::width() * i;
                T::read(Cursor {
                    list: from.list,
                    at,
                })
            },
        )
    }

    fn put(&self, out: &mut [u32]) {
        let mut page = Page { out, end: 0 };
        for x in self {
            page.put(x);
        }
    }
}

#[tactic(auto, using(crate::proofs::Back::config_flat))]
impl Flat for Config {
    ghost WIDTH = { 7 };

    ghost numbers = { config_row };

    ghost value = { config_in };

    ghost Shaped = { Any };

    fn width() -> usize {
        7
    }

    fn read(from: Cursor) -> Config {
        Config::from(<[u32; 7]>::read(from))
    }

    fn put(&self, out: &mut [u32]) {
        <[u32; 7]>::from(*self).put(out);
    }
}

// None, or two numbers: a reservation, and what an open write asks. Each of these has an impl of its own below, by the names of its
// two fields.
#[tactic(auto, using(crate::proofs::Back::pair_flat, crate::proofs::Back::plains))]
impl Flat for Option<(u32, u32)> {
    ghost WIDTH = { 3 };

    ghost numbers = { option_numbers (λ x. x.0) (λ x. x.1) };

    ghost value = { option_in (λ a b. Some (a, b)) };

    ghost Shaped = { Any };

    fn width() -> usize {
        3
    }

    fn read(mut from: Cursor) -> Option<(u32, u32)> {
        if !from.next::<bool>() {
            return None;
        }
        Some((from.next(), from.next()))
    }

    fn put(&self, out: &mut [u32]) {
        let numbers = match self {
            None => [0, 0, 0],
            Some((a, b)) => [1, *a, *b],
        };
        numbers.put(out);
    }
}

#[tactic(auto, using(crate::proofs::Back::reservation_flat))]
impl Flat for Option<Reservation> {
    ghost WIDTH = { 3 };

    ghost numbers = { reservation_numbers };

    ghost value = { reservation_in };

    ghost Shaped = { Any };

    fn width() -> usize {
        3
    }

    fn read(from: Cursor) -> Option<Reservation> {
        let pair = <Option<(u32, u32)>>::read(from);
        pair.map(|(interaction, reading)| Reservation {
            interaction,
            reading,
        })
    }

    fn put(&self, out: &mut [u32]) {
        self.map(|x| (x.interaction, x.reading)).put(out);
    }
}

#[tactic(auto, using(crate::proofs::Back::pending_flat))]
impl Flat for Option<Pending> {
    ghost WIDTH = { 3 };

    ghost numbers = { pending_numbers };

    ghost value = { pending_in };

    ghost Shaped = { Any };

    fn width() -> usize {
        3
    }

    fn read(from: Cursor) -> Option<Pending> {
        let pair = <Option<(u32, u32)>>::read(from);
        pair.map(|(interaction, end)| Pending { interaction, end })
    }

    fn put(&self, out: &mut [u32]) {
        self.map(|x| (x.interaction, x.end)).put(out);
    }
}

#[tactic(auto, using(crate::proofs::Back::write_flat, crate::proofs::Pages::write_over), unfolding(crate::specs::Flat::write_in))]
impl Flat for OpenWrite {
    ghost WIDTH = { 7 };

    ghost numbers = { write_numbers };

    ghost value = { write_in };

    ghost Shaped = { WriteShaped };

    fn width() -> usize {
        7
    }

    fn read(mut from: Cursor) -> OpenWrite {
        OpenWrite {
            pending: from.next(),
            acked: from.next(),
        }
    }

    fn put(&self, out: &mut [u32]) {
        let mut page = Page { out, end: 0 };
        page.put(&self.pending);
        page.put(&self.acked);
    }
}

// A number stands for the case, then come its fields, and 0 in each place that the case does not have. A list comes from
// outside: a case that there is not reads as the first one. No `From`, which would have to stand in `types`, where there is no
// flat form.

#[tactic(auto, unfolding(crate::specs::Flat::state_of))]
fn state_of(kind: u32, a: u32, b: u32, c: u32) -> State
    ensures { result ≡ state_of kind a b c }
{
    match kind {
        1 => State::Asking(a),
        2 => State::Offered(a, b),
        3 => State::Waiting(a, b),
        4 => State::Holding(a, b, c),
        _ => State::Idle,
    }
}

fn state_numbers(x: State) -> [u32; 4]
    ensures { result ≡ state_numbers x }
{
    match x {
        State::Idle => [0, 0, 0, 0],
        State::Asking(q) => [1, q, 0, 0],
        State::Offered(q, a) => [2, q, a, 0],
        State::Waiting(q, a) => [3, q, a, 0],
        State::Holding(a, e, q) => [4, a, e, q],
    }
}

#[tactic(auto, using(crate::proofs::Back::client_flat, crate::proofs::Back::plains))]
impl Flat for Client {
    ghost WIDTH = { 4 };

    ghost numbers = { client_numbers };

    ghost value = { client_in };

    ghost Shaped = { Any };

    fn width() -> usize {
        4
    }

    fn read(mut from: Cursor) -> Client {
        let state = state_of(from.next(), from.next(), from.next(), from.next());
        Client { state }
    }

    fn put(&self, out: &mut [u32]) {
        state_numbers(self.state).put(out);
    }
}

#[tactic(auto, unfolding(crate::specs::Flat::body_of))]
fn body_of(kind: u32, a: u32, b: u32, c: u32) -> Body
    ensures { result ≡ body_of kind a b c }
{
    match kind {
        1 => Body::Discover,
        2 => Body::Offer(a),
        3 => Body::Request(a, b),
        4 => Body::Renew(a, b, c),
        5 => Body::Write(a, b),
        6 => Body::WriteAck(a, b),
        7 => Body::Ack(a, b),
        _ => Body::Empty,
    }
}

fn body_numbers(x: Body) -> [u32; 4]
    ensures { result ≡ body_numbers x }
{
    match x {
        Body::Empty => [0, 0, 0, 0],
        Body::Discover => [1, 0, 0, 0],
        Body::Offer(a) => [2, a, 0, 0],
        Body::Request(a, t) => [3, a, t, 0],
        Body::Renew(a, e, t) => [4, a, e, t],
        Body::Write(a, v) => [5, a, v, 0],
        Body::WriteAck(a, v) => [6, a, v, 0],
        Body::Ack(a, e) => [7, a, e, 0],
    }
}

#[tactic(auto, using(crate::proofs::Back::message_flat, crate::proofs::Back::plains, crate::proofs::Pages::message_over))]
impl Flat for Message {
    ghost WIDTH = { 7 };

    ghost numbers = { message_numbers };

    ghost value = { message_in };

    ghost Shaped = { Any };

    fn width() -> usize {
        7
    }

    fn read(mut from: Cursor) -> Message {
        Message {
            sender: from.next(),
            receiver: from.next(),
            interaction: from.next(),
            body: body_of(from.next(), from.next(), from.next(), from.next()),
        }
    }

    fn put(&self, out: &mut [u32]) {
        let mut page = Page { out, end: 0 };
        page.put(&[self.sender, self.receiver, self.interaction]);
        page.put(&body_numbers(self.body));
    }
}

#[tactic(auto, using(crate::proofs::Back::server_flat, crate::proofs::Pages::server_over), unfolding(crate::specs::Flat::server_in))]
impl Flat for Server {
    ghost WIDTH = { 423 };

    ghost numbers = { server_numbers };

    ghost value = { server_in };

    ghost Shaped = { ServerShaped };

    fn width() -> usize {
        423
    }

    // Not inlined: a facade took half as many instructions again.
    #[inline(never)]
    fn read(mut from: Cursor) -> Server {
        Server {
            alive: from.next(),
            changed: from.next(),
            returned: from.next(),
            believed: from.next(),
            leads: from.next(),
            lent: from.next(),
            potlease: from.next(),
            reserved: from.next(),
            writes: from.next(),
        }
    }

    #[inline(never)]
    fn put(&self, out: &mut [u32]) {
        let mut page = Page { out, end: 0 };
        page.put(&[u32::from(self.alive), self.changed, self.returned]);
        page.put(&self.believed);
        page.put(&self.leads);
        page.put(&self.lent);
        page.put(&self.potlease);
        page.put(&self.reserved);
        page.put(&self.writes);
    }
}

#[tactic(auto, using(crate::proofs::Back::facade_flat, crate::proofs::Pages::facade_over), unfolding(crate::specs::Flat::facade_at))]
impl Flat for Facade {
    ghost WIDTH = { 2778 };

    ghost numbers = { facade_numbers };

    ghost value = { facade_at };

    ghost Shaped = { FacadeShaped };

    fn width() -> usize {
        2778
    }

    fn read(mut from: Cursor) -> Facade {
        Facade {
            config: from.next(),
            time: from.next(),
            next: from.next(),
            waiting: from.next(),
            offsets: from.next(),
            notices: from.next(),
            servers: from.next(),
            clients: from.next(),
            messages: from.next(),
        }
    }

    fn put(&self, out: &mut [u32]) {
        let mut page = Page { out, end: 0 };
        page.put(&self.config);
        page.put(&[self.time, self.next, self.waiting]);
        page.put(&self.offsets);
        page.put(&self.notices);
        page.put(&self.servers);
        page.put(&self.clients);
        page.put(&self.messages);
    }
}

#[tactic(auto, using(crate::proofs::Back::outbox_flat, crate::proofs::Pages::outbox_over), unfolding(crate::specs::Flat::outbox_in))]
impl Flat for Outbox {
    ghost WIDTH = { 29 };

    ghost numbers = { outbox_numbers };

    ghost value = { outbox_in };

    ghost Shaped = { OutboxShaped };

    fn width() -> usize {
        29
    }

    fn read(mut from: Cursor) -> Outbox {
        Outbox {
            count: from.next(),
            messages: from.next(),
        }
    }

    fn put(&self, out: &mut [u32]) {
        let mut page = Page { out, end: 0 };
        page.put(&self.count);
        page.put(&self.messages);
    }
}

// A type whose values have lists of their own. Each type has the function by itself: the length of an array cannot be the width of
// a type parameter.
pub trait Coded: Flat + Copy {
    // whether a list is the flat form of a value
    fn is_coded_by(l: &[u32]) -> bool
        ensures { result ≡ codes Self.numbers Self.value Self.WIDTH l.now };
}

// The list is read, and what was read is put again. No type has more numbers than a facade. Not inlined: a step of a facade handed in
// took 132 for 123 thousand instructions.
#[tactic(auto, using(rules::proofs::Laws::tests, crate::proofs::Laws::over_whole, crate::proofs::Laws::is_same_of_eq), unfolding(crate::specs::Blocks::codes))]
#[inline(never)]
fn codes<T: Flat + Copy, const N: usize>(l: &[u32]) -> bool
    requires width { T.WIDTH ≡ N }
    requires room { N ≤ 2778 }
    ensures { result ≡ codes T.numbers T.value N l.now }
{
    if l.len() != N {
        return false;
    }
    let x = T::read(Cursor::new(l));
    let mut own = [0; N];
    x.put(&mut own);
    own.as_slice() == l
}

impl Coded for Facade {
    fn is_coded_by(l: &[u32]) -> bool {
        codes::<Facade, 2778>(l)
    }
}

impl Coded for Server {
    fn is_coded_by(l: &[u32]) -> bool {
        codes::<Server, 423>(l)
    }
}

impl Coded for Client {
    fn is_coded_by(l: &[u32]) -> bool {
        codes::<Client, 4>(l)
    }
}

impl Coded for Message {
    fn is_coded_by(l: &[u32]) -> bool {
        codes::<Message, 7>(l)
    }
}
