// Leaves on tests and numbers, each proved once: refusals, bounds, offsets and clocks.
#![tactic(auto)]

ghost use Rattle.std.specs.Prelude.{◌≡◌, ◌≤◌, cond, Ok, Err, nat_abs, ◌+ℤ◌};
ghost use Rattle.types.specs.Numbers.{refusal_of};
ghost use Rattle.rules.specs.Clock.{clock_reading, not_negative, as_signed};
ghost use Rattle.rules.specs.Ranges.{last_time};

use types::Refusal;

// Refusal n, where its test fails.
pub fn check(ok: bool, n: Refusal) -> Result<(), Refusal>
    ensures { result ≡ cond ok (Ok tt) (Err n) }
{
    if ok { Ok(()) } else { Err(n) }
}

// The number of a refusal, 0 if there is none, as output and C have it.
pub fn refusal_of<T>(x: &Result<T, Refusal>) -> u32
    ensures { result ≡ refusal_of x.now }
{
    match x {
        Ok(_) => 0,
        Err(n) => u32::from(*n),
    }
}

// Whether t with the signed amount o is not negative.
pub fn not_negative(t: u32, o: i32) -> bool
    ensures { result ≡ not_negative t o }
{
    0 <= o || o.unsigned_abs() <= t
}

// A clock: true time t with the signed amount o by which it is ahead.
pub fn clock_reading(t: u32, o: i32) -> u32
    requires { t ≤ last_time }
    ensures { result ≡ clock_reading t o }
{
    t.saturating_add_signed(o)
}

// An offset with a signed amount added. Their bounds are clauses here and above: a facade handed in may have any offset, and a step
// any amount, until rules 2 and 5 have looked at them.
pub fn shifted(o: i32, e: i32) -> i32
    requires { (nat_abs o ≤ 1000) × (nat_abs e ≤ 2000) }
    ensures { result ≡ o +ℤ e }
{
    o + e
}

// A number of four bytes in two's complement. It has the name of the rules, which tie it to the library's once.
#[tactic(auto, unfolding(rules::specs::Clock::as_signed))]
pub fn as_signed(x: u32) -> i32
    ensures { result ≡ as_signed x }
{
    x.cast_signed()
}
