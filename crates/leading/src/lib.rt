// Whether a server leads an address after a notice, and its record then: c is the configuration, k the server's number, r its
// clock reading, b the set of servers that it now believes live. They stand side by side, and not in a `ServerAt`: `may_lead` takes
// any reading and `raised` no number.
#![tactic(auto)]

ghost use Rattle.std.specs.Prelude.{◌≡◌, ◌+◌, ◌%◌, ◌≤◌, ◌<◌};
ghost use Rattle.rules.specs.Order.{is_first};
ghost use Rattle.rules.specs.Server.{may_lead, raised as raised'};
ghost use Rattle.rules.specs.Ranges.{last_reading};

use ranges::InRange;

// The server after server j, of n, in the round: by a test, since a division takes longer.
pub fn next_server(n: u32, j: u32) -> u32
    requires { (j < n) × (n ≤ 4) }
    ensures { result ≡ (j + 1) % n }
{
    if j + 1 < n {
        return j + 1;
    }
    0
}

// Whether server k, of n, is first among those believed live in the order of an address below n, which is that of every address
// with the same remainder: a walk in that order begins at the server with the address's number, and ends at k, or at one before
// it that is believed live. `(0..n).all(..)` over ranks was proved too: a whole run then took a tenth more instructions.
#[tactic(auto, using(crate::proofs::Walk::reached_end, crate::proofs::Walk::reached_other, crate::proofs::Walk::reached_next))]
fn is_first(n: u32, a: u32, k: u32, b: [bool; 4]) -> bool
    requires { (n ≤ 4) × (a < n) × (k < n) }
    ensures { result ≡ is_first n a k b }
{
    let mut j = a;
    while j != k {
        let before = j as usize;
        if b[before] {
            return false;
        }
        j = next_server(n, j);
    }
    let at = k as usize;
    b[at]
}

// Whether it leads address a now: `returned` is its return reading, `before` whether it led it.
#[tactic(auto, using(rules::proofs::Laws::tests))]
pub fn may_lead(
    c: InRange,
    k: u32,
    r: u32,
    returned: u32,
    before: bool,
    b: [bool; 4],
    a: u32,
) -> bool
    requires { (k < c.servers) × (a < c.servers) }
    ensures { result ≡ may_lead c k r returned before b a }
{
    let due = u64::from(returned) + u64::from(2 * c.config.detection + 2 * c.config.skew);
    is_first(c.config.servers, a, k, b) && (before || due <= u64::from(r))
}

// The record of an address, v before, by whether it led it before and leads it now.
#[tactic(auto, using(rules::proofs::Laws::tests))]
pub fn raised(c: InRange, r: u32, before: bool, now: bool, v: u32) -> u32
    requires { r ≤ last_reading }
    ensures { result ≡ raised' c r before now v }
{
    if now && !before {
        return v.max(r + c.config.mclt + 2 * c.config.skew);
    }
    v
}
