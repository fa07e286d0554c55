// The example of document 01, and then a failover, taken step by step and printed as the rig prints them: the number of the
// step, refusal, outcome, true time and waiting messages; at the end how many clients hold.
//
// The failover: client 0 is lent address 0 by server 0 and renews it until 200. Server 0 fails at 100. Server 1 leads from 110 on,
// with 200 on record. At 110 and at 202 it has nothing to offer to client 1 (outcome 1); at 203 the record has passed by more
// than 2Δ, and client 1 is lent the address until 213.
#![tactic(auto)]

ghost use Rattle.std.specs.Prelude.{◌≡◌, OnOk};
ghost use Rattle.rules.specs.Steps.{step as step'};

use arith::refusal_of;
use input::{EXAMPLE, EXAMPLE_CONFIG};
use std::io;
use types::{Config, Facade, Step};

// A step in four numbers: kind and fields.
const FAILOVER: [[u32; 4]; 47] = [
    [1, 40, 0, 0],
    [4, 0, 1, 1],
    [4, 1, 0, 1],
    [1, 40, 0, 0],
    [4, 0, 1, 1],
    [4, 1, 0, 1],
    [1, 5, 0, 0],
    [4, 0, 1, 1],
    [4, 1, 0, 1],
    [1, 15, 0, 0],
    [5, 0, 0, 0],
    [8, 0, 0, 0],
    [8, 1, 0, 0],
    [6, 0, 200, 0],
    [8, 1, 0, 0],
    [8, 2, 0, 0],
    [8, 2, 0, 0],
    [8, 2, 0, 0],
    [7, 0, 200, 0],
    [8, 2, 0, 0],
    [8, 3, 0, 0],
    [2, 0, 0, 0],
    [1, 10, 0, 0],
    [4, 1, 0, 0],
    [5, 1, 0, 0],
    [8, 5, 0, 0],
    [9, 0, 0, 0],
    [9, 0, 0, 0],
    [9, 0, 0, 0],
    [9, 0, 0, 0],
    [9, 0, 0, 0],
    [1, 40, 0, 0],
    [4, 1, 0, 0],
    [1, 40, 0, 0],
    [4, 1, 0, 0],
    [1, 12, 0, 0],
    [4, 1, 0, 0],
    [5, 1, 0, 0],
    [8, 1, 0, 0],
    [9, 0, 0, 0],
    [1, 1, 0, 0],
    [5, 1, 0, 0],
    [8, 1, 0, 0],
    [8, 1, 0, 0],
    [6, 1, 0, 0],
    [8, 2, 0, 0],
    [8, 2, 0, 0],
];

// Takes a step and prints its line.
fn take(rt: &impl Print, f: &mut Facade, number: usize, s: Step) -> io::Result<()>
    ensures { OnOk result (f.new ≡ (step' f.old s).facade) }
{
    let x = facade::step(f, s);
    let refusal = refusal_of(&x);
    let outcome = x.map_or(0, u32::from);
    println!(rt; "{number} {refusal} {outcome} {} {}", f.time, f.waiting)
}

// Takes the steps of a table, from the fresh facade of a configuration.
fn walk(rt: &impl Print, c: Config, rows: &[[u32; 4]]) -> io::Result<()> {
    let mut f = facade::fresh(c);
    for (n, row) in rows.iter().enumerate() {
        take(rt, &mut f, n + 1, Step::from(*row))?;
    }
    let held = facade::held_clients(&f);
    println!(rt; "held {held}")
}

fn main(rt: HostRuntime) -> io::Result<()> {
    walk(&rt, EXAMPLE_CONFIG, &EXAMPLE)?;
    let two = Config {
        servers: 2,
        clients: 2,
        addresses: 1,
        skew: 1,
        detection: 40,
        mclt: 10,
        retention: 20,
    };
    walk(&rt, two, &FAILOVER)
}
