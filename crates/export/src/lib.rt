// What programs in other languages call: the project's functions on numbers and slices. Nothing is trusted: a list of the wrong
// length, and one with a number that codes nothing, is refused with 2. A refusal leaves every list as it was, and gives outcome and
// length 0. A facade that was put codes one again, so the next step can be taken of it. A refusal is its number here, 0 for none, since C
// has no `Result`.
#![tactic(auto)]

ghost use Rattle.std.specs.Prelude.{◌≡◌, true, length};
ghost use Rattle.std.specs.Result.{result_unwrap_or};
ghost use Rattle.types.specs.Numbers.{refusal_of};
ghost use Rattle.rules.specs.Answers.{outcome_of};
ghost use Rattle.rules.specs.Steps.{step_of};
ghost use Rattle.flat.specs.Flat.{codes_facade};
ghost use Rattle.script.specs.Reading.{verdict as verdict'};
ghost use Rattle.replay.specs.Output.{output_length, output_into};
ghost use Rattle.export.specs.Export.{fresh_refusal, fresh_numbers, stepped_refusal, stepped_numbers, stepped_outcome, written_refusal, written_script, written_length};

use arith::{check, refusal_of};
use facade::{start, step};
use flat::{Coded, Cursor, Flat};
use types::{Config, Facade, Outcome, Refusal, Step};

// The fresh facade of a configuration is put into a list.
#[tactic(auto, using(rules::proofs::Laws::tests, flat::proofs::Laws::over_whole, flat::proofs::Back::facade_coded), unfolding(crate::specs::Export::fresh_refusal, crate::specs::Export::fresh_numbers))]
fn put_fresh(config: &[u32], facade: &mut [u32]) -> Result<(), Refusal>
    ensures value { refusal_of result ≡ fresh_refusal config.now (length facade.old) }
    ensures facade_after { facade.new ≡ fresh_numbers config.now facade.old }
    ensures codes { refusal_of result ≡ 0 → codes_facade facade.new ≡ true }
{
    check(config.len() == Config::width(), Refusal::OutOfRange)?;
    check(facade.len() == Facade::width(), Refusal::OutOfRange)?;
    start(Config::read(Cursor::new(config)))?.put(facade);
    Ok(())
}

// The fresh facade of a configuration.
pub fn hoyllaqe_fresh(config: &[u32], facade: &mut [u32]) -> u32
    ensures value { result ≡ fresh_refusal config.now (length facade.old) }
    ensures facade_after { facade.new ≡ fresh_numbers config.now facade.old }
    ensures codes { result ≡ 0 → codes_facade facade.new ≡ true }
{
    refusal_of(&put_fresh(config, facade))
}

// A step of a facade in its flat form.
#[tactic(auto, using(rules::proofs::Laws::tests, flat::proofs::Blocks::coded_length, flat::proofs::Laws::over_whole, flat::proofs::Back::facade_coded), unfolding(crate::specs::Export::stepped_refusal, crate::specs::Export::stepped_numbers, crate::specs::Export::stepped_outcome))]
fn take_step(facade: &mut [u32], s: Step) -> Result<Outcome, Refusal>
    ensures value { refusal_of result ≡ stepped_refusal facade.old s }
    ensures outcome { outcome_of result ≡ stepped_outcome facade.old s }
    ensures facade_after { facade.new ≡ stepped_numbers facade.old s }
    ensures codes { refusal_of result ≡ 0 → codes_facade facade.new ≡ true }
{
    check(Facade::is_coded_by(facade), Refusal::OutOfRange)?;
    let mut f = Facade::read(Cursor::new(facade));
    let outcome = step(&mut f, s)?;
    f.put(facade);
    Ok(outcome)
}

// A step of a facade handed in, which becomes the next one.
pub fn hoyllaqe_step(
    facade: &mut [u32],
    kind: u32,
    first: u32,
    second: u32,
    third: u32,
    outcome: &mut u32,
) -> u32
    ensures value { result ≡ stepped_refusal facade.old (step_of kind first second third) }
    ensures facade_after { facade.new ≡ stepped_numbers facade.old (step_of kind first second third) }
    ensures outcome_after { outcome.new ≡ stepped_outcome facade.old (step_of kind first second third) }
    ensures codes { result ≡ 0 → codes_facade facade.new ≡ true }
{
    let x = take_step(facade, Step::from([kind, first, second, third]));
    *outcome = x.map_or(0, u32::from);
    refusal_of(&x)
}

// The first of refusals 1 to 5 that reading the script through meets.
pub fn hoyllaqe_verdict(script: &[u8]) -> u32
    ensures { result ≡ verdict' script.now }
{
    refusal_of(&script::verdict(script))
}

// The script of a configuration and of steps of four numbers each.
#[tactic(auto, using(rules::proofs::Laws::tests), unfolding(crate::specs::Export::written_refusal, crate::specs::Export::written_script, crate::specs::Export::written_length))]
fn write(config: &[u32], steps: &[u32], script: &mut [u8]) -> Result<usize, Refusal>
    ensures value { refusal_of result ≡ written_refusal config.now steps.now (length script.old) }
    ensures script_after { script.new ≡ written_script config.now steps.now script.old }
    ensures size { result_unwrap_or result 0 ≡ written_length config.now steps.now (length script.old) }
{
    check(config.len() == Config::width(), Refusal::OutOfRange)?;
    check(steps.len() % 4 == 0, Refusal::OutOfRange)?;
    writer::write(Config::read(Cursor::new(config)), steps, script)
}

// The script of a configuration and of steps of four numbers each, and its length.
pub fn hoyllaqe_write(config: &[u32], steps: &[u32], script: &mut [u8], size: &mut usize) -> u32
    ensures value { result ≡ written_refusal config.now steps.now (length script.old) }
    ensures script_after { script.new ≡ written_script config.now steps.now script.old }
    ensures size_after { size.new ≡ written_length config.now steps.now (length script.old) }
{
    let x = write(config, steps, script);
    *size = x.unwrap_or(0);
    refusal_of(&x)
}

// What the program `rig` prints for a script, and how many bytes that is.
pub fn hoyllaqe_run(script: &[u8], output: &mut [u8]) -> usize
    ensures value { result ≡ output_length script.now (length output.old) }
    ensures output_after { output.new ≡ output_into script.now output.old }
{
    replay::put_output(script, output)
}
