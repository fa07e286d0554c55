// The functions of `export` under their C names, for the static library that C and Rust link. Each calls its namesake,
// and answers a number, since C has no `Result`. They stand apart, since a C name may stand once in what is linked, and programs
// here link `export`.
#![tactic(auto)]

ghost use Rattle.std.specs.Prelude.{◌≡◌, true, length};
ghost use Rattle.rules.specs.Steps.{step_of};
ghost use Rattle.flat.specs.Flat.{codes_facade};
ghost use Rattle.script.specs.Reading.{verdict as verdict'};
ghost use Rattle.replay.specs.Output.{output_length, output_into};
ghost use Rattle.export.specs.Export.{fresh_refusal, fresh_numbers, stepped_refusal, stepped_numbers, stepped_outcome, written_refusal, written_script, written_length};

// The fresh facade of a configuration.
#[unsafe(no_mangle)]
pub extern "C" fn hoyllaqe_fresh(config: &[u32], facade: &mut [u32]) -> u32
    ensures value { result ≡ fresh_refusal config.now (length facade.old) }
    ensures facade_after { facade.new ≡ fresh_numbers config.now facade.old }
    ensures codes { result ≡ 0 → codes_facade facade.new ≡ true }
{
    export::hoyllaqe_fresh(config, facade)
}

// A step of a facade handed in, which becomes the next one.
#[unsafe(no_mangle)]
pub extern "C" fn hoyllaqe_step(
    facade: &mut [u32],
    kind: u32,
    first: u32,
    second: u32,
    third: u32,
    outcome: &mut u32,
) -> u32
    ensures value { result ≡ stepped_refusal facade.old (step_of kind first second third) }
    ensures facade_after { facade.new ≡ stepped_numbers facade.old (step_of kind first second third) }
    ensures outcome_after { outcome.new ≡ stepped_outcome facade.old (step_of kind first second third) }
    ensures codes { result ≡ 0 → codes_facade facade.new ≡ true }
{
    export::hoyllaqe_step(facade, kind, first, second, third, outcome)
}

// The first of refusals 1 to 5 that reading the script through meets.
#[unsafe(no_mangle)]
pub extern "C" fn hoyllaqe_verdict(script: &[u8]) -> u32
    ensures { result ≡ verdict' script.now }
{
    export::hoyllaqe_verdict(script)
}

// The script of a configuration and of steps of four numbers each, and its length.
#[unsafe(no_mangle)]
pub extern "C" fn hoyllaqe_write(
    config: &[u32],
    steps: &[u32],
    script: &mut [u8],
    size: &mut usize,
) -> u32
    ensures value { result ≡ written_refusal config.now steps.now (length script.old) }
    ensures script_after { script.new ≡ written_script config.now steps.now script.old }
    ensures size_after { size.new ≡ written_length config.now steps.now (length script.old) }
{
    export::hoyllaqe_write(config, steps, script, size)
}

// What the program `rig` prints for a script, and how many bytes that is.
#[unsafe(no_mangle)]
pub extern "C" fn hoyllaqe_run(script: &[u8], output: &mut [u8]) -> usize
    ensures value { result ≡ output_length script.now (length output.old) }
    ensures output_after { output.new ≡ output_into script.now output.old }
{
    export::hoyllaqe_run(script, output)
}
