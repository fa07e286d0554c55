// The steps handed to the writer, in rows of four numbers, a kind and three fields: how long their records are, and what is
// refused. The list is flat, as C hands it; numbers behind the last whole row are no step.
#![tactic(auto)]

ghost use Rattle.std.specs.Prelude.{◌≡◌, ◌&&◌, ◌+◌, ◌*◌, nat_le, length};
ghost use Rattle.types.specs.Numbers.{refusal_of};
ghost use Rattle.script.specs.Layout.{records_of, first_record};
ghost use Rattle.script.specs.Reading.{longest};
ghost use Rattle.script.specs.Writing.{steps_in, steps_refusal, write_refusal};

use arith::check;
use ranges::config_in_range;
use script::{LONGEST, fields_of, step_refusal};
use types::{Config, Refusal, Step};

// The first refusal among the steps.
#[tactic(auto, using(script::proofs::Rows::row_is, crate::proofs::Laws::none_refused, crate::proofs::Laws::next_kept, crate::proofs::Laws::refused_at))]
fn steps_refusal(l: &[u32]) -> Result<(), Refusal>
    ensures { refusal_of result ≡ steps_refusal (steps_in l.now) }
{
    for row in l.as_chunks::<4>().0 {
        step_refusal(Step::from(*row))?;
    }
    Ok(())
}

// How many bytes the records of the steps have.
pub fn records_length(l: &[u32]) -> usize
    ensures { result ≡ length (records_of (steps_in l.now)) }
{
    l.as_chunks::<4>()
        .0
        .iter()
        .map(|row| 2 + 4 * fields_of(row[0]) as usize)
        .sum()
}

// Whether a script of that size is not too long, and has room.
fn fits(size: usize, room: usize) -> bool
    ensures { result ≡ (nat_le size longest && nat_le size room) }
{
    size <= LONGEST && size <= room
}

// The first refusal in the writer's order: of the configuration, of the steps, of the length.
#[tactic(auto, using(script::proofs::Laws::and_is, script::proofs::Round::script_length), unfolding(script::specs::Writing::write_refusal, rules::specs::Conditions::unless))]
pub fn write_refusal(c: Config, l: &[u32], size: usize, room: usize) -> Result<(), Refusal>
    requires { size ≡ first_record + length (records_of (steps_in l.now)) }
    ensures { refusal_of result ≡ write_refusal c (steps_in l.now) room }
{
    check(config_in_range(c), Refusal::OutOfRange)?;
    steps_refusal(l)?;
    check(fits(size, room), Refusal::NoScript)
}
