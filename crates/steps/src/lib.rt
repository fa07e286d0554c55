// How a step is read: its kind decides it, and a step alone can break rules 4 and 5.
#![tactic(auto)]

ghost use Rattle.std.specs.Prelude.{◌≡◌, MatchResult};
ghost use Rattle.types.specs.Numbers.{refusal_number, refusal_of};
ghost use Rattle.rules.specs.Steps.{action_of, malformed as malformed'};

use arith::{as_signed, check};
use types::{Action, LAST_END, Refusal, Step};

// An action whose fields are in range, so that it breaks none of the rules 4 and 5.
#[derive(Clone, Copy)]
pub struct WellFormed {
    pub action: Action,
    ghost keeps_rules: { malformed' action 0 ≡ 0 },
}

// The kind number decides the step; fields follow.
#[tactic(auto, unfolding(rules::specs::Steps::action_of))]
pub fn action_of(s: Step) -> Action
    ensures { result ≡ action_of s }
{
    let kind = s.kind;
    match kind {
        1 => Action::Pass(s.first, s.second, as_signed(s.third)),
        2 => Action::Fail(s.first),
        3 => Action::Return(s.first),
        4 => Action::Notice(s.first, s.second, s.third),
        5 => Action::Discover(s.first),
        6 => Action::Request(s.first, s.second),
        7 => Action::Renew(s.first, s.second),
        8 => Action::Deliver(s.first, s.second),
        9 => Action::Lose(s.first),
        10 => Action::Cleanup(s.first),
        _ => Action::Unknown,
    }
}

// Refusals 4 and 5.
#[tactic(auto, using(rules::proofs::Laws::tests), unfolding(rules::specs::Conditions::is_within, rules::specs::Conditions::unless, rules::specs::Steps::malformed, rules::specs::Steps::is_known, rules::specs::Steps::fields_in_range))]
pub fn malformed(x: Action) -> Result<(), Refusal>
    ensures { refusal_of result ≡ malformed' x 0 }
{
    match x {
        Action::Pass(d, _, e) => check(
            1 <= d && d <= 100000 && e.unsigned_abs() <= 2000,
            Refusal::FieldOutOfRange,
        ),
        Action::Notice(_, _, flag) | Action::Deliver(_, flag) => {
            check(flag <= 1, Refusal::FieldOutOfRange)
        }
        Action::Request(_, t) | Action::Renew(_, t) => {
            check(t <= LAST_END, Refusal::FieldOutOfRange)
        }
        Action::Fail(_)
        | Action::Return(_)
        | Action::Discover(_)
        | Action::Lose(_)
        | Action::Cleanup(_) => Ok(()),
        Action::Unknown => Err(Refusal::UnknownKind),
    }
}

// The action of a step that breaks none of these rules.
pub fn formed(s: Step) -> Result<WellFormed, Refusal>
    ensures { MatchResult result (λ a. a.action ≡ action_of s) (λ n. refusal_number n ≡ malformed' (action_of s) 0) }
{
    let action = action_of(s);
    malformed(action)?;
    Ok(WellFormed { action })
}
