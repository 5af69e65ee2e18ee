ghost use Rattle.std.specs.Prelude.{◌≡◌, MatchBool, length, pos, ◌*ℤ◌};
ghost use Rattle.carton_steps.specs.Steps.{IsMove};
ghost use Rattle.carton_search.specs.Clear.{StayApart};

use carton_base::{Motion, State};
use carton_judge::Judge;
use carton_part::Verdict;

// Whether the judge clears the move from one state to another.
pub fn is_clear<J: Judge>(judge: &mut J, from: &State, to: &State) -> bool
    requires { IsMove (length (J.carton judge.old).creases) from.now to.now }
    ensures clear { MatchBool result (StayApart (J.carton judge.old) (pos 0) from.now to.now)
        (StayApart (J.carton judge.old) (pos 2 *ℤ pos (J.slack judge.old)) from.now to.now → ⊥) }
    ensures carton { J.carton judge.new ≡ J.carton judge.old }
    ensures slack { J.slack judge.new ≡ J.slack judge.old }
{
    let motion = Motion {
        from: *from,
        to: *to,
    };
    match judge.step(&motion) {
        Verdict::Clear => true,
        Verdict::Blocked { .. } => false,
    }
}
