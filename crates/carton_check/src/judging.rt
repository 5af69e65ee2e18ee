ghost use Rattle.std.specs.Prelude.{[], ◌∷◌, ◌≤◌, length};
ghost use Rattle.carton_base.specs.declared.limits.TheConstants.{MOST_JOINTS, WIDEST_SLACK};
ghost use Rattle.carton_model.specs.Moves.{IsState};
ghost use Rattle.carton_text.specs.PlanMoves.{AreMoves};
ghost use Rattle.carton_check.specs.Steps.{AreJudged};

use crate::checked::Checked;
use carton_base::{Moment, Motion, State};
use carton_fix::Fix;
use carton_part::{Verdict, judge_motion};
use carton_text::move_at;
use carton_tree::Carton;

// What is told of a single state.
fn only_state(carton: &Carton, slack: u16, state: &State) -> Checked
    requires state { IsState MOST_JOINTS state.now }
    requires some { 1 ≤ slack }
    requires narrow { slack ≤ WIDEST_SLACK }
    ensures { AreJudged carton.now slack (state.now ∷ []) result }
{
    let still = Motion {
        from: *state,
        to: *state,
    };
    let moment = Moment { num: 0, den: 1 };
    match judge_motion::<Fix>(carton, &still, slack) {
        Verdict::Clear => Checked::Holds(0),
        Verdict::Blocked { a, b, .. } => Checked::Blocked {
            step: 0,
            a,
            b,
            moment,
        },
    }
}

// What is told of the moves of two or more states.
fn first_blocked(carton: &Carton, slack: u16, states: &[State]) -> Checked
    requires states { AreMoves states.now }
    requires moves { 2 ≤ length states.now }
    requires some { 1 ≤ slack }
    requires narrow { slack ≤ WIDEST_SLACK }
    ensures { AreJudged carton.now slack states.now result }
{
    for i in 0..states.len() - 1 {
        let motion = move_at(states, i);
        if let Verdict::Blocked { a, b, moment } = judge_motion::<Fix>(carton, &motion, slack) {
            return Checked::Blocked {
                step: i as u32,
                a,
                b,
                moment,
            };
        }
    }
    Checked::Holds((states.len() - 1) as u32)
}

/// What is told of the states of a plan: that all panels that share no crease keep apart, or where
/// two of them aren't parted by more than half the slack.
pub fn judged(carton: &Carton, slack: u16, states: &[State]) -> Checked
    requires states { AreMoves states.now }
    requires some_state { 1 ≤ length states.now }
    requires some { 1 ≤ slack }
    requires narrow { slack ≤ WIDEST_SLACK }
    ensures { AreJudged carton.now slack states.now result }
{
    if let [state] = states {
        return only_state(carton, slack, state);
    }
    first_blocked(carton, slack, states)
}
