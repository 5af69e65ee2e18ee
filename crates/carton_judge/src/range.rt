ghost use Rattle.std.specs.Prelude.{◌≡◌, ◌≤◌, ◌<◌, IsTrue, length, pos};
ghost use Rattle.carton_base.specs.declared.limits.TheConstants.{MOST_JOINTS, WIDEST_SLACK};
ghost use Rattle.carton_model.specs.Moves.{IsMotion, IsState, stop_of};
ghost use Rattle.carton_part.specs.Answers.{IsVerdictOf};
ghost use Rattle.carton_reach.specs.Ranges.{IsMotionBetween, IsStateBetween, LiesBetween};
ghost use Rattle.carton_judge.specs.Verdicts.{IsVerdictAt};

use crate::judge::Judge;
use carton_base::{MOST_JOINTS, Moment, Motion, State};
use carton_fix::Fix;
use carton_part::{OpenPairs, Verdict, judge_motion, judge_open, open_pairs};
use carton_tree::Carton;
use std::marker::Model;

/// A judge for a search in which each joint stays between two stops. Pairs of panels that are parted
/// however the joints are folded between these are found once; a move within the range is judged by
/// the other pairs alone, and any other move by all.
#[derive(Drop)]
pub struct RangeJudge<'a> {
    carton: &'a Carton,
    slack: u16,
    low: State,
    high: State,
    pairs: OpenPairs,
}

impl<'a> Model for RangeJudge<'a> {
    ghost use Rattle.carton_judge.specs.Ranges.{Bench, IsReady};

    ghost Value = { Bench };

    ghost view = { λ j. record { carton = j.carton.now; slack = j.slack } };

    ghost invariant = { λ j. IsReady j.carton.now j.slack j.low j.high j.pairs.rows };
}

// Whether the state's stop at place k lies between those of the two others.
fn lies_between(low: &State, high: &State, at: &State, k: usize) -> bool
    requires { k < MOST_JOINTS }
    ensures { IsTrue result → LiesBetween (stop_of low.now k) (stop_of high.now k) (stop_of at.now k) }
{
    let (first, second) = (low.stops[k], high.stops[k]);
    first.min(second) <= at.stops[k] && at.stops[k] <= first.max(second)
}

// Whether each stop of the state lies between those of the two others.
fn is_between(low: &State, high: &State, at: &State) -> bool
    ensures { IsTrue result → IsStateBetween low.now high.now at.now }
{
    for k in 0..MOST_JOINTS {
        if !lies_between(low, high, at, k) {
            return false;
        }
    }
    true
}

// Whether the move lies between the two states.
fn is_within(low: &State, high: &State, motion: &Motion) -> bool
    ensures { IsTrue result → IsMotionBetween low.now high.now motion.now }
{
    motion.from.grid == low.grid
        && is_between(low, high, &motion.from)
        && is_between(low, high, &motion.to)
}

impl<'a> RangeJudge<'a> {
    /// The judge of this carton, by this slack, for moves in which each joint stays between its stops
    /// in two states of one grid, whichever of them is the lower.
    pub fn over(carton: &'a Carton, slack: u16, low: &State, high: &State) -> RangeJudge<'a>
        requires low { IsState (length carton.now.creases) low.now }
        requires high { IsState (length carton.now.creases) high.now }
        requires grid { high.now.grid ≡ low.now.grid }
        requires some { 1 ≤ slack }
        requires narrow { slack ≤ WIDEST_SLACK }
        ensures carton { result.carton ≡ carton.now }
        ensures slack { result.slack ≡ slack }
    {
        RangeJudge {
            carton,
            slack,
            low: *low,
            high: *high,
            pairs: open_pairs::<Fix>(carton, low, high),
        }
    }

    // The verdict on a move, by the pairs that are open for it.
    fn judged(&self, motion: &Motion) -> Verdict
        requires { IsMotion (length self.now.carton.creases) motion.now }
        ensures { IsVerdictOf self.now.carton motion.now self.now.slack result }
    {
        if is_within(&self.low, &self.high, motion) {
            return judge_open::<Fix>(self.carton, motion, self.slack, &self.pairs);
        }
        judge_motion::<Fix>(self.carton, motion, self.slack)
    }
}

impl Judge for RangeJudge<'_> {
    ghost carton = { λ j. j.carton };

    ghost slack = { λ j. j.slack };

    fn state(&mut self, at: &State) -> Verdict {
        let still = Motion { from: *at, to: *at };
        let moment = Moment { num: 0, den: 1 };
        match self.judged(&still) {
            Verdict::Clear => Verdict::Clear,
            Verdict::Blocked { a, b, .. } => Verdict::Blocked { a, b, moment },
        }
    }

    fn step(&mut self, motion: &Motion) -> Verdict {
        self.judged(motion)
    }
}
