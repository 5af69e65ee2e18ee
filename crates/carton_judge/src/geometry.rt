ghost use Rattle.std.specs.Prelude.{◌≤◌};
ghost use Rattle.carton_base.specs.declared.limits.TheConstants.{WIDEST_SLACK};

use crate::judge::Judge;
use carton_base::{Moment, Motion, State};
use carton_fix::Fix;
use carton_part::{Verdict, judge_motion};
use carton_tree::Carton;

/// A judge that computes each verdict anew from the positions of the panels.
#[derive(Drop)]
pub struct GeometryJudge<'a> {
    pub carton: &'a Carton,
    pub slack: u16,
    pub ghost some: { 1 ≤ slack },
    pub ghost narrow: { slack ≤ WIDEST_SLACK },
}

impl Judge for GeometryJudge<'_> {
    ghost carton = { λ j. j.carton.now };

    ghost slack = { λ j. j.slack };

    fn state(&mut self, at: &State) -> Verdict {
        let still = Motion { from: *at, to: *at };
        let moment = Moment { num: 0, den: 1 };
        match judge_motion::<Fix>(self.carton, &still, self.slack) {
            Verdict::Clear => Verdict::Clear,
            Verdict::Blocked { a, b, .. } => Verdict::Blocked { a, b, moment },
        }
    }

    fn step(&mut self, motion: &Motion) -> Verdict {
        judge_motion::<Fix>(self.carton, motion, self.slack)
    }
}
