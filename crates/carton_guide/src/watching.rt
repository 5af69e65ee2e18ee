ghost use Rattle.std.specs.Prelude.{◌≡◌, ◌<◌, ◌≤◌, length, All, None, IfSome, pos};
ghost use Rattle.std.proofs.Props.{props};
ghost use Rattle.carton_base.specs.declared.limits.TheConstants.{LONGEST_PATH, MOST_JOINTS, MOST_STATES};
ghost use Rattle.carton_model.specs.Dielines.{IsNear};
ghost use Rattle.carton_model.specs.Moves.{IsMotion};
ghost use Rattle.carton_model.specs.Turning.{IsTurn};
ghost use Rattle.carton_part.specs.Answers.{IsHalvedMoment};
ghost use Rattle.carton_part.specs.Parted.{AtEachMoment};
ghost use Rattle.carton_guide.specs.Looks.{IsSomeIn, AreNoneDeep};

use crate::holders::{Holders, look_at};
use carton_base::{Moment, Motion, Piece, Point, Turn};
use carton_bodies::flat_point_at;
use carton_fix::Fix;
use carton_part::{Look, Sight, walk};

/// Flat places of a flap, the turns that take them into the world, and a move of these joints.
#[derive(Clone, Copy)]
pub struct Course<'a> {
    pub turns: &'a [Turn],
    pub probes: &'a [Point],
    pub motion: Motion,
    pub step: u32,
    pub ghost few_turns: { length turns.now ≤ LONGEST_PATH },
    pub ghost are_turns: { All IsTurn turns.now } by { Prim.hlevel props },
    pub ghost near: { All IsNear probes.now },
    pub ghost moves: { IsMotion MOST_JOINTS motion },
    pub ghost in_plan: { step < MOST_STATES },
}

// A course and the bodies that are to hold its flap: a moment is good where some probe lies in some
// chosen body, and bad where none lies deeper than the slack in one.
#[derive(Drop)]
struct Watch<'a> {
    course: &'a Course<'a>,
    holders: &'a Holders<'a>,
}

impl Look for Watch<'_> {
    ghost good = { λ w. IsSomeIn w.course.now.motion w.course.now.turns.now w.course.now.probes.now
        w.holders.now.stroke w.holders.now.bodies.now w.holders.now.chosen.now w.course.now.step };

    ghost bad = { λ w. AreNoneDeep w.course.now.motion w.course.now.turns.now w.course.now.probes.now
        (pos w.holders.now.slack) w.holders.now.stroke w.holders.now.bodies.now w.holders.now.chosen.now
        w.course.now.step };

    fn see(&mut self, piece: Piece) -> Sight {
        let course = self.course;
        let mut seen = Sight::Bad;
        for k in 0..course.probes.len() {
            let spot = flat_point_at::<Fix>(course.turns, &course.motion, &course.probes[k], piece);
            match look_at(self.holders, course.step, piece, &spot) {
                Sight::Good => return Sight::Good,
                Sight::Bad => {}
                Sight::Open => seen = Sight::Open,
            }
        }
        seen
    }
}

/// A moment of the move at which no probe lies deeper than the slack in a chosen body. None where at
/// every moment some probe lies in some chosen body.
pub fn loose_moment(course: &Course, holders: &Holders) -> Option<Moment>
    ensures held { result ≡ None
        → AtEachMoment (IsSomeIn course.now.motion course.now.turns.now course.now.probes.now
        holders.now.stroke holders.now.bodies.now holders.now.chosen.now course.now.step) }
    ensures loose { IfSome result
        (λ m. IsHalvedMoment m (AreNoneDeep course.now.motion course.now.turns.now course.now.probes.now
        (pos holders.now.slack) holders.now.stroke holders.now.bodies.now holders.now.chosen.now
        course.now.step)) }
{
    let mut watch = Watch { course, holders };
    walk(&mut watch, Piece::whole()).bad
}
