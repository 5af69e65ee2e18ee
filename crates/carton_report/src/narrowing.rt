ghost use Rattle.std.specs.Prelude.{◌≡◌, ◌<◌, ◌≤◌, length, pos, IfSome, None};
ghost use Rattle.carton_base.specs.declared.limits.TheConstants.{MOST_JOINTS};
ghost use Rattle.carton_model.specs.Moves.{IsMotion};
ghost use Rattle.carton_part.specs.Answers.{AreUnparted, IsPartingOf, StayParted};
ghost use Rattle.carton_report.specs.declared.cleared.TheConstants.{WIDE_CLEARANCE};
ghost use Rattle.carton_report.specs.Tightest.{IsNearOf, StayClear};

use carton_base::{Moment, Motion, PanelId};
use carton_fix::Fix;
use carton_part::{Parting, part_over};
use carton_tree::Carton;

/// How near two panels come in a move, in dieline units: they stay parted by more than clear - 1, and
/// at this moment they aren't parted by more than clear + 1/2.
#[derive(Clone, Copy)]
pub struct Near {
    pub clear: u16,
    pub moment: Moment,
}

/// A move of a carton whose clearance is asked.
#[derive(Clone, Copy)]
pub struct JudgedMove<'a> {
    pub carton: &'a Carton,
    pub motion: &'a Motion,
    pub ghost moves: { IsMotion MOST_JOINTS motion.now },
}

impl JudgedMove<'_> {
    // What is known of two panels at a gap of so many units.
    fn parting(&self, a: PanelId, b: PanelId, gap: u16) -> Parting
        requires a { a.0 < length self.now.carton.now.panels }
        requires b { b.0 < length self.now.carton.now.panels }
        requires gap { gap < WIDE_CLEARANCE }
        ensures { IsPartingOf self.now.carton.now self.now.motion.now a.0 b.0 (pos gap) 1 result }
    {
        part_over::<Fix>(self.carton, self.motion, a, b, i64::from(gap), 1)
    }

    // How near two panels come that aren't parted by more than first.clear + 1/2 at its moment. The
    // moment that was told of a gap is kept with it, since a second answer may tell another.
    fn narrowed(&self, a: PanelId, b: PanelId, first: Near) -> Near
        requires a { a.0 < length self.now.carton.now.panels }
        requires b { b.0 < length self.now.carton.now.panels }
        requires apart { StayParted self.now.carton.now self.now.motion.now a.0 b.0 (pos 0) }
        requires narrow { first.clear < WIDE_CLEARANCE }
        requires first { AreUnparted self.now.carton.now self.now.motion.now a.0 b.0 (pos first.clear)
            1 first.moment }
        ensures near { IsNearOf self.now.carton.now self.now.motion.now a.0 b.0 result }
        ensures less { result.clear ≤ first.clear }
    {
        let mut certified = 0;
        let mut near = first;
        while certified < near.clear {
            let clear = certified + (near.clear - certified) / 2;
            match self.parting(a, b, clear) {
                Parting::Parted => certified = clear + 1,
                Parting::Undecided(moment) => near = Near { clear, moment },
            }
        }
        near
    }

    /// How near two panels come, where it isn't certain that they stay parted by more than clear - 1.
    pub fn nearer(&self, a: PanelId, b: PanelId, clear: u16) -> Option<Near>
        requires a { a.0 < length self.now.carton.now.panels }
        requires b { b.0 < length self.now.carton.now.panels }
        requires apart { StayParted self.now.carton.now self.now.motion.now a.0 b.0 (pos 0) }
        requires clear { clear ≤ WIDE_CLEARANCE }
        ensures near { IfSome result
            (IsNearOf self.now.carton.now self.now.motion.now a.0 b.0) }
        ensures less { IfSome result (λ n. n.clear < clear) }
        ensures none { result ≡ None → StayClear self.now.carton.now self.now.motion.now a.0 b.0 clear }
    {
        if clear == 0 {
            return None;
        }
        let clear = clear - 1;
        match self.parting(a, b, clear) {
            Parting::Parted => None,
            Parting::Undecided(moment) => Some(self.narrowed(a, b, Near { clear, moment })),
        }
    }
}
