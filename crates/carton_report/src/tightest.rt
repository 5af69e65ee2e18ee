ghost use Rattle.std.specs.Prelude.{◌≡◌, ℕ, ◌<◌, ◌≤◌, length, pos, IfSome};
ghost use Rattle.carton_base.specs.declared.limits.TheConstants.{MOST_JOINTS};
ghost use Rattle.carton_model.specs.Moves.{IsMotion};
ghost use Rattle.carton_part.specs.Answers.{StayAllParted};
ghost use Rattle.carton_part.specs.Parted.{AreStrangers};
ghost use Rattle.carton_report.specs.Tightest.{AllStayClear, IsTight, StayClear, clearance_of};

use crate::cleared::WIDE_CLEARANCE;
use crate::narrowing::JudgedMove;
use carton_base::{Moment, Motion, PanelId};
use carton_tree::Carton;

/// Panels a < b that share no crease, and how near they come in a move.
#[derive(Clone, Copy)]
pub struct Tight {
    pub clear: u16,
    pub a: PanelId,
    pub b: PanelId,
    pub moment: Moment,
}

// How far the panels that were looked at are known to stay parted.
fn clearance(tightest: Option<Tight>) -> u16
    ensures { result ≡ clearance_of tightest }
{
    match tightest {
        Some(tight) => tight.clear,
        None => WIDE_CLEARANCE,
    }
}

impl JudgedMove<'_> {
    // The tightest pair of these so far and of panels a and b, if they share no crease.
    fn with_pair(&self, a: PanelId, b: PanelId, so_far: Option<Tight>) -> Option<Tight>
        requires order { a.0 < b.0 }
        requires b { b.0 < length self.now.carton.now.panels }
        requires apart { StayAllParted self.now.carton.now self.now.motion.now (pos 0) }
        requires so_far { IfSome so_far (IsTight self.now.carton.now self.now.motion.now) }
        ensures tight { IfSome result (IsTight self.now.carton.now self.now.motion.now) }
        ensures less { clearance_of result ≤ clearance_of so_far }
        ensures clear { AreStrangers self.now.carton.now a.0 b.0
            → StayClear self.now.carton.now self.now.motion.now a.0 b.0 (clearance_of result) }
    {
        if self.carton.shares_crease(a, b) {
            return so_far;
        }
        match self.nearer(a, b, clearance(so_far)) {
            Some(near) => Some(Tight {
                clear: near.clear,
                a,
                b,
                moment: near.moment,
            }),
            None => so_far,
        }
    }

    // The tightest pair of these so far and of panel a with each of greater number.
    fn with_panel(&self, a: PanelId, so_far: Option<Tight>) -> Option<Tight>
        requires a { a.0 < length self.now.carton.now.panels }
        requires apart { StayAllParted self.now.carton.now self.now.motion.now (pos 0) }
        requires so_far { IfSome so_far (IsTight self.now.carton.now self.now.motion.now) }
        ensures tight { IfSome result (IsTight self.now.carton.now self.now.motion.now) }
        ensures less { clearance_of result ≤ clearance_of so_far }
        ensures clear { (b : ℕ) → AreStrangers self.now.carton.now a.0 b
            → StayClear self.now.carton.now self.now.motion.now a.0 b (clearance_of result) }
    {
        let mut tightest = so_far;
        let count = self.carton.panels();
        for b in a.0 + 1..count {
            tightest = self.with_pair(a, PanelId(b), tightest);
        }
        tightest
    }
}

/// The tightest pair of panels in a move, None where all stay parted by more than 9999.
pub fn tightest(carton: &Carton, motion: &Motion) -> Option<Tight>
    requires motion { IsMotion MOST_JOINTS motion.now }
    requires apart { StayAllParted carton.now motion.now (pos 0) }
    ensures tight { IfSome result (IsTight carton.now motion.now) }
    ensures clear { AllStayClear carton.now motion.now (clearance_of result) }
{
    let judged = JudgedMove { carton, motion };
    let mut found = None;
    for a in 0..carton.panels() {
        found = judged.with_panel(PanelId(a), found);
    }
    found
}
