ghost use Rattle.std.specs.Prelude.{◌≡◌, ◌<◌, ◌≤◌, length, pos, ◌+ℤ◌, ◌*ℤ◌, ◌≤ℤ◌};
ghost use Rattle.carton_base.specs.declared.limits.TheConstants.{MOST_HALVINGS, MOST_JOINTS};
ghost use Rattle.carton_model.specs.Moves.{IsMotion};
ghost use Rattle.carton_reach.specs.Reaches.{Within};
ghost use Rattle.carton_part.specs.Answers.{ArePartedAt, AreUnpartedAt, AreUnpartedIn};
ghost use Rattle.carton_part.specs.Frames.{IsFrame};

use crate::frames::{is_on_way, reaches_in};
use crate::sight::{Look, Sight};
use carton_base::{Motion, PanelId, Piece};
use carton_enclose::Enclose;
use carton_reach::{are_apart, are_near};
use carton_tree::Carton;
use std::marker::PhantomData;

/// Two panels during a move: a moment is good where they are parted by more than the gap, and bad
/// where they aren't by more than gap + slack/2. Lengths are in dieline units.
#[derive(Drop)]
pub struct Pair<'a, E> {
    pub carton: &'a Carton,
    pub motion: &'a Motion,
    pub a: PanelId,
    pub b: PanelId,
    pub gap: i64,
    pub slack: u16,
    pub numbers: PhantomData<E>,
    pub ghost first: { a.0 < length carton.now.panels },
    pub ghost second: { b.0 < length carton.now.panels },
    pub ghost moves: { IsMotion MOST_JOINTS motion.now },
    pub ghost low_gap: { pos 0 ≤ℤ gap },
    pub ghost high_gap: { gap ≤ℤ pos 9999 },
    pub ghost some_slack: { 1 ≤ slack },
    pub ghost narrow_slack: { slack ≤ 1000 },
}

impl<E: Enclose> Pair<'_, E> {
    // The gap, in halves of a unit.
    fn gap_halves(&self) -> i64
        ensures { result ≡ pos 2 *ℤ self.now.gap }
    {
        2 * self.gap
    }

    // The gap and half the slack, in halves of a unit.
    fn wide_halves(&self) -> i64
        ensures { result ≡ pos 2 *ℤ self.now.gap +ℤ pos self.now.slack }
    {
        2 * self.gap + i64::from(self.slack)
    }

    // What one frame tells, which need not be a frame of the two panels.
    fn look_in(&self, frame: PanelId, piece: Piece) -> Sight
        requires frame { frame.0 < length self.now.carton.now.panels }
        ensures good { result ≡ Sight.Good → Within piece.index piece.depth
            (ArePartedAt self.now.carton.now self.now.motion.now self.now.a.0 self.now.b.0 self.now.gap) }
        ensures bad { result ≡ Sight.Bad → IsFrame self.now.carton.now self.now.a.0 self.now.b.0 frame.0
            → Within piece.index piece.depth (AreUnpartedIn self.now.carton.now self.now.motion.now
            self.now.a.0 self.now.b.0 self.now.gap self.now.slack frame.0) }
        ensures open { result ≡ Sight.Open → piece.depth < MOST_HALVINGS }
    {
        if !is_on_way(self.carton, self.a, self.b, frame) {
            return Sight::Bad;
        }
        let Some(first) = reaches_in::<E>(self.carton, self.motion, self.a, frame, piece) else {
            return Sight::Bad;
        };
        let Some(second) = reaches_in::<E>(self.carton, self.motion, self.b, frame, piece) else {
            return Sight::Bad;
        };
        if are_apart(&first, &second, self.gap_halves()) {
            return Sight::Good;
        }
        if are_near(&first, &second, self.wide_halves()) {
            return Sight::Bad;
        }
        Sight::Open
    }

    /// As `see`, but it is enough that some frame leaves it open: the frames past it aren't looked at.
    pub fn see_first(&self, piece: Piece) -> Sight
        ensures good { result ≡ Sight.Good → Within piece.index piece.depth
            (ArePartedAt self.now.carton.now self.now.motion.now self.now.a.0 self.now.b.0 self.now.gap) }
        ensures bad { result ≡ Sight.Bad → Within piece.index piece.depth
            (AreUnpartedAt self.now.carton.now self.now.motion.now self.now.a.0 self.now.b.0 self.now.gap
            self.now.slack) }
    {
        for f in 0..self.carton.panels() {
            match self.look_in(PanelId(f), piece) {
                Sight::Good => return Sight::Good,
                Sight::Bad => {}
                Sight::Open => return Sight::Open,
            }
        }
        Sight::Bad
    }
}

impl<E: Enclose> Look for Pair<'_, E> {
    ghost good = { λ p. ArePartedAt p.carton.now p.motion.now p.a.0 p.b.0 p.gap };

    ghost bad = { λ p. AreUnpartedAt p.carton.now p.motion.now p.a.0 p.b.0 p.gap p.slack };

    // Some frame of the two panels parts them by more than the gap throughout the piece, or none does by
    // more than gap + slack/2 at any moment of it.
    fn see(&mut self, piece: Piece) -> Sight {
        let mut seen = Sight::Bad;
        for f in 0..self.carton.panels() {
            match self.look_in(PanelId(f), piece) {
                Sight::Good => return Sight::Good,
                Sight::Bad => {}
                Sight::Open => seen = Sight::Open,
            }
        }
        seen
    }
}
