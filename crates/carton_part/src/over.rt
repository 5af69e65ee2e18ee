ghost use Rattle.std.specs.Prelude.{◌≡◌, ◌<◌, ◌≤◌, length, pos, ◌≤ℤ◌};
ghost use Rattle.carton_base.specs.declared.limits.TheConstants.{MOST_JOINTS};
ghost use Rattle.carton_model.specs.Moves.{IsMotion};
ghost use Rattle.carton_part.specs.Answers.{IsPartingOf};

use crate::pair::Pair;
use crate::pieces::walk;
use crate::sight::Sight;
use carton_base::{Moment, Motion, PanelId, Piece};
use carton_enclose::Enclose;
use carton_tree::Carton;
use std::marker::PhantomData;

/// What is known of two panels over a move.
#[derive(Clone, Copy, Debug, PartialEq, Eq)]
pub enum Parting {
    /// At every moment they are parted by more than the gap.
    Parted,
    /// At this moment they aren't parted by more than gap + slack/2.
    Undecided(Moment),
}

/// A parting, and how many pieces of the move were looked at for it.
#[derive(Clone, Copy, Debug, PartialEq, Eq)]
pub struct Counted {
    pub parting: Parting,
    pub pieces: u64,
}

// What a walk over the move tells of the two panels, where its first piece is given.
fn part_from<E: Enclose>(pair: &mut Pair<'_, E>, start: Piece) -> Counted
    requires start { start.index ≡ 0 }
    ensures parting { IsPartingOf pair.old.carton.now pair.old.motion.now pair.old.a.0 pair.old.b.0
        pair.old.gap pair.old.slack result.parting }
    ensures pieces { 1 ≤ result.pieces }
{
    let walked = walk(pair, start);
    let pieces = walked.pieces;
    match walked.bad {
        None => Counted {
            parting: Parting::Parted,
            pieces,
        },
        Some(moment) => Counted {
            parting: Parting::Undecided(moment),
            pieces,
        },
    }
}

/// As `part_over`, with the number of pieces of the move that were looked at.
pub fn part_counted<E: Enclose>(
    carton: &Carton,
    motion: &Motion,
    a: PanelId,
    b: PanelId,
    gap: i64,
    slack: u16,
) -> Counted
    requires a { a.0 < length carton.now.panels }
    requires b { b.0 < length carton.now.panels }
    requires motion { IsMotion MOST_JOINTS motion.now }
    requires gap { (pos 0 ≤ℤ gap) × (gap ≤ℤ pos 9999) }
    requires slack { (1 ≤ slack) × (slack ≤ 1000) }
    ensures parting { IsPartingOf carton.now motion.now a.0 b.0 gap slack result.parting }
    ensures pieces { 1 ≤ result.pieces }
{
    let mut pair = Pair::<E> {
        carton,
        motion,
        a,
        b,
        gap,
        slack,
        numbers: PhantomData,
    };
    part_from(&mut pair, Piece::whole())
}

/// Whether at every moment of the move some frame between the two panels parts them by more than
/// the gap; else a moment at which none does by more than gap + slack/2. Lengths are in dieline
/// units.
pub fn part_over<E: Enclose>(
    carton: &Carton,
    motion: &Motion,
    a: PanelId,
    b: PanelId,
    gap: i64,
    slack: u16,
) -> Parting
    requires a { a.0 < length carton.now.panels }
    requires b { b.0 < length carton.now.panels }
    requires motion { IsMotion MOST_JOINTS motion.now }
    requires gap { (pos 0 ≤ℤ gap) × (gap ≤ℤ pos 9999) }
    requires slack { (1 ≤ slack) × (slack ≤ 1000) }
    ensures { IsPartingOf carton.now motion.now a.0 b.0 gap slack result }
{
    part_counted::<E>(carton, motion, a, b, gap, slack).parting
}

/// As `part_over`, for two panels that no frame is known to part over the whole move. The whole move
/// is looked at only for whether its halves may tell more.
pub fn part_open<E: Enclose>(pair: &mut Pair<'_, E>) -> Parting
    ensures { IsPartingOf pair.old.carton.now pair.old.motion.now pair.old.a.0 pair.old.b.0
        pair.old.gap pair.old.slack result }
{
    let whole = Piece::whole();
    match pair.see_first(whole) {
        Sight::Good => Parting::Parted,
        Sight::Bad => Parting::Undecided(whole.first()),
        Sight::Open => part_from(pair, whole.halves().0).parting,
    }
}
