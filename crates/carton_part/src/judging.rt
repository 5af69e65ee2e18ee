ghost use Rattle.std.specs.Prelude.{◌≡◌, ℕ, ◌<◌, ◌≤◌, length, pos, IfSome};
ghost use Rattle.carton_base.specs.declared.limits.TheConstants.{MOST_JOINTS};
ghost use Rattle.carton_base.specs.declared.motion.Motion.{Motion};
ghost use Rattle.carton_model.specs.Moves.{IsMotion};
ghost use Rattle.carton_reach.specs.Ranges.{IsMotionBetween, IsRange};
ghost use Rattle.carton_part.specs.Answers.{AreBlocked, IsVerdictOf, StayParted};
ghost use Rattle.carton_part.specs.Closing.{AreRowsOf, IsRowOf, IsTable};
ghost use Rattle.carton_part.specs.Parted.{AreStrangers};

use crate::closing::{Row, all_strangers, close_all};
use crate::over::{Parting, part_open};
use crate::pair::Pair;
use carton_base::{MOST_PANELS, Moment, Motion, PanelId, State};
use carton_enclose::Enclose;
use carton_tree::Carton;
use std::marker::PhantomData;

/// What is known of all panels over a move.
#[derive(Clone, Copy, Debug, PartialEq, Eq)]
pub enum Verdict {
    /// At every moment all panels that share no crease are parted.
    Clear,
    /// Panels a < b share no crease, and at this moment they aren't parted by more than slack/2.
    Blocked {
        a: PanelId,
        b: PanelId,
        moment: Moment,
    },
}

/// A panel, and the moment at which it isn't parted from another by more than slack/2.
#[derive(Clone, Copy)]
struct Touch {
    panel: PanelId,
    moment: Moment,
}

// The first panel in the row of panel a that doesn't stay parted from it.
fn blocked_in<E: Enclose>(
    carton: &Carton,
    motion: &Motion,
    a: PanelId,
    row: &Row,
    slack: u16,
) -> Option<Touch>
    requires a { a.0 < length carton.now.panels }
    requires motion { IsMotion MOST_JOINTS motion.now }
    requires row { IsRowOf carton.now motion.now a.0 row.now }
    requires slack { (1 ≤ slack) × (slack ≤ 1000) }
    ensures some { IfSome result (λ t. AreBlocked carton.now motion.now a.0 t.panel.0 slack t.moment) }
    ensures none { result ≡ None → (b : ℕ) → AreStrangers carton.now a.0 b
        → StayParted carton.now motion.now a.0 b (pos 0) }
{
    for b in 0..carton.panels() {
        if row[b as usize] {
            let panel = PanelId(b);
            let mut pair = Pair::<E> {
                carton,
                motion,
                a,
                b: panel,
                gap: 0,
                slack,
                numbers: PhantomData,
            };
            if let Parting::Undecided(moment) = part_open(&mut pair) {
                return Some(Touch { panel, moment });
            }
        }
    }
    None
}

/// Pairs of panels that are still to be judged: a row for each panel, and in it a place for each.
#[derive(Clone, Copy, Debug)]
pub struct OpenPairs {
    pub rows: [Row; MOST_PANELS],
}

/// All pairs of panels that share no crease, without those that some frame parts throughout every
/// move between the two states, whichever of these is the lower. The table serves all these moves.
pub fn open_pairs<E: Enclose>(carton: &Carton, low: &State, high: &State) -> OpenPairs
    requires range { IsRange low.now high.now }
    ensures pairs { (motion : Motion) → IsMotionBetween low.now high.now motion
        → AreRowsOf carton.now motion result.rows }
    ensures table { IsTable result.rows }
{
    let mut rows = all_strangers(carton);
    close_all::<E>(carton, low, high, &mut rows);
    OpenPairs { rows }
}

// As `judge_motion`, where only these pairs are left to be walked.
fn walk_rows<E: Enclose>(
    carton: &Carton,
    motion: &Motion,
    slack: u16,
    rows: &[Row; MOST_PANELS],
) -> Verdict
    requires motion { IsMotion MOST_JOINTS motion.now }
    requires slack { (1 ≤ slack) × (slack ≤ 1000) }
    requires rows { AreRowsOf carton.now motion.now rows.now }
    ensures { IsVerdictOf carton.now motion.now slack result }
{
    for a in 0..carton.panels() {
        let found = blocked_in::<E>(carton, motion, PanelId(a), &rows[a as usize], slack);
        if let Some(touch) = found {
            return Verdict::Blocked {
                a: PanelId(a),
                b: touch.panel,
                moment: touch.moment,
            };
        }
    }
    Verdict::Clear
}

/// As `judge_motion`, where all pairs are known to stay parted in the move that aren't open in the
/// table.
pub fn judge_open<E: Enclose>(
    carton: &Carton,
    motion: &Motion,
    slack: u16,
    pairs: &OpenPairs,
) -> Verdict
    requires motion { IsMotion MOST_JOINTS motion.now }
    requires slack { (1 ≤ slack) × (slack ≤ 1000) }
    requires pairs { AreRowsOf carton.now motion.now pairs.now.rows }
    ensures { IsVerdictOf carton.now motion.now slack result }
{
    let mut rows = pairs.rows;
    close_all::<E>(carton, &motion.from, &motion.to, &mut rows);
    walk_rows::<E>(carton, motion, slack, &rows)
}

/// Whether all panels that share no crease are parted at every moment of the move; else two of them,
/// and a moment at which no frame between them parts them by more than slack/2.
pub fn judge_motion<E: Enclose>(carton: &Carton, motion: &Motion, slack: u16) -> Verdict
    requires motion { IsMotion MOST_JOINTS motion.now }
    requires slack { (1 ≤ slack) × (slack ≤ 1000) }
    ensures { IsVerdictOf carton.now motion.now slack result }
{
    let rows = all_strangers(carton);
    judge_open::<E>(carton, motion, slack, &OpenPairs { rows })
}
