ghost use Rattle.std.specs.Prelude.{◌≡◌, ℕ, ◌<◌, ◌≤◌, length, IsTrue, ◌↔◌, IfSome};
ghost use Rattle.carton_base.specs.declared.limits.TheConstants.{MOST_PANELS};
ghost use Rattle.carton_base.specs.declared.motion.Motion.{Motion};
ghost use Rattle.carton_reach.specs.Ranges.{IsRange};
ghost use Rattle.carton_part.specs.Closing.{AreKnown, AreKnownApart, AreRowsOf, ForMoves, IsTable};
ghost use Rattle.carton_part.specs.Closing.{StayPartedBetween, TellAsMuch, TellsAsMuch, is_open};
ghost use Rattle.carton_part.specs.Looks.{IsReachIn};
ghost use Rattle.carton_part.specs.Parted.{AreStrangers};

use crate::frames::{is_on_way, reaches_between};
use carton_base::{MOST_PANELS, PanelId, State};
use carton_enclose::Enclose;
use carton_reach::{Reaches, are_apart};
use carton_tree::Carton;

/// Which panels are still to be judged with one panel.
pub type Row = [bool; MOST_PANELS];

/// How far a panel reaches in a frame in all moves between two states.
#[derive(Clone, Copy)]
pub struct Placed {
    pub frame: PanelId,
    pub reaches: Reaches,
}

/// How far panels reach, each in the frame in which it was placed last.
pub type Placements = [Option<Placed>; MOST_PANELS];

// Whether a < b, and the two share no crease.
fn are_strangers(carton: &Carton, a: PanelId, b: PanelId) -> bool
    requires { b.0 < length carton.now.panels }
    ensures { IsTrue result ↔ AreStrangers carton.now a.0 b.0 }
{
    a.0 < b.0 && !carton.shares_crease(a, b)
}

// The panels of greater number that share no crease with panel a.
fn strangers_of(carton: &Carton, a: PanelId) -> Row
    ensures count { length result ≡ MOST_PANELS }
    ensures strangers { (b : ℕ) → IsTrue (is_open result b) ↔ AreStrangers carton.now a.0 b }
{
    let mut row = [false; MOST_PANELS];
    for b in 0..carton.panels() {
        row[b as usize] = are_strangers(carton, a, PanelId(b));
    }
    row
}

/// All pairs of panels that share no crease.
pub fn all_strangers(carton: &Carton) -> [Row; MOST_PANELS]
    ensures rows { (motion : Motion) → AreRowsOf carton.now motion result }
    ensures table { IsTable result }
{
    let mut rows = [[false; MOST_PANELS]; MOST_PANELS];
    for a in 0..MOST_PANELS {
        rows[a] = strangers_of(carton, PanelId(a as u8));
    }
    rows
}

// Whether some place of the row is open.
fn has_open_place(row: &Row) -> bool {
    for open in row {
        if *open {
            return true;
        }
    }
    false
}

// Whether some pair is open.
fn has_open_pair(rows: &[Row; MOST_PANELS]) -> bool {
    for row in rows {
        if has_open_place(row) {
            return true;
        }
    }
    false
}

// Whether the frame serves a pair that is open in the row of panel a.
fn serves_row(carton: &Carton, frame: PanelId, a: PanelId, row: &Row) -> bool
    requires frame { frame.0 < length carton.now.panels }
    requires a { a.0 < length carton.now.panels }
    requires count { length row.now ≡ MOST_PANELS }
{
    for b in 0..carton.panels() {
        if row[b as usize] && is_on_way(carton, a, PanelId(b), frame) {
            return true;
        }
    }
    false
}

// Whether the frame serves a pair that is open.
fn serves(carton: &Carton, frame: PanelId, rows: &[Row; MOST_PANELS]) -> bool
    requires frame { frame.0 < length carton.now.panels }
    requires table { IsTable rows.now }
{
    for a in 0..carton.panels() {
        if serves_row(carton, frame, PanelId(a), &rows[a as usize]) {
            return true;
        }
    }
    false
}

// Whether the panel was placed last in this frame.
fn is_placed_in(placed: &Option<Placed>, frame: PanelId) -> bool {
    match placed {
        Some(placed) => placed.frame.0 == frame.0,
        None => false,
    }
}

// How far the panel reaches in the frame in all moves between the two states.
fn placed_in<E: Enclose>(
    carton: &Carton,
    low: &State,
    high: &State,
    frame: PanelId,
    p: PanelId,
) -> Option<Placed>
    requires frame { frame.0 < length carton.now.panels }
    requires p { p.0 < length carton.now.panels }
    requires range { IsRange low.now high.now }
    ensures { IfSome result
        (λ e. ForMoves low.now high.now (λ motion. IsReachIn carton.now motion p.0 e.frame.0 0 0 e.reaches)) }
{
    let reaches = reaches_between::<E>(carton, low, high, p, frame)?;
    Some(Placed { frame, reaches })
}

// Places the panel in the frame for all moves between the two states, unless it was placed there last.
fn know<E: Enclose>(
    carton: &Carton,
    low: &State,
    high: &State,
    frame: PanelId,
    p: PanelId,
    known: &mut Placements,
)
    requires few { length carton.now.panels ≤ MOST_PANELS }
    requires frame { frame.0 < length carton.now.panels }
    requires p { p.0 < length carton.now.panels }
    requires range { IsRange low.now high.now }
    requires known { AreKnown carton.now low.now high.now known.old }
    ensures { AreKnown carton.now low.now high.now known.new }
{
    if !is_placed_in(&known[p.0 as usize], frame) {
        known[p.0 as usize] = placed_in::<E>(carton, low, high, frame, p);
    }
}

// Whether both panels are placed in the frame, and are apart.
fn are_known_apart(first: &Option<Placed>, second: &Option<Placed>, frame: PanelId) -> bool
    ensures { IsTrue result → AreKnownApart frame.0 first.now second.now }
{
    match (first, second) {
        (Some(p), Some(q)) => {
            p.frame.0 == frame.0 && q.frame.0 == frame.0 && are_apart(&p.reaches, &q.reaches, 0)
        }
        _ => false,
    }
}

// Whether the panels are parted in the frame throughout every move between the two states.
fn are_parted<E: Enclose>(
    carton: &Carton,
    low: &State,
    high: &State,
    frame: PanelId,
    a: PanelId,
    b: PanelId,
    known: &mut Placements,
) -> bool
    requires few { length carton.now.panels ≤ MOST_PANELS }
    requires frame { frame.0 < length carton.now.panels }
    requires a { a.0 < length carton.now.panels }
    requires b { b.0 < length carton.now.panels }
    requires range { IsRange low.now high.now }
    requires known { AreKnown carton.now low.now high.now known.old }
    ensures known { AreKnown carton.now low.now high.now known.new }
    ensures parted { IsTrue result → StayPartedBetween carton.now low.now high.now a.0 b.0 }
{
    if !is_on_way(carton, a, b, frame) {
        return false;
    }
    know::<E>(carton, low, high, frame, a, known);
    know::<E>(carton, low, high, frame, b, known);
    are_known_apart(&known[a.0 as usize], &known[b.0 as usize], frame)
}

// The row of panel a without the panels that are parted from it in the frame throughout every move
// between the two states.
fn closed_row<E: Enclose>(
    carton: &Carton,
    low: &State,
    high: &State,
    frame: PanelId,
    a: PanelId,
    row: Row,
    known: &mut Placements,
) -> Row
    requires frame { frame.0 < length carton.now.panels }
    requires a { a.0 < length carton.now.panels }
    requires range { IsRange low.now high.now }
    requires count { length row ≡ MOST_PANELS }
    requires known { AreKnown carton.now low.now high.now known.old }
    ensures count { length result ≡ MOST_PANELS }
    ensures row { TellsAsMuch carton.now low.now high.now a.0 row result }
    ensures known { AreKnown carton.now low.now high.now known.new }
{
    let mut left = row;
    for b in 0..carton.panels() {
        if left[b as usize] && are_parted::<E>(carton, low, high, frame, a, PanelId(b), known) {
            left[b as usize] = false;
        }
    }
    left
}

// Closes the pairs that are parted in the frame throughout every move between the two states.
fn close_in<E: Enclose>(
    carton: &Carton,
    low: &State,
    high: &State,
    frame: PanelId,
    rows: &mut [Row; MOST_PANELS],
    known: &mut Placements,
)
    requires frame { frame.0 < length carton.now.panels }
    requires range { IsRange low.now high.now }
    requires table { IsTable rows.old }
    requires known { AreKnown carton.now low.now high.now known.old }
    ensures table { IsTable rows.new }
    ensures rows { TellAsMuch carton.now low.now high.now rows.old rows.new }
    ensures known { AreKnown carton.now low.now high.now known.new }
{
    if !serves(carton, frame, rows) {
        return;
    }
    for a in 0..carton.panels() {
        let row = rows[a as usize];
        rows[a as usize] = closed_row::<E>(carton, low, high, frame, PanelId(a), row, known);
    }
}

/// Closes the pairs that some frame parts throughout every move between the two states. The root's
/// frame comes first, since it serves the most pairs; no frame is tried once none is open.
pub fn close_all<E: Enclose>(
    carton: &Carton,
    low: &State,
    high: &State,
    rows: &mut [Row; MOST_PANELS],
)
    requires range { IsRange low.now high.now }
    requires table { IsTable rows.old }
    ensures table { IsTable rows.new }
    ensures rows { TellAsMuch carton.now low.now high.now rows.old rows.new }
{
    if !has_open_pair(rows) {
        return;
    }
    let count = carton.panels();
    let root = carton.root();
    let mut known: Placements = [None; MOST_PANELS];
    close_in::<E>(carton, low, high, root, rows, &mut known);
    for f in 0..count {
        if !has_open_pair(rows) {
            return;
        }
        if f != root.0 {
            close_in::<E>(carton, low, high, PanelId(f), rows, &mut known);
        }
    }
}
