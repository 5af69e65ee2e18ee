ghost use Rattle.std.specs.Prelude.{◌≡◌, ℕ, ◌+◌, ◌<◌, ◌≤◌, List, All, length, slice_index_or};
ghost use Rattle.carton_base.specs.declared.bodies.Cuboid.{Cuboid};
ghost use Rattle.carton_base.specs.declared.limits.TheConstants.{MOST_JOINTS, MOST_STATES, WIDEST_SLACK};
ghost use Rattle.carton_base.specs.declared.motion.State.{State};
ghost use Rattle.carton_bodies.specs.Boxes.{IsBox, faces};
ghost use Rattle.carton_text.specs.PlanMoves.{IsMove, AreMoves};
ghost use Rattle.carton_text.specs.TaskPlans.{IsPlanOf};
ghost use Rattle.carton_model.specs.Moves.{IsMotion};
ghost use Rattle.carton_stroke.specs.Clear.{IsSlackClearOf};
ghost use Rattle.carton_stroke.specs.Notes.{AreNotesOf, IsNoteOf};
ghost use Rattle.carton_stroke.specs.Steps.{AreKnown, AreNotesBefore, IsNoteBefore};

use crate::note::BodyNote;
use crate::passing::{Touch, first_touch};
use crate::resting::note_state;
use crate::world::{Placements, known_over};
use carton_base::{Cuboid, Motion, State};
use carton_bodies::Moving;
use carton_text::{Plan, move_at};
use carton_tree::Carton;

// What is told of the box after its move, by what was told before.
fn note_after(
    carton: &Carton,
    motion: &Motion,
    known: &Placements,
    body: &Moving,
    slack: u16,
    note: BodyNote,
) -> BodyNote
    requires motion { IsMotion MOST_JOINTS motion.now }
    requires known { AreKnown carton.now motion.now carton.now.root known.now }
    requires shape { IsBox body.now.shape }
    requires step { body.now.step ≤ MOST_STATES }
    requires slack { 1 ≤ slack }
    ensures { (states : List State) → IsMove states body.now.step motion.now.from motion.now.to
        → IsNoteBefore carton.now states body.now.stroke slack body.now.step body.now.shape note
        → IsNoteBefore carton.now states body.now.stroke slack (body.now.step + 1) body.now.shape result }
{
    match note {
        BodyNote::Touches { .. } => note,
        BodyNote::Clears => match first_touch(carton, motion, known, body, slack) {
            Some(Touch { panel, moment }) => BodyNote::Touches {
                panel,
                step: body.step,
                moment,
            },
            None => BodyNote::Clears,
        },
    }
}

// Notes which boxes are touched in a move.
fn note_move(
    carton: &Carton,
    motion: &Motion,
    step: u32,
    stroke: [i32; 3],
    bodies: &[Cuboid],
    slack: u16,
    notes: &mut [BodyNote],
)
    requires motion { IsMotion MOST_JOINTS motion.now }
    requires step { step ≤ MOST_STATES }
    requires bodies { All IsBox bodies.now }
    requires slack { 1 ≤ slack }
    requires notes { length notes.old ≡ length bodies.now }
    ensures { (states : List State) → IsMove states step motion.now.from motion.now.to
        → AreNotesBefore carton.now states stroke slack step bodies.now notes.old
        → AreNotesBefore carton.now states stroke slack (step + 1) bodies.now notes.new }
{
    let known = known_over(carton, motion);
    for k in 0..bodies.len() {
        let body = Moving {
            shape: bodies[k],
            stroke,
            step,
        };
        notes[k] = note_after(carton, motion, &known, &body, slack, notes[k]);
    }
}

// Notes which boxes are touched in the moves of two or more states.
fn note_moves(
    carton: &Carton,
    states: &[State],
    stroke: [i32; 3],
    bodies: &[Cuboid],
    slack: u16,
    notes: &mut [BodyNote],
)
    requires states { AreMoves states.now }
    requires moves { 2 ≤ length states.now }
    requires bodies { All IsBox bodies.now }
    requires slack { 1 ≤ slack }
    requires notes { AreNotesBefore carton.now states.now stroke slack 0 bodies.now notes.old }
    ensures { AreNotesBefore carton.now states.now stroke slack (length states.now) bodies.now notes.new }
{
    for i in 0..states.len() - 1 {
        let motion = move_at(states, i);
        note_move(carton, &motion, i as u32, stroke, bodies, slack, notes);
    }
}

// Notes that each box clears the plan, before any move is looked at.
fn note_none(notes: &mut [BodyNote])
    ensures count { length notes.new ≡ length notes.old }
    ensures clear { (k : ℕ) (m : BodyNote) → k < length notes.new → slice_index_or notes.new k m
        ≡ BodyNote.Clears }
{
    for k in 0..notes.len() {
        notes[k] = BodyNote::Clears;
    }
}

/// Notes of each box whether it clears the plan, or where a panel touches it. The boxes, which are
/// in dieline units, shift by the stroke in each move. How far the panels reach over a move is found
/// once for all boxes.
pub fn bodies_clear(
    carton: &Carton,
    plan: &Plan,
    stroke: [i32; 3],
    bodies: &[Cuboid],
    slack: u16,
    notes: &mut [BodyNote],
)
    requires plan { IsPlanOf carton.now plan.now }
    requires bodies { All IsBox bodies.now }
    requires slack { (1 ≤ slack) × (slack ≤ WIDEST_SLACK) }
    requires notes { length notes.old ≡ length bodies.now }
    ensures { AreNotesOf carton.now plan.now stroke bodies.now slack notes.new }
{
    note_none(notes);
    let states = plan.states.as_slice();
    if states.len() == 1 {
        note_state(carton, &states[0], stroke, bodies, slack, notes);
    } else {
        note_moves(carton, states, stroke, bodies, slack, notes);
    }
}

/// Whether the box clears the plan, or where a panel touches it. The box, in dieline units, shifts
/// by the stroke in each move.
pub fn body_clears(
    carton: &Carton,
    plan: &Plan,
    stroke: [i32; 3],
    body: &Cuboid,
    slack: u16,
) -> BodyNote
    requires plan { IsPlanOf carton.now plan.now }
    requires body { IsBox body.now }
    requires slack { (1 ≤ slack) × (slack ≤ WIDEST_SLACK) }
    ensures note { IsNoteOf carton.now plan.now stroke body.now slack result }
    ensures slack_clear { IsSlackClearOf carton.now plan.now stroke (faces body.now) slack
        → result ≡ BodyNote.Clears }
{
    let mut notes = [BodyNote::Clears];
    bodies_clear(carton, plan, stroke, &[*body], slack, &mut notes);
    notes[0]
}
