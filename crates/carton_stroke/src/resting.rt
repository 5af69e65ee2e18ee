ghost use Rattle.std.specs.Prelude.{◌≡◌, ℕ, [], ◌∷◌, ◌<◌, ◌≤◌, All, length};
ghost use Rattle.carton_base.specs.declared.limits.TheConstants.{MOST_JOINTS};
ghost use Rattle.carton_bodies.specs.Boxes.{IsBox};
ghost use Rattle.carton_model.specs.Moves.{IsState};
ghost use Rattle.carton_stroke.specs.Steps.{AreNotesAlone, IsNoteAlone};

use crate::nearness::Encounter;
use crate::note::BodyNote;
use carton_base::{Cuboid, MOST_HALVINGS, Moment, Motion, PanelId, Piece, State};
use carton_bodies::Moving;
use carton_part::{Look, Sight};
use carton_tree::Carton;

// What is told of a box in a single state, which is looked at in the first of the smallest pieces
// of a move that stands still.
fn note_alone(carton: &Carton, state: &State, body: &Moving, slack: u16) -> BodyNote
    requires state { IsState MOST_JOINTS state.now }
    requires shape { IsBox body.now.shape }
    requires step { body.now.step ≡ 0 }
    requires slack { 1 ≤ slack }
    ensures { IsNoteAlone carton.now state.now body.now.stroke slack body.now.shape result }
{
    let still = Motion {
        from: *state,
        to: *state,
    };
    let piece = Piece {
        index: 0,
        depth: MOST_HALVINGS,
    };
    for p in 0..carton.panels() {
        let panel = PanelId(p);
        let mut encounter = Encounter {
            carton,
            motion: &still,
            panel,
            body,
            slack,
        };
        match encounter.see(piece) {
            Sight::Good => {}
            Sight::Bad => {
                return BodyNote::Touches {
                    panel,
                    step: 0,
                    moment: Moment { num: 0, den: 1 },
                };
            }
            Sight::Open => unreachable!(),
        }
    }
    BodyNote::Clears
}

/// Notes what is told of boxes in a plan of one state.
pub fn note_state(
    carton: &Carton,
    state: &State,
    stroke: [i32; 3],
    bodies: &[Cuboid],
    slack: u16,
    notes: &mut [BodyNote],
)
    requires state { IsState MOST_JOINTS state.now }
    requires bodies { All IsBox bodies.now }
    requires slack { 1 ≤ slack }
    requires notes { length notes.old ≡ length bodies.now }
    ensures { AreNotesAlone carton.now state.now stroke slack bodies.now notes.new }
{
    for k in 0..bodies.len() {
        let body = Moving {
            shape: bodies[k],
            stroke,
            step: 0,
        };
        notes[k] = note_alone(carton, state, &body, slack);
    }
}
