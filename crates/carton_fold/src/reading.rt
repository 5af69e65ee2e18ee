ghost use Rattle.std.specs.Prelude.{IfOk};
ghost use Rattle.serde_json.specs.View.{view};
ghost use Rattle.carton_base.specs.Steps.{Gives};
ghost use Rattle.carton_model.specs.Dielines.{IsDieline};
ghost use Rattle.carton_fold.specs.Dieline.{dieline_in, dieline_of};

use crate::angles::read_angles;
use crate::edges::read_edges;
use crate::error::{FoldError, Key};
use crate::faces::read_faces;
use crate::letters::read_letters;
use crate::points::read_points;
use crate::values::{needed, value_of};
use carton_base::{Listed, RawDieline};
use serde_json::Value;
use std::alloc::Global;

#[tactic(auto, unfolding(crate::specs::Dieline::dieline_in))]
fn dieline_of_value(alloc: Global, value: &Value) -> Result<RawDieline, FoldError>
    ensures { Gives FoldError.Memory (λ d. d) result (dieline_in (view value.now)) }
{
    if !value.is_object() {
        return Err(FoldError::NotObject);
    }
    let vertices = needed(value, Key::Vertices)?;
    let edges = needed(value, Key::Edges)?;
    let faces = needed(value, Key::Faces)?;
    let vertices = read_points(alloc, vertices)?;
    let count = vertices.len() as u16;
    let edges = read_edges(alloc, count, edges)?;
    let letters = read_letters(alloc, edges.len(), value.get(Key::Assignment.name()))?;
    let faces = read_faces(alloc, count, faces)?;
    let angles = read_angles(alloc, edges.len(), value.get("edges_foldAngle"))?;
    Ok(RawDieline {
        vertices: Listed::from_vec(vertices),
        edges: Listed::from_vec(edges),
        letters: Listed::from_vec(letters),
        faces: Listed::from_vec(faces),
        angles,
    })
}

/// The dieline of the bytes of a FOLD file, in the units of its coordinates. Keys that no rule
/// speaks of are passed over; of two equal keys the last counts.
///
/// # Errors
///
/// The first rule that the file breaks, or `Memory`.
#[tactic(auto, using(crate::proofs::Accepted::keeps_rules), unfolding(crate::specs::Dieline::dieline_of))]
pub fn read_dieline(alloc: Global, bytes: &[u8]) -> Result<RawDieline, FoldError>
    ensures reads { Gives FoldError.Memory (λ d. d) result (dieline_of bytes.now) }
    ensures keeps_rules { IfOk result IsDieline }
{
    let value = value_of(alloc, bytes)?;
    dieline_of_value(alloc, &value)
}
