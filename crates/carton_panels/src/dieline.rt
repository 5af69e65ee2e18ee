ghost use Rattle.std.specs.Prelude.{◌≡◌, ◌≢◌, ◌<◌, ◌≤◌, length, IfOk, IfErr, Err};
ghost use Rattle.carton_base.specs.declared.ids.PanelId.{PanelId};
ghost use Rattle.carton_base.specs.declared.limits.TheConstants.{WIDEST_MARGIN};
ghost use Rattle.carton_model.specs.Dielines.{IsDieline};
ghost use Rattle.carton_panels.specs.Answers.{IsPanelAnswer};
ghost use Rattle.carton_panels.specs.DielinePanels.{panel_places, ArePanels, AreShapes};

use crate::error::PanelError;
use crate::shape::{PanelShape, panel};
use carton_base::{PanelId, RawDieline};
use std::alloc::Global;

/// All faces of a dieline as panels, in its order, each with what the margin leaves of it. The
/// first face that is no panel refuses the whole, by the first rule of [`panel`] that it breaks.
pub fn panels(alloc: Global, raw: &RawDieline, margin: u16) -> Result<Vec<PanelShape>, PanelError>
    requires dieline { IsDieline raw.now }
    requires margin { margin ≤ WIDEST_MARGIN }
    ensures shapes { IfOk result (λ v. AreShapes margin raw.now v.items) }
    ensures whole { IfOk result (λ v. length v.items ≡ length raw.now.faces) }
    ensures refused { IfErr result (λ e. e ≢ PanelError.Memory → (a : PanelId) × (a.0 < length raw.now.faces)
        × ArePanels margin raw.now a.0 × IsPanelAnswer a margin (panel_places raw.now a.0) (Err e)) }
{
    let mut shapes = Vec::new(alloc);
    for face in 0..raw.faces.len() {
        shapes.push(panel(alloc, raw, PanelId(face as u8), margin)?)?;
    }
    Ok(shapes)
}
