use carton_base::{EdgeId, PanelId, Turn};

/// The joint that hangs a panel from its parent: its edge, the parent, and how it turns the panel.
#[derive(Clone, Copy, Debug, PartialEq, Eq)]
pub struct Joint {
    pub edge: EdgeId,
    pub parent: PanelId,
    pub turn: Turn,
}
