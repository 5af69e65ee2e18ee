use carton_base::{Moment, PanelId};

/// What is told of a body during a plan. Steps are moves of the plan, from 0 on.
#[derive(Clone, Copy, Debug, PartialEq, Eq)]
pub enum BodyNote {
    /// At no moment of any move a point of a shrunk panel lies in the body.
    Clears,
    /// At this moment of this move no direction parts the panel from the body by more than the
    /// slack. For a plan of one state the step is 0 and the moment 0/1.
    Touches {
        panel: PanelId,
        step: u32,
        moment: Moment,
    },
}
