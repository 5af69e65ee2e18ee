use carton_base::{Moment, PanelId};

/// The answer of a check, the first of these that applies. Steps are moves of the plan, from 0 on.
#[derive(Clone, Copy, Debug, PartialEq, Eq)]
pub enum Checked {
    WrongCreases,
    WrongStart,
    WrongEnd,
    /// In this move a stop changes by more than the task's stride.
    NotOneStop(u32),
    /// At this moment of this move the panels may collide: they aren't parted by more than half the
    /// slack. For a plan of one state the step is 0 and the moment 0/1.
    Blocked {
        step: u32,
        a: PanelId,
        b: PanelId,
        moment: Moment,
    },
    /// The plan is sound, and has so many moves.
    Holds(u32),
}
