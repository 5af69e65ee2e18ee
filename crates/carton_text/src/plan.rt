use carton_base::{EdgeId, Listed, State};

/// The most creases of a plan: 24 panels have 23 joints.
pub const MOST_CREASES: usize = 23;

/// The states that a carton takes, one after the other. `creases` are the free joints, in the order of
/// edges; the k-th of them has place k in each state. How far the carton goes from one state to the
/// next is no condition of a plan.
#[derive(Debug, Drop, PartialEq)]
pub struct Plan {
    pub creases: Listed<EdgeId>,
    pub states: Listed<State>,
}
