use carton_base::{EdgeId, Stop};

/// From where to where a free joint goes.
#[derive(Clone, Copy)]
pub struct Course {
    pub edge: EdgeId,
    pub start: Stop,
    pub target: Stop,
}
