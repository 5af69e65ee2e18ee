use carton_base::Cuboid;

/// A body during move `step` of a plan: its box at the start of move 0, and the stroke by which it
/// shifts in each move, in dieline units.
#[derive(Clone, Copy)]
pub struct Moving {
    pub shape: Cuboid,
    pub stroke: [i32; 3],
    pub step: u32,
}
