/// A position, part by part.
#[derive(Clone, Copy, Drop)]
pub struct Space<E> {
    pub x: E,
    pub y: E,
    pub z: E,
}
