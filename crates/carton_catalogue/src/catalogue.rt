use carton_base::{Cuboid, Guide, Listed};

/// What a fixture may be made of: the bodies, which are numbered from 0, and the guides that they are to
/// hold. `stroke` is how far all bodies are displaced in each move, along x, y and z, in dieline units.
#[derive(Debug, Drop, PartialEq)]
pub struct Catalogue {
    pub stroke: [i32; 3],
    pub bodies: Listed<Cuboid>,
    pub guides: Listed<Guide>,
}
