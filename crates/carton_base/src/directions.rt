ghost use Rattle.std.specs.Prelude.{[], ◌∷◌, All, Contains, ℤ, pos, slice_index_or};
ghost use Rattle.carton_base.specs.Directions.{IsDirection};

/// The 26 directions along which panels are parted: all with parts -1, 0 and 1 but the one of zeros.
pub const DIRECTIONS: [[i8; 3]; 26] = [
    [-1, -1, -1],
    [-1, -1, 0],
    [-1, -1, 1],
    [-1, 0, -1],
    [-1, 0, 0],
    [-1, 0, 1],
    [-1, 1, -1],
    [-1, 1, 0],
    [-1, 1, 1],
    [0, -1, -1],
    [0, -1, 0],
    [0, -1, 1],
    [0, 0, -1],
    [0, 0, 1],
    [0, 1, -1],
    [0, 1, 0],
    [0, 1, 1],
    [1, -1, -1],
    [1, -1, 0],
    [1, -1, 1],
    [1, 0, -1],
    [1, 0, 0],
    [1, 0, 1],
    [1, 1, -1],
    [1, 1, 0],
    [1, 1, 1],
];

/// `DIRECTIONS`: each direction, and nothing else.
pub fn all_directions() -> [[i8; 3]; 26]
    ensures each { All (λ d. IsDirection (slice_index_or d 0 (pos 0)) (slice_index_or d 1 (pos 0))
        (slice_index_or d 2 (pos 0))) result }
    ensures all { (u v t : ℤ) → IsDirection u v t → Contains result (u ∷ v ∷ t ∷ []) }
{
    DIRECTIONS
}
