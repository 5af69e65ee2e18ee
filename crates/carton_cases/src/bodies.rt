//! Bodies for the flap.
use carton_base::Cuboid;

/// The rail below the flap.
pub const LOWER_RAIL: Cuboid = Cuboid {
    x0: 175,
    x1: 192,
    y0: 640,
    y1: 860,
    z0: 15,
    z1: 48,
};

/// The rail above it.
pub const UPPER_RAIL: Cuboid = Cuboid {
    x0: 120,
    x1: 145,
    y0: 640,
    y1: 860,
    z0: 76,
    z1: 92,
};
