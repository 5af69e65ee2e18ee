//! Texts of catalogues for the flap.

/// A rail below the flap and one above it, which meet it in move 3.
pub const RAILS: &str =
    "carton catalogue 1\nstroke 0 -200 0\nbody 175 192 640 860 15 48\nbody 120 145 640 860 76 92\nguide 6 3 3 2 190 50\nend\n";

/// The lower rail alone.
pub const ONE_RAIL: &str =
    "carton catalogue 1\nstroke 0 -200 0\nbody 175 192 640 860 15 48\nguide 6 3 3 2 190 50\nend\n";
