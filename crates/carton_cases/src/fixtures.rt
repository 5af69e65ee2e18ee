//! Texts of fixtures for the flap.

/// Both rails.
pub const RAILS: &str =
    "carton fixture 1\nstroke 0 -200 0\nbody 0 175 192 640 860 15 48\nbody 1 120 145 640 860 76 92\nend\n";

/// The lower rail alone.
pub const ONE_RAIL: &str = "carton fixture 1\nstroke 0 -200 0\nbody 0 175 192 640 860 15 48\nend\n";
