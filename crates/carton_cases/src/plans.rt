//! Texts of plans.

/// The second square of the flap rises to a right angle, by one stop in each move.
pub const UP: &str =
    "carton plan 1\ncreases 6\nstate 0\nstate 1\nstate 2\nstate 3\nstate 4\nstate 5\nstate 6\nstate 7\nstate 8\nend\n";

/// The same rise on the finer grid.
pub const UP_FINELY: &str =
    "carton plan 2\ncreases 6\nstate 0\nstate 2\nstate 4\nstate 6\nstate 8\nstate 10\nstate 12\nstate 14\nstate 16\nend\n";

/// The second square of the flap stands up.
pub const STANDS: &str = "carton plan 1\ncreases 6\nstate 8\nend\n";

/// All flaps of the tray rise in step.
pub const TOGETHER: &str =
    "carton plan 1\ncreases 0 1 2 3\nstate 0 0 0 0\nstate 1 1 1 1\nstate 2 2 2 2\nstate 3 3 3 3\nstate 4 4 4 4\nstate 5 5 5 5\nstate 6 6 6 6\nstate 7 7 7 7\nstate 8 8 8 8\nend\n";

/// Flaps 2 and 4 of the tray change places in one move.
pub const CROSS: &str = "carton plan 1\ncreases 0 1 2 3\nstate 0 15 0 16\nstate 0 16 0 15\nend\n";

/// No joint moves, and there is none.
pub const BARE: &str = "carton plan 1\ncreases\nstate\nend\n";
