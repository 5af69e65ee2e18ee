//! Texts of jobs.

/// The second square of the flap rises to a right angle.
pub const UP: &str = "carton job 1\nmargin 4\ntarget 6 8\nend\n";

/// The same on the finer grid.
pub const UP_FINELY: &str = "carton job 2 16 2\nmargin 4\ntarget 6 16\nend\n";

/// The second square of the flap stands up, and stays.
pub const STAY_UP: &str = "carton job 1\nmargin 4\nstart 6 8\ntarget 6 8\nend\n";

/// Nothing is asked.
pub const STAY: &str = "carton job 1\nmargin 4\nend\n";

/// All flaps of the tray rise in step.
pub const TOGETHER: &str =
    "carton job 1\nmargin 4\ntarget 0 8\ntarget 1 8\ntarget 2 8\ntarget 3 8\nteam 0 1 2 3\nend\n";

/// Flaps 2 and 4 of the tray fold onto the base, and would lie over each other.
pub const OVER_EACH_OTHER: &str = "carton job 1\nmargin 4\ntarget 1 16\ntarget 3 16\nend\n";

/// Flaps 2 and 4 of the tray are in one place, and stay.
pub const IN_ONE_PLACE: &str =
    "carton job 1\nmargin 4\nstart 1 16\nstart 3 16\ntarget 1 16\ntarget 3 16\nend\n";

/// Flaps 2 and 4 of the tray stand crossed, and change places.
pub const CROSS: &str =
    "carton job 1\nmargin 4\nstart 1 15\nstart 3 16\ntarget 1 16\ntarget 3 15\nend\n";
