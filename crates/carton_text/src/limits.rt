ghost use Rattle.std.specs.Prelude.{◌≡◌};

use crate::job_line::{LAST_EDGE, MOST_MEMBERS};
use crate::plan::MOST_CREASES;

/// Each limit of a job's and a plan's text as a number.
pub fn limits_in_numbers()
    ensures numbers { (LAST_EDGE ≡ 2047) × (MOST_MEMBERS ≡ 23) × (MOST_CREASES ≡ 23) }
{}
