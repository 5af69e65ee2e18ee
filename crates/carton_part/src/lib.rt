//! Whether panels of a carton are parted at every moment of a move, two-sided.
#![tactic(auto)]

mod closing;
mod frames;
mod judging;
mod laws;
mod over;
mod pair;
mod pieces;
mod sight;

pub use judging::{OpenPairs, Verdict, judge_motion, judge_open, open_pairs};
pub use laws::{corners_part_panels, parted_by_less, parted_panels_do_not_meet};
pub use over::{Counted, Parting, part_counted, part_over};
pub use pieces::{Walked, next as next_piece, walk};
pub use sight::{Look, Sight};
