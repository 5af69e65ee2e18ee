//! The text of a catalogue, which has the bodies and the guides that a fixture may be made of, and whether a
//! catalogue fits a carton and a plan.
#![tactic(auto)]

mod boxes;
mod catalogue;
mod catalogue_error;
mod catalogue_text;
mod draft;
mod fit_error;
mod fitting;
mod guides;
mod laws;
mod limits;
mod lines;
mod values;
mod windows;

pub use catalogue::Catalogue;
pub use catalogue_error::CatalogueError;
pub use catalogue_text::read_catalogue;
pub use draft::CatalogueDraft;
pub use fit_error::FitError;
pub use fitting::fit_catalogue;
pub use laws::each_catalogue_is_read_of_its_spelling;
pub use limits::{
    FARTHEST_CORNER, LAST_EDGE, LAST_MOVE, MOST_BODIES, MOST_GUIDES, MOST_PROBES, WIDEST_BAND,
    limits_in_numbers,
};
pub use lines::{CatalogueLine, catalogue_line};
