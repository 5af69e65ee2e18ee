ghost use Rattle.std.specs.Prelude.{◌≡◌, ◌++◌, Ok};
ghost use Rattle.carton_lines.specs.Lines.{Gives};
ghost use Rattle.carton_catalogue.specs.Catalogues.{new_draft, with_stroke as with_stroke_in};
ghost use Rattle.carton_catalogue.specs.Catalogues.{with_bodies as with_bodies_in};
ghost use Rattle.carton_catalogue.specs.Catalogues.{with_guide as with_guide_in, add as add_in};
ghost use Rattle.carton_catalogue.specs.Catalogues.{told as told_in};

use crate::catalogue::Catalogue;
use crate::catalogue_error::CatalogueError;
use crate::limits::{MOST_BODIES, MOST_GUIDES};
use crate::lines::CatalogueLine;
use carton_base::{Cuboid, Guide, Listed};
use carton_lines::Fault;
use std::alloc::Global;

/// What the lines of a catalogue have told so far.
#[derive(Drop)]
pub struct CatalogueDraft {
    pub stroke: Option<[i32; 3]>,
    pub bodies: Listed<Cuboid>,
    pub guides: Listed<Guide>,
}

// The bodies with more of them at the end.
fn joined(bodies: Listed<Cuboid>, more: &[Cuboid]) -> Result<Listed<Cuboid>, Fault>
    ensures { Gives (λ v. v) result (Ok (bodies ++ more.now)) }
{
    let mut all = bodies.into_vec();
    all.extend_from_slice(more)?;
    Ok(Listed::from_vec(all))
}

impl CatalogueDraft {
    /// A catalogue of which no line has told anything yet.
    pub fn new(alloc: Global) -> CatalogueDraft
        ensures { result ≡ new_draft }
    {
        CatalogueDraft {
            stroke: None,
            bodies: Listed::new(alloc),
            guides: Listed::new(alloc),
        }
    }

    #[tactic(auto, unfolding(crate::specs::Catalogues::with_stroke))]
    fn with_stroke(mut self, stroke: [i32; 3]) -> Result<CatalogueDraft, Fault>
        ensures { result ≡ with_stroke_in self stroke }
    {
        if self.stroke.is_some() {
            return Err(Fault::Duplicate);
        }
        self.stroke = Some(stroke);
        Ok(self)
    }

    #[tactic(auto, unfolding(crate::specs::Catalogues::with_bodies))]
    fn with_bodies(mut self, more: &[Cuboid]) -> Result<CatalogueDraft, Fault>
        ensures { Gives (λ d. d) result (with_bodies_in self more.now) }
    {
        if self.bodies.len().saturating_add(more.len()) > MOST_BODIES {
            return Err(Fault::Range);
        }
        self.bodies = joined(self.bodies, more)?;
        Ok(self)
    }

    #[tactic(auto, unfolding(crate::specs::Catalogues::with_guide))]
    fn with_guide(mut self, guide: Guide) -> Result<CatalogueDraft, Fault>
        ensures { Gives (λ d. d) result (with_guide_in self guide) }
    {
        if self.guides.len() >= MOST_GUIDES {
            return Err(Fault::Range);
        }
        self.guides.push(guide)?;
        Ok(self)
    }

    /// What a line adds to what the earlier ones told.
    ///
    /// # Errors
    ///
    /// `Range` where there would be more bodies or guides than there may be, `Duplicate` where an earlier
    /// line told the stroke; or `Memory`.
    #[tactic(auto, unfolding(crate::specs::Catalogues::add))]
    pub fn add(self, line: CatalogueLine) -> Result<CatalogueDraft, Fault>
        ensures { Gives (λ d. d) result (add_in self line) }
    {
        match line {
            CatalogueLine::Stroke(stroke) => self.with_stroke(stroke),
            CatalogueLine::Bodies(bodies) => self.with_bodies(bodies.as_slice()),
            CatalogueLine::Guide(guide) => self.with_guide(guide),
        }
    }

    /// The catalogue that the lines told.
    ///
    /// # Errors
    ///
    /// `NoGuide` where none of them is a guide.
    pub fn told(self) -> Result<Catalogue, CatalogueError>
        ensures { result ≡ told_in self }
    {
        if self.guides.len() == 0 {
            return Err(CatalogueError::NoGuide);
        }
        Ok(Catalogue {
            stroke: self.stroke.unwrap_or([0, 0, 0]),
            bodies: self.bodies,
            guides: self.guides,
        })
    }
}
