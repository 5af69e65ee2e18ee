ghost use Rattle.std.specs.Prelude.{◌≢◌, IfOk, IfErr};
ghost use Rattle.carton_base.specs.Steps.{Gives as GivesBut};
ghost use Rattle.carton_lines.specs.declared.fault.LineError.TheVariants.{Memory as OutOfMemory};
ghost use Rattle.carton_catalogue.specs.CatalogueRules.{IsCatalogue};
ghost use Rattle.carton_catalogue.specs.Catalogues.{catalogue_of};

use crate::catalogue::Catalogue;
use crate::catalogue_error::CatalogueError;
use crate::draft::CatalogueDraft;
use crate::lines::catalogue_line;
use carton_lines::{Fault, LineText, read_freely};
use std::alloc::Global;

impl LineText for CatalogueDraft {
    ghost use Rattle.carton_catalogue.specs.Catalogues.{catalogue_lines};

    ghost grammar = { catalogue_lines };

    fn begin(alloc: Global, line: &[u8]) -> Result<CatalogueDraft, Fault> {
        if line != b"carton catalogue 1".as_slice() {
            return Err(Fault::BadLine);
        }
        Ok(CatalogueDraft::new(alloc))
    }

    fn take(self, alloc: Global, _number: u32, line: &[u8]) -> Result<CatalogueDraft, Fault> {
        let line = catalogue_line(alloc, line)?;
        self.add(line)
    }

    fn may_end(&self) -> bool {
        true
    }
}

/// The catalogue of the bytes of a text.
///
/// # Errors
///
/// The fault of the first line that has one, or `NoEnd`, as a `Line`; `NoGuide`, or `Memory`.
#[tactic(auto, unfolding(crate::specs::Catalogues::catalogue_of))]
pub fn read_catalogue(alloc: Global, bytes: &[u8]) -> Result<Catalogue, CatalogueError>
    ensures reads { GivesBut CatalogueError.Memory (λ c. c) result (catalogue_of bytes.now) }
    ensures keeps_rules { IfOk result IsCatalogue }
    ensures own_memory { IfErr result (λ e. e ≢ CatalogueError.Line OutOfMemory) }
{
    read_freely::<CatalogueDraft>(alloc, bytes)?.told()
}
