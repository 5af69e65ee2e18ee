ghost use Rattle.std.specs.Prelude.{IfOk};
ghost use Rattle.carton_catalogue.specs.CatalogueRules.{IsCatalogue};
ghost use Rattle.carton_text.specs.PlanRules.{IsPlan};
ghost use Rattle.carton_setup.specs.Outcomes.{IsOutcome};
ghost use Rattle.carton_setup.specs.Setups.{IsRight};
ghost use Rattle.carton_setup.specs.Supplies.{catalogues, fitted as fitted_of, supplies, IsFitted};

use crate::accepting::accept;
use crate::files::bytes_at;
use crate::proposal::{Proposal, proposal_from};
use crate::refusal::Refusal;
use crate::setup::Setup;
use carton_base::Listed;
use carton_catalogue::{Catalogue, fit_catalogue, read_catalogue};
use carton_text::Plan;
use carton_words::FileKind;
use std::alloc::Global;

/// What a dieline, a job, a plan and a catalogue give: the carton and the task on it, the plan, and the
/// catalogue, which fits them.
#[derive(Drop)]
pub struct Supply {
    pub setup: Setup,
    pub plan: Plan,
    pub catalogue: Catalogue,
}

// The catalogue of the fourth file.
fn catalogue_in(alloc: Global, files: &[Listed<u8>]) -> Result<Catalogue, Refusal>
    ensures reads { IsOutcome (catalogues files.now) result }
    ensures keeps_rules { IfOk result IsCatalogue }
{
    accept(
        FileKind::Catalogue,
        read_catalogue(alloc, bytes_at(files, 3)),
    )
}

// All of them, if the catalogue fits.
fn fitted(setup: Setup, plan: Plan, catalogue: Catalogue) -> Result<Supply, Refusal>
    requires right { IsRight setup }
    requires plan { IsPlan plan }
    requires catalogue { IsCatalogue catalogue }
    ensures fits { IsOutcome (fitted_of setup plan catalogue) result }
    ensures keeps_rules { IfOk result IsFitted }
{
    match fit_catalogue(&setup.carton, &setup.task, &plan, &catalogue) {
        Ok(()) => Ok(Supply {
            setup,
            plan,
            catalogue,
        }),
        Err(e) => accept(FileKind::Catalogue, Err(e)),
    }
}

/// What the bytes of the first four files, a dieline, a job, a plan and a catalogue, give. After those of
/// a proposal, faults are looked for in this order: the text of the catalogue, and that it fits.
pub fn supply_from(alloc: Global, files: &[Listed<u8>]) -> Result<Supply, Refusal>
    ensures supplies { IsOutcome (supplies files.now) result }
    ensures keeps_rules { IfOk result IsFitted }
{
    let Proposal { setup, plan } = proposal_from(alloc, files)?;
    let catalogue = catalogue_in(alloc, files)?;
    fitted(setup, plan, catalogue)
}
