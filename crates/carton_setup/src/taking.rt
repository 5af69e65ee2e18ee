use crate::command::Taken;
use crate::proposal::{Proposal, proposal_from};
use crate::refusal::Refusal;
use crate::setup::{Setup, dieline_in, set_up};
use crate::supply::{Supply, supply_from};
use carton_base::{Listed, RawDieline};
use std::alloc::Global;

/// What a command takes that reads no file.
#[derive(Drop)]
pub struct Nothing;

impl Taken for Nothing {
    ghost use Rattle.std.specs.Prelude.{⊤};
    ghost use Rattle.carton_setup.specs.Commands.{takes_nothing};

    ghost outcomes = { takes_nothing };

    ghost keeps = { λ nothing. ⊤ };

    fn take(_alloc: Global, _files: &[Listed<u8>]) -> Result<Nothing, Refusal> {
        Ok(Nothing)
    }
}

impl Taken for RawDieline {
    ghost use Rattle.carton_model.specs.Dielines.{IsDieline};
    ghost use Rattle.carton_setup.specs.Setups.{dielines};

    ghost outcomes = { dielines };

    ghost keeps = { IsDieline };

    fn take(alloc: Global, files: &[Listed<u8>]) -> Result<RawDieline, Refusal> {
        dieline_in(alloc, files)
    }
}

impl Taken for Setup {
    ghost use Rattle.carton_setup.specs.Setups.{setups, IsRight};

    ghost outcomes = { setups };

    ghost keeps = { IsRight };

    fn take(alloc: Global, files: &[Listed<u8>]) -> Result<Setup, Refusal> {
        set_up(alloc, files)
    }
}

impl Taken for Proposal {
    ghost use Rattle.carton_setup.specs.Proposals.{proposals, IsProposal};

    ghost outcomes = { proposals };

    ghost keeps = { IsProposal };

    fn take(alloc: Global, files: &[Listed<u8>]) -> Result<Proposal, Refusal> {
        proposal_from(alloc, files)
    }
}

impl Taken for Supply {
    ghost use Rattle.carton_setup.specs.Supplies.{supplies, IsFitted};

    ghost outcomes = { supplies };

    ghost keeps = { IsFitted };

    fn take(alloc: Global, files: &[Listed<u8>]) -> Result<Supply, Refusal> {
        supply_from(alloc, files)
    }
}
