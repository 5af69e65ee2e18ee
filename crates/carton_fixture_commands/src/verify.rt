ghost use Rattle.std.specs.Prelude.{◌≡◌, string_bytes, IfOk};
ghost use Rattle.carton_fixture_commands.specs.Verify.{fixtures, claims, verified_text, IsClaim};
ghost use Rattle.carton_fixture_text.specs.FixtureRules.{IsFixture};
ghost use Rattle.carton_setup.specs.Outcomes.{IsOutcome};

use crate::fixture::plan_fails_text;
use crate::notes::{touch_line, unheld_line};
use carton_base::{Listed, OutOfMemory};
use carton_fixture::{Fixture, Verified, read_fixture, verify};
use carton_setup::{Command, Refusal, Supply, Taken, Told, accept, bytes_at, supply_from};
use carton_words::FileKind;
use std::alloc::{AllocError, Global};

/// A fixture that is said to be good for a plan, with what a catalogue supplies for it.
#[derive(Drop)]
pub struct Claim {
    pub supply: Supply,
    pub fixture: Fixture,
}

// The fixture of the fifth file.
fn fixture_in(alloc: Global, files: &[Listed<u8>]) -> Result<Fixture, Refusal>
    ensures reads { IsOutcome (fixtures files.now) result }
    ensures keeps_rules { IfOk result IsFixture }
{
    accept(FileKind::Fixture, read_fixture(alloc, bytes_at(files, 4)))
}

// What the bytes of all five files give.
fn claim_from(alloc: Global, files: &[Listed<u8>]) -> Result<Claim, Refusal>
    ensures claims { IsOutcome (claims files.now) result }
    ensures keeps_rules { IfOk result IsClaim }
{
    let supply = supply_from(alloc, files)?;
    let fixture = fixture_in(alloc, files)?;
    Ok(Claim { supply, fixture })
}

impl Taken for Claim {
    ghost use Rattle.carton_fixture_commands.specs.Verify.{claims, IsClaim};

    ghost outcomes = { claims };

    ghost keeps = { IsClaim };

    fn take(alloc: Global, files: &[Listed<u8>]) -> Result<Claim, Refusal> {
        claim_from(alloc, files)
    }
}

// The line on a fixture, for a task of this stride, in stops.
fn verified_line(alloc: Global, stride: u8, verified: Verified) -> Result<String, AllocError>
    ensures { IfOk result (λ text. string_bytes text ≡ verified_text stride verified) }
{
    match verified {
        Verified::PlanFails(checked) => plan_fails_text(alloc, stride, checked),
        Verified::OtherStroke => String::from_str(alloc, "other stroke\n"),
        Verified::NotCandidate(place) => format!(in alloc; "not a candidate {place}\n"),
        Verified::Touches {
            id,
            panel,
            step,
            moment,
        } => touch_line(alloc, id as usize, panel, step, moment),
        Verified::Unheld(unheld) => unheld_line(alloc, unheld),
        Verified::Holds(bodies) => format!(in alloc; "holds {bodies}\n"),
    }
}

/// `verify`: whether a fixture is good for a plan, or its first fault.
#[derive(Clone, Copy, Drop)]
pub struct VerifyCommand;

impl Command for VerifyCommand {
    type Given = Claim;

    type Found = Verified;

    ghost use Rattle.std.specs.Prelude.{⊤};
    ghost use Rattle.carton_fixture_commands.specs.Verify.{told_verified, IsVerifiedFor};
    ghost use Rattle.carton_setup.specs.Outcomes.{values};

    ghost finds = { λ c claim. values (IsVerifiedFor claim) };

    ghost is_tellable = { λ verified. ⊤ };

    ghost told = { λ c claim verified. told_verified claim.supply.setup.task.stride verified };

    fn find(&self, _alloc: Global, given: &Claim) -> Result<Verified, Refusal> {
        let Claim { supply, fixture } = given;
        let Supply {
            setup,
            plan,
            catalogue,
        } = supply;
        Ok(verify(&setup.carton, &setup.task, plan, catalogue, fixture))
    }

    fn tell(&self, alloc: Global, given: &Claim, found: Verified) -> Result<Told, OutOfMemory> {
        let text = verified_line(alloc, given.supply.setup.task.stride, found)?.into_bytes();
        match found {
            Verified::Holds(_) => Ok(Told::done(text)),
            Verified::PlanFails(_)
            | Verified::OtherStroke
            | Verified::NotCandidate(_)
            | Verified::Touches { .. }
            | Verified::Unheld(_) => Ok(Told::denied(text)),
        }
    }
}
