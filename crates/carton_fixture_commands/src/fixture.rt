ghost use Rattle.std.specs.Prelude.{◌≡◌, string_bytes, IfOk};
ghost use Rattle.carton_fixture_commands.specs.Fixture.{plan_fails_text as plan_fails_text_of};
ghost use Rattle.carton_fixture_commands.specs.Fixture.{not_held_text as not_held_text_of};

use crate::notes::{unheld_line, write_notes};
use carton_base::{Listed, OutOfMemory};
use carton_check::Checked;
use carton_fixture::{Compiled, Fixture, UnheldEnd, compile, write_fixture};
use carton_setup::{Command, Refusal, Supply, Told, checked_text};
use carton_stroke::BodyNote;
use std::alloc::{AllocError, Global};

/// What came of making a fixture: the fixture, or why there is none: what the check says of a plan that
/// doesn't hold, or a note on each candidate, in their order, and an end of a guide that those which
/// clear the plan don't hold.
#[derive(Debug, Drop)]
pub enum MadeFixture {
    Made(Fixture),
    PlanFails(Checked),
    NotHeld {
        bodies: Listed<BodyNote>,
        unheld: UnheldEnd,
    },
}

/// The text of a plan that doesn't hold, for a task of this stride, in stops, with its line feed.
pub fn plan_fails_text(alloc: Global, stride: u8, checked: Checked) -> Result<String, AllocError>
    ensures { IfOk result (λ text. string_bytes text ≡ plan_fails_text_of stride checked) }
{
    let checked = checked_text(alloc, stride, checked)?;
    format!(in alloc; "plan {checked}")
}

// The text of candidates that don't hold every guide.
fn not_held_text(alloc: Global, notes: &[BodyNote], unheld: UnheldEnd) -> Result<String, AllocError>
    ensures { IfOk result (λ text. string_bytes text ≡ not_held_text_of notes.now unheld) }
{
    let mut text = String::from_str(alloc, "refused\n")?;
    write_notes(alloc, &mut text, notes)?;
    let last = unheld_line(alloc, unheld)?;
    text.push_str(&last)?;
    Ok(text)
}

/// `fixture`: a fixture for a plan, made of a catalogue, or why none is made.
#[derive(Clone, Copy, Drop)]
pub struct FixtureCommand;

impl Command for FixtureCommand {
    type Given = Supply;

    type Found = MadeFixture;

    ghost use Rattle.carton_fixture_commands.specs.Fixture.{told_fixture, IsMadeFor, IsWritable};
    ghost use Rattle.carton_setup.specs.Outcomes.{values};

    ghost finds = { λ c s. values (IsMadeFor s) };

    ghost is_tellable = { IsWritable };

    ghost told = { λ c s made. told_fixture s.setup.task.stride made };

    fn find(&self, alloc: Global, given: &Supply) -> Result<MadeFixture, Refusal> {
        let Supply {
            setup,
            plan,
            catalogue,
        } = given;
        match compile(alloc, &setup.carton, &setup.task, plan, catalogue) {
            Compiled::Made(fixture) => Ok(MadeFixture::Made(fixture)),
            Compiled::PlanFails(checked) => Ok(MadeFixture::PlanFails(checked)),
            Compiled::Refused { bodies, unheld } => Ok(MadeFixture::NotHeld { bodies, unheld }),
            Compiled::Memory => Err(Refusal::NoMemory),
        }
    }

    fn tell(&self, alloc: Global, given: &Supply, found: MadeFixture) -> Result<Told, OutOfMemory> {
        match found {
            MadeFixture::Made(fixture) => Ok(Told::done(write_fixture(alloc, &fixture)?)),
            MadeFixture::PlanFails(checked) => {
                let text = plan_fails_text(alloc, given.setup.task.stride, checked)?;
                Ok(Told::denied(text.into_bytes()))
            }
            MadeFixture::NotHeld { bodies, unheld } => {
                let text = not_held_text(alloc, bodies.as_slice(), unheld)?;
                Ok(Told::denied(text.into_bytes()))
            }
        }
    }
}
