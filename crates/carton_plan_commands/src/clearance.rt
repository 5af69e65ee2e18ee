ghost use Rattle.std.specs.Prelude.{◌≡◌, ◌++◌, flat_map, string_bytes, OnOk, IfOk};
ghost use Rattle.carton_setup.specs.Printed.{line};
ghost use Rattle.carton_plan_commands.specs.Clearance.{tight_text, row_line as row_line_of};
ghost use Rattle.carton_plan_commands.specs.Clearance.{rows_text as rows_text_of};

use carton_base::{Listed, Moment, OutOfMemory, PanelId};
use carton_check::Checked;
use carton_report::{Cleared, Row, clearances};
use carton_setup::{Command, Proposal, Refusal, Told, checked_text, moment_text};
use std::alloc::{AllocError, Global};

/// The report on a plan: a row for each move of a plan that holds, in order, or what its check says of
/// one that doesn't.
#[derive(Debug, Drop)]
pub enum Report {
    Rows(Listed<Row>),
    Fails(Checked),
}

// The line of a move in which two panels come that near.
fn tight_line(
    alloc: Global,
    step: u32,
    clear: u16,
    a: PanelId,
    b: PanelId,
    moment: Moment,
) -> Result<String, AllocError>
    ensures { IfOk result (λ text. string_bytes text ≡ line (tight_text step clear a b moment)) }
{
    let moment = moment_text(alloc, moment)?;
    format!(in alloc;
        "move {step} clear {clear} panels {} {} moment {moment}\n",
        a.0, b.0
    )
}

// The line of a move.
fn row_line(alloc: Global, row: Row) -> Result<String, AllocError>
    ensures { IfOk result (λ text. string_bytes text ≡ row_line_of row) }
{
    match row {
        Row::Wide { step } => format!(in alloc; "move {step} wide\n"),
        Row::Tight {
            step,
            clear,
            a,
            b,
            moment,
        } => tight_line(alloc, step, clear, a, b, moment),
    }
}

// Writes the lines of the moves.
fn write_rows(alloc: Global, text: &mut String, rows: &[Row]) -> Result<(), AllocError>
    ensures { OnOk result (string_bytes text.new ≡ string_bytes text.old ++ flat_map row_line_of rows.now) }
{
    for row in rows {
        let line = row_line(alloc, *row)?;
        text.push_str(&line)?;
    }
    Ok(())
}

// The text of a plan that holds: its number of moves, and their lines.
fn rows_text(alloc: Global, rows: &[Row]) -> Result<String, AllocError>
    ensures { IfOk result (λ text. string_bytes text ≡ rows_text_of rows.now) }
{
    let mut text = format!(in alloc; "clearance {}\n", rows.len())?;
    write_rows(alloc, &mut text, rows)?;
    Ok(text)
}

/// `clearance`: how far the panels stay parted in each move of a plan.
#[derive(Clone, Copy, Drop)]
pub struct ClearanceCommand;

impl Command for ClearanceCommand {
    type Given = Proposal;

    type Found = Report;

    ghost use Rattle.std.specs.Prelude.{⊤};
    ghost use Rattle.carton_plan_commands.specs.Clearance.{IsReport, told_report};
    ghost use Rattle.carton_setup.specs.Outcomes.{values};

    ghost finds = { λ c p. values (IsReport p) };

    ghost is_tellable = { λ report. ⊤ };

    ghost told = { λ c p report. told_report p.setup.task.stride report };

    fn find(&self, alloc: Global, given: &Proposal) -> Result<Report, Refusal> {
        let Proposal { setup, plan } = given;
        match clearances(alloc, &setup.carton, &setup.task, plan) {
            Cleared::Rows(rows) => Ok(Report::Rows(rows)),
            Cleared::Fails(checked) => Ok(Report::Fails(checked)),
            Cleared::Memory => Err(Refusal::NoMemory),
        }
    }

    fn tell(&self, alloc: Global, given: &Proposal, found: Report) -> Result<Told, OutOfMemory> {
        match found {
            Report::Rows(rows) => Ok(Told::done(rows_text(alloc, rows.as_slice())?.into_bytes())),
            Report::Fails(checked) => {
                let text = checked_text(alloc, given.setup.task.stride, checked)?;
                Ok(Told::denied(text.into_bytes()))
            }
        }
    }
}
