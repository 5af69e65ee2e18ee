ghost use Rattle.std.specs.Prelude.{◌≡◌, ◌++◌, string_bytes, OnOk, IfOk};
ghost use Rattle.carton_fixture_commands.specs.Notes.{touching_text, touch_line as touch_line_of};
ghost use Rattle.carton_fixture_commands.specs.Notes.{note_line as note_line_of, note_lines};
ghost use Rattle.carton_fixture_commands.specs.Notes.{band_end as band_end_of};
ghost use Rattle.carton_fixture_commands.specs.Notes.{unheld_text as unheld_text_of};
ghost use Rattle.carton_setup.specs.Printed.{line};

use carton_base::{Moment, PanelId};
use carton_fixture::UnheldEnd;
use carton_guide::End;
use carton_setup::moment_text;
use carton_stroke::BodyNote;
use std::alloc::{AllocError, Global};

// The panel that touches a body, and when, with the line feed.
fn touching(alloc: Global, panel: PanelId, step: u32, moment: Moment) -> Result<String, AllocError>
    ensures { IfOk result (λ text. string_bytes text ≡ line (touching_text panel step moment)) }
{
    let moment = moment_text(alloc, moment)?;
    format!(in alloc; " touches panel {} move {step} moment {moment}\n", panel.0)
}

/// The line of a panel that touches the body with this number.
pub fn touch_line(
    alloc: Global,
    id: usize,
    panel: PanelId,
    step: u32,
    moment: Moment,
) -> Result<String, AllocError>
    ensures { IfOk result (λ text. string_bytes text ≡ touch_line_of id panel step moment) }
{
    let touching = touching(alloc, panel, step, moment)?;
    format!(in alloc; "body {id}{touching}")
}

// The line of the candidate with this number.
fn note_line(alloc: Global, id: usize, note: BodyNote) -> Result<String, AllocError>
    ensures { IfOk result (λ text. string_bytes text ≡ note_line_of id note) }
{
    match note {
        BodyNote::Clears => format!(in alloc; "body {id} clear\n"),
        BodyNote::Touches {
            panel,
            step,
            moment,
        } => touch_line(alloc, id, panel, step, moment),
    }
}

/// Writes the lines of all candidates.
pub fn write_notes(alloc: Global, text: &mut String, notes: &[BodyNote]) -> Result<(), AllocError>
    ensures { OnOk result (string_bytes text.new ≡ string_bytes text.old ++ note_lines 0 notes.now) }
{
    for (id, note) in notes.iter().enumerate() {
        let line = note_line(alloc, id, *note)?;
        text.push_str(&line)?;
    }
    Ok(())
}

// The word for an end of a band.
fn band_end(end: End) -> &'static str
    ensures { result.now ≡ band_end_of end }
{
    match end {
        End::Under => "under",
        End::Over => "over",
    }
}

/// The line of an end of a guide that isn't held.
pub fn unheld_line(alloc: Global, unheld: UnheldEnd) -> Result<String, AllocError>
    ensures { IfOk result (λ text. string_bytes text ≡ line (unheld_text_of unheld)) }
{
    let moment = moment_text(alloc, unheld.moment)?;
    format!(in alloc;
        "unheld guide {} {} move {} moment {moment}\n",
        unheld.guide,
        band_end(unheld.end),
        unheld.step
    )
}
