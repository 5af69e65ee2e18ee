ghost use Rattle.std.specs.Prelude.{◌≡◌, ◌↔◌, ◌+◌, ◌<◌, ◌≤◌, length, string_bytes, IfOk, None, false};
ghost use Rattle.carton_base.specs.declared.limits.TheConstants.{WIDEST_MARGIN};
ghost use Rattle.carton_model.specs.Dielines.{IsDieline};
ghost use Rattle.carton_panels.specs.Creases.{IsCommonCreaseAnswer};
ghost use Rattle.carton_panels.specs.DielinePanels.{AreShapes};
ghost use Rattle.carton_panels.specs.Panels.{face_at};
ghost use Rattle.carton_setup.specs.Outcomes.{IsOutcome};
ghost use Rattle.carton_plan_commands.specs.Flat.{told_verdict as told_verdict_of, IsVerdict, verdicts};
ghost use Rattle.carton_plan_commands.specs.FlatPairs.{IsJudgedSoFar, IsRow};

use carton_base::{OutOfMemory, PanelId, RawDieline};
use carton_panels::{PanelShape, common_crease, flat_parted, panels};
use carton_setup::{Command, Refusal, Told, accept};
use carton_words::FileKind;
use std::alloc::{AllocError, Global};

/// What came of judging the panels of a dieline: all pairs that share no crease are parted, with their
/// number, or the first pair that isn't.
#[derive(Clone, Copy, Debug, PartialEq, Eq)]
pub enum FlatVerdict {
    Clear(u32),
    Blocked(PanelId, PanelId),
}

// The text of a verdict, with its line feed.
fn verdict_text(alloc: Global, verdict: FlatVerdict) -> Result<String, AllocError>
    ensures { IfOk result (λ text. string_bytes text ≡ (told_verdict_of verdict).text) }
{
    let text = match verdict {
        FlatVerdict::Clear(pairs) => format!(in alloc; "clear {pairs}\n")?,
        FlatVerdict::Blocked(PanelId(a), PanelId(b)) => format!(in alloc; "blocked {a} {b}\n")?,
    };
    Ok(text)
}

// Whether two panels share a crease.
fn share_crease(raw: &RawDieline, a: PanelId, b: PanelId) -> bool
    requires valid { IsDieline raw.now }
    requires first { a.0 < length raw.now.faces }
    requires second { b.0 < length raw.now.faces }
    ensures { (result ≡ false) ↔ IsCommonCreaseAnswer raw.now (face_at raw.now a.0).corners
        (face_at raw.now b.0).corners None }
{
    match common_crease(raw, a, b) {
        Some(_) => true,
        None => false,
    }
}

// What came of judging a panel against the panels after it.
enum Row {
    Parted(u32),
    Unparted(PanelId),
}

// Judges panel a against the panels after it, after so many pairs of earlier panels.
fn judge_row(raw: &RawDieline, margin: u16, shapes: &[PanelShape], a: usize, before: u32) -> Row
    requires valid { IsDieline raw.now }
    requires shapes { AreShapes margin raw.now shapes.now }
    requires whole { length shapes.now ≡ length raw.now.faces }
    requires first { a < length raw.now.faces }
    requires before { IsJudgedSoFar margin raw.now a (a + 1) before }
    ensures { IsRow margin raw.now a result }
{
    let mut count = before;
    for b in a + 1..shapes.len() {
        let other = PanelId(b as u8);
        if share_crease(raw, PanelId(a as u8), other) {
            continue;
        }
        if !flat_parted(&shapes[a], &shapes[b]) {
            return Row::Unparted(other);
        }
        count += 1;
    }
    Row::Parted(count)
}

// Judges all pairs of panels that share no crease.
fn judge(raw: &RawDieline, margin: u16, shapes: &[PanelShape]) -> FlatVerdict
    requires valid { IsDieline raw.now }
    requires shapes { AreShapes margin raw.now shapes.now }
    requires whole { length shapes.now ≡ length raw.now.faces }
    ensures { IsVerdict margin raw.now result }
{
    let mut count = 0;
    for a in 0..shapes.len() {
        match judge_row(raw, margin, shapes, a, count) {
            Row::Parted(judged) => count = judged,
            Row::Unparted(b) => return FlatVerdict::Blocked(PanelId(a as u8), b),
        }
    }
    FlatVerdict::Clear(count)
}

// The verdict on a dieline that was read.
fn verdict_on(alloc: Global, raw: &RawDieline, margin: u16) -> Result<FlatVerdict, Refusal>
    requires valid { IsDieline raw.now }
    requires margin { margin ≤ WIDEST_MARGIN }
    ensures { IsOutcome (verdicts margin raw.now) result }
{
    match panels(alloc, raw, margin) {
        Ok(shapes) => Ok(judge(raw, margin, &shapes)),
        Err(e) => accept(FileKind::Dieline, Err(e)),
    }
}

/// `flat`: whether the shrunk panels of a flat dieline that share no crease are parted.
#[derive(Clone, Copy, Drop)]
pub struct FlatCommand {
    /// By how much panels shrink on each side, in dieline units.
    pub margin: u16,

    ghost narrow: { margin ≤ WIDEST_MARGIN },
}

impl Command for FlatCommand {
    type Given = RawDieline;

    type Found = FlatVerdict;

    ghost use Rattle.std.specs.Prelude.{⊤};
    ghost use Rattle.carton_plan_commands.specs.Flat.{told_verdict, verdicts};

    ghost finds = { λ c d. verdicts c.margin d };

    ghost is_tellable = { λ verdict. ⊤ };

    ghost told = { λ c d verdict. told_verdict verdict };

    fn find(&self, alloc: Global, given: &RawDieline) -> Result<FlatVerdict, Refusal> {
        verdict_on(alloc, given, self.margin)
    }

    fn tell(
        &self,
        alloc: Global,
        _given: &RawDieline,
        found: FlatVerdict,
    ) -> Result<Told, OutOfMemory> {
        let text = verdict_text(alloc, found)?.into_bytes();
        match found {
            FlatVerdict::Clear(_) => Ok(Told::done(text)),
            FlatVerdict::Blocked(_, _) => Ok(Told::denied(text)),
        }
    }
}
