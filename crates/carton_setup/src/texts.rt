ghost use Rattle.std.specs.Prelude.{◌≡◌, IfOk, string_bytes};
ghost use Rattle.carton_setup.specs.Refusals.{fold_text as fold_text_of, panel_text as panel_text_of};
ghost use Rattle.carton_setup.specs.Refusals.{tree_text as tree_text_of, line_text as line_text_of};
ghost use Rattle.carton_setup.specs.Refusals.{fit_text as fit_text_of, catalogue_text as catalogue_text_of};
ghost use Rattle.carton_setup.specs.Refusals.{guides_text as guides_text_of, rule_text as rule_text_of};
ghost use Rattle.carton_setup.specs.Refusals.{refusal_text as refusal_text_of};

use crate::refusal::{BadFile, Rule};
use carton_base::{EdgeId, PanelId};
use carton_catalogue::{CatalogueError, FitError};
use carton_fold::FoldError;
use carton_panels::PanelError;
use carton_text::{JobError, LineError};
use carton_tree::TreeError;
use std::alloc::{AllocError, Global};

fn fold_text(alloc: Global, e: FoldError) -> Result<String, AllocError>
    ensures { IfOk result (λ text. string_bytes text ≡ fold_text_of e) }
{
    match e {
        FoldError::NotJson => String::from_str(alloc, "not json"),
        FoldError::NotObject => String::from_str(alloc, "not an object"),
        FoldError::Missing(key) => format!(in alloc; "missing {}", key.name()),
        FoldError::BadShape(key) => format!(in alloc; "bad shape {}", key.name()),
        FoldError::TooMany(key) => format!(in alloc; "too many {}", key.name()),
        FoldError::NotWhole(key, place) => format!(in alloc; "not whole {} {place}", key.name()),
        FoldError::TooFar(vertex) => format!(in alloc; "too far vertex {vertex}"),
        FoldError::NotFlat(vertex) => format!(in alloc; "not flat vertex {vertex}"),
        FoldError::BadVertex(key, place) => format!(in alloc; "bad vertex {} {place}", key.name()),
        FoldError::BadLetter(edge) => format!(in alloc; "bad letter edge {edge}"),
        FoldError::JoinEdge(edge) => format!(in alloc; "join edge {edge}"),
        FoldError::Memory => String::from_str(alloc, "out of memory"),
    }
}

fn panel_text(alloc: Global, e: PanelError) -> Result<String, AllocError>
    ensures { IfOk result (λ text. string_bytes text ≡ panel_text_of e) }
{
    match e {
        PanelError::RepeatedVertex(PanelId(panel)) => {
            format!(in alloc; "repeated vertex panel {panel}")
        }
        PanelError::NotConvex(PanelId(panel)) => format!(in alloc; "not convex panel {panel}"),
        PanelError::TooThin(PanelId(panel)) => format!(in alloc; "too thin panel {panel}"),
        PanelError::Memory => String::from_str(alloc, "out of memory"),
    }
}

fn tree_text(alloc: Global, e: TreeError) -> Result<String, AllocError>
    ensures { IfOk result (λ text. string_bytes text ≡ tree_text_of e) }
{
    match e {
        TreeError::Panel(e) => panel_text(alloc, e),
        TreeError::SideNoEdge(PanelId(panel), side) => {
            format!(in alloc; "no edge panel {panel} side {side}")
        }
        TreeError::ThreeFaces(EdgeId(edge)) => format!(in alloc; "three panels edge {edge}"),
        TreeError::SameSide(EdgeId(edge)) => format!(in alloc; "same side edge {edge}"),
        TreeError::Slanted(EdgeId(edge)) => format!(in alloc; "slanted edge {edge}"),
        TreeError::Loop(EdgeId(edge)) => format!(in alloc; "loop edge {edge}"),
        TreeError::NoRoot(root) => format!(in alloc; "no root {root}"),
        TreeError::Apart(PanelId(panel)) => format!(in alloc; "apart panel {panel}"),
        TreeError::TooDeep(PanelId(panel)) => format!(in alloc; "too deep panel {panel}"),
        TreeError::Memory => String::from_str(alloc, "out of memory"),
    }
}

fn line_text(alloc: Global, e: LineError) -> Result<String, AllocError>
    ensures { IfOk result (λ text. string_bytes text ≡ line_text_of e) }
{
    match e {
        LineError::BadLine(number) => format!(in alloc; "bad line {number}"),
        LineError::Range(number) => format!(in alloc; "range line {number}"),
        LineError::Duplicate(number) => format!(in alloc; "duplicate line {number}"),
        LineError::NoEnd => String::from_str(alloc, "no end"),
        LineError::Memory => String::from_str(alloc, "out of memory"),
    }
}

fn fit_text(alloc: Global, e: JobError) -> Result<String, AllocError>
    ensures { IfOk result (λ text. string_bytes text ≡ fit_text_of e) }
{
    match e {
        JobError::NotAJoint(EdgeId(edge)) => format!(in alloc; "not a joint edge {edge}"),
        JobError::LockedEdge(EdgeId(edge)) => format!(in alloc; "locked edge {edge}"),
        JobError::NoAngles => String::from_str(alloc, "no angles"),
        JobError::AngleNotExact(EdgeId(edge)) => {
            format!(in alloc; "angle not exact edge {edge}")
        }
        JobError::EmptyTeam(number) => format!(in alloc; "empty team line {number}"),
        JobError::TooManyTeams(count) => format!(in alloc; "too many teams {count}"),
        JobError::Memory => String::from_str(alloc, "out of memory"),
    }
}

fn catalogue_text(alloc: Global, e: CatalogueError) -> Result<String, AllocError>
    ensures { IfOk result (λ text. string_bytes text ≡ catalogue_text_of e) }
{
    match e {
        CatalogueError::Line(e) => line_text(alloc, e),
        CatalogueError::NoGuide => String::from_str(alloc, "no guide"),
        CatalogueError::Memory => String::from_str(alloc, "out of memory"),
    }
}

fn guides_text(alloc: Global, e: FitError) -> Result<String, AllocError>
    ensures { IfOk result (λ text. string_bytes text ≡ guides_text_of e) }
{
    match e {
        FitError::OtherCreases => String::from_str(alloc, "other creases"),
        FitError::NotAJoint(guide) => format!(in alloc; "not a joint guide {guide}"),
        FitError::BadWindow(guide) => format!(in alloc; "bad window guide {guide}"),
        FitError::BandTooWide(guide) => format!(in alloc; "band too wide guide {guide}"),
        FitError::ProbeOutside(guide, probe) => {
            format!(in alloc; "probe outside guide {guide} probe {probe}")
        }
    }
}

fn rule_text(alloc: Global, rule: Rule) -> Result<String, AllocError>
    ensures { IfOk result (λ text. string_bytes text ≡ rule_text_of rule) }
{
    match rule {
        Rule::TooLong => String::from_str(alloc, "too long"),
        Rule::Fold(e) => fold_text(alloc, e),
        Rule::Panel(e) => panel_text(alloc, e),
        Rule::Tree(e) => tree_text(alloc, e),
        Rule::Line(e) => line_text(alloc, e),
        Rule::Fit(e) => fit_text(alloc, e),
        Rule::Catalogue(e) => catalogue_text(alloc, e),
        Rule::Guides(e) => guides_text(alloc, e),
    }
}

/// What is printed of a file that is refused, with its line feed.
pub fn refusal_text(alloc: Global, file: BadFile) -> Result<String, AllocError>
    ensures { IfOk result (λ text. string_bytes text ≡ refusal_text_of file) }
{
    let rule = rule_text(alloc, file.rule)?;
    format!(in alloc; "bad {}: {rule}\n", file.kind.name())
}
