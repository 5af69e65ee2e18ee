ghost use Rattle.std.specs.Prelude.{◌≡◌, ◌-◌, ◌<◌, ◌≤◌, ◌++◌, flat_map, string_bytes, OnOk, IfOk};
ghost use Rattle.std.specs.List.{range_with_len};
ghost use Rattle.carton_made.specs.Kinds.{creases as creases_in, target as target_in};
ghost use Rattle.carton_made.specs.Made.{target_line, member, job_of, job_text};

use crate::kinds::{Kind, kind_of};
use carton_base::OutOfMemory;
use std::alloc::{AllocError, Global};
use std::ops::Range;

// The creases of a kind, which are edges that follow one another.
fn creases(kind: Kind) -> Range<u32>
    ensures order { result.start ≤ result.end }
    ensures edges { creases_in kind ≡ range_with_len result.start (result.end - result.start) }
{
    match kind {
        Kind::Tray => 0..4,
        Kind::Strip => 19..27,
        Kind::Tube => 9..12,
    }
}

fn target(kind: Kind, edge: u32) -> i8
    ensures { result ≡ target_in kind edge }
{
    match kind {
        Kind::Tray | Kind::Tube => 8,
        Kind::Strip if edge % 2 == 0 => -4,
        Kind::Strip => 4,
    }
}

fn write_targets(text: &mut String, kind: Kind, first: u32, end: u32) -> Result<(), AllocError>
    requires { first ≤ end }
    ensures { OnOk result
        (string_bytes text.new ≡ string_bytes text.old
        ++ flat_map (target_line kind) (range_with_len first (end - first))) }
{
    for edge in first..end {
        let target = target(kind, edge);
        write!(text, "target {edge} {target}\n")?;
    }
    Ok(())
}

fn write_team(text: &mut String, first: u32, end: u32) -> Result<(), AllocError>
    requires { first ≤ end }
    ensures { OnOk result
        (string_bytes text.new ≡ string_bytes text.old
        ++ flat_map member (range_with_len first (end - first))) }
{
    for edge in first..end {
        write!(text, " {edge}")?;
    }
    Ok(())
}

#[tactic(auto, unfolding(crate::specs::Made::job_of))]
fn written(alloc: Global, kind: Kind) -> Result<String, AllocError>
    ensures { IfOk result (λ text. string_bytes text ≡ job_of kind) }
{
    let creases = creases(kind);
    let mut text = String::from_str(alloc, "carton job 1\nmargin 4\n")?;
    write_targets(&mut text, kind, creases.start, creases.end)?;
    text.push_str("team")?;
    write_team(&mut text, creases.start, creases.end)?;
    text.push_str("\nend\n")?;
    Ok(text)
}

/// The bytes of the job of number `k`: each crease has a target, and all are one team.
///
/// # Errors
///
/// Want of memory.
pub fn made_job(alloc: Global, k: u32) -> Result<Vec<u8>, OutOfMemory>
    requires { k < 60 }
    ensures { IfOk result (λ v. v.items ≡ job_text k) }
{
    Ok(written(alloc, kind_of(k))?.into_bytes())
}
