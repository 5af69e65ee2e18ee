ghost use Rattle.std.specs.Prelude.{◌≡◌, ◌<◌, ◌≤◌, ◌++◌, string_bytes, OnOk, IfOk};
ghost use Rattle.std.specs.Fmt.{decimal, signed_decimal};
ghost use Rattle.carton_made.specs.Drawings.{vertices, edges, letters, faces};
ghost use Rattle.carton_made.specs.Made.{listed, listed_texts, dieline_of, dieline_text};

use crate::kinds::{Kind, kind_of, size_of};
use crate::{rows, trays};
use carton_base::OutOfMemory;
use std::alloc::{AllocError, Global};

const STRIP_PANELS: u32 = 9;

const TUBE_PANELS: u32 = 4;

#[tactic(auto, unfolding(crate::specs::Drawings::vertices))]
fn write_vertices(text: &mut String, kind: Kind, size: u32) -> Result<(), AllocError>
    requires { size ≤ 290 }
    ensures { OnOk result
        (string_bytes text.new ≡ string_bytes text.old
        ++ listed (listed signed_decimal) (vertices kind size)) }
{
    match kind {
        Kind::Tray => trays::write_vertices(text, size),
        Kind::Strip => rows::write_vertices(text, STRIP_PANELS, size),
        Kind::Tube => rows::write_vertices(text, TUBE_PANELS, size),
    }
}

#[tactic(auto, unfolding(crate::specs::Drawings::edges))]
fn write_edges(text: &mut String, kind: Kind) -> Result<(), AllocError>
    ensures { OnOk result
        (string_bytes text.new ≡ string_bytes text.old ++ listed (listed decimal) (edges kind)) }
{
    match kind {
        Kind::Tray => trays::write_edges(text),
        Kind::Strip => rows::write_edges(text, STRIP_PANELS),
        Kind::Tube => rows::write_edges(text, TUBE_PANELS),
    }
}

#[tactic(auto, unfolding(crate::specs::Drawings::letters))]
fn write_letters(text: &mut String, kind: Kind) -> Result<(), AllocError>
    ensures { OnOk result (string_bytes text.new ≡ string_bytes text.old ++ listed_texts (letters kind)) }
{
    match kind {
        Kind::Tray => trays::write_letters(text),
        Kind::Strip => rows::write_letters(text, STRIP_PANELS),
        Kind::Tube => rows::write_letters(text, TUBE_PANELS),
    }
}

#[tactic(auto, unfolding(crate::specs::Drawings::faces))]
fn write_faces(text: &mut String, kind: Kind) -> Result<(), AllocError>
    ensures { OnOk result
        (string_bytes text.new ≡ string_bytes text.old ++ listed (listed decimal) (faces kind)) }
{
    match kind {
        Kind::Tray => trays::write_faces(text),
        Kind::Strip => rows::write_faces(text, STRIP_PANELS),
        Kind::Tube => rows::write_faces(text, TUBE_PANELS),
    }
}

fn written(alloc: Global, kind: Kind, size: u32) -> Result<String, AllocError>
    requires { size ≤ 290 }
    ensures { IfOk result (λ text. string_bytes text ≡ dieline_of kind size) }
{
    let mut text = String::from_str(alloc, "{\"vertices_coords\":")?;
    write_vertices(&mut text, kind, size)?;
    text.push_str(",\"edges_vertices\":")?;
    write_edges(&mut text, kind)?;
    text.push_str(",\"edges_assignment\":")?;
    write_letters(&mut text, kind)?;
    text.push_str(",\"faces_vertices\":")?;
    write_faces(&mut text, kind)?;
    text.push_str("}")?;
    Ok(text)
}

/// The bytes of the dieline of number `k`: a FOLD text of four keys, without spaces or a line feed.
///
/// # Errors
///
/// Want of memory.
pub fn made_dieline(alloc: Global, k: u32) -> Result<Vec<u8>, OutOfMemory>
    requires { k < 60 }
    ensures { IfOk result (λ v. v.items ≡ dieline_text k) }
{
    Ok(written(alloc, kind_of(k), size_of(k))?.into_bytes())
}
