ghost use Rattle.std.specs.Prelude.{◌≡◌, ◌+◌, ◌-◌, ◌*◌, ◌<◌, ◌≤◌, ◌++◌, map, string_bytes, OnOk};
ghost use Rattle.std.specs.List.{range_with_len};
ghost use Rattle.std.specs.Fmt.{decimal, signed_decimal};
ghost use Rattle.carton_made.specs.Drawings.{side_vertex, row_vertices, along, across, row_edges};
ghost use Rattle.carton_made.specs.Drawings.{row_letter, row_letters, row_face, row_faces};
ghost use Rattle.carton_made.specs.Made.{listed, listed_texts, following};

use std::alloc::AllocError;

// Writes the vertices of a side of a row, from one on.
fn write_side(
    text: &mut String,
    first: u32,
    panels: u32,
    size: u32,
    height: u32,
) -> Result<(), AllocError>
    requires first { first ≤ panels }
    requires panels { panels ≤ 9 }
    requires size { size ≤ 290 }
    ensures { OnOk result
        (string_bytes text.new ≡ string_bytes text.old
        ++ following (listed signed_decimal) (map (side_vertex size height)
        (range_with_len first (panels + 1 - first)))) }
{
    for vertex in first..panels + 1 {
        let x = vertex * size;
        write!(text, ",[{x},{height}]")?;
    }
    Ok(())
}

pub fn write_vertices(text: &mut String, panels: u32, size: u32) -> Result<(), AllocError>
    requires some { 0 < panels }
    requires panels { panels ≤ 9 }
    requires size { size ≤ 290 }
    ensures { OnOk result
        (string_bytes text.new ≡ string_bytes text.old
        ++ listed (listed signed_decimal) (row_vertices panels size)) }
{
    text.push_str("[[0,0]")?;
    write_side(text, 1, panels, size, 0)?;
    write_side(text, 0, panels, size, 100)?;
    text.push_str("]")
}

// Writes the edges along a side of a row, from one vertex to another.
fn write_along(text: &mut String, first: u32, last: u32) -> Result<(), AllocError>
    requires first { first ≤ last }
    requires last { last ≤ 19 }
    ensures { OnOk result
        (string_bytes text.new ≡ string_bytes text.old
        ++ following (listed decimal) (map along (range_with_len first (last - first)))) }
{
    for vertex in first..last {
        let next = vertex + 1;
        write!(text, ",[{vertex},{next}]")?;
    }
    Ok(())
}

fn write_across(text: &mut String, panels: u32) -> Result<(), AllocError>
    requires { panels ≤ 9 }
    ensures { OnOk result
        (string_bytes text.new ≡ string_bytes text.old
        ++ following (listed decimal) (map (across panels) (range_with_len 0 (panels + 1)))) }
{
    for vertex in 0..panels + 1 {
        let opposite = panels + 1 + vertex;
        write!(text, ",[{vertex},{opposite}]")?;
    }
    Ok(())
}

pub fn write_edges(text: &mut String, panels: u32) -> Result<(), AllocError>
    requires some { 0 < panels }
    requires panels { panels ≤ 9 }
    ensures { OnOk result
        (string_bytes text.new ≡ string_bytes text.old ++ listed (listed decimal) (row_edges panels)) }
{
    text.push_str("[[0,1]")?;
    write_along(text, 1, panels)?;
    write_along(text, panels + 1, 2 * panels + 1)?;
    write_across(text, panels)?;
    text.push_str("]")
}

fn letter(panels: u32, edge: u32) -> &'static str
    requires { panels ≤ 9 }
    ensures { result.now ≡ row_letter panels edge }
{
    if 2 * panels < edge && edge < 3 * panels {
        "\"V\""
    } else {
        "\"B\""
    }
}

// Writes the letters of a row's edges, from the second on.
fn write_more_letters(text: &mut String, panels: u32) -> Result<(), AllocError>
    requires { panels ≤ 9 }
    ensures { OnOk result
        (string_bytes text.new ≡ string_bytes text.old
        ++ following (λ letter. letter) (map (row_letter panels) (range_with_len 1 (3 * panels)))) }
{
    for edge in 1..3 * panels + 1 {
        let letter = letter(panels, edge);
        write!(text, ",{letter}")?;
    }
    Ok(())
}

pub fn write_letters(text: &mut String, panels: u32) -> Result<(), AllocError>
    requires { panels ≤ 9 }
    ensures { OnOk result
        (string_bytes text.new ≡ string_bytes text.old ++ listed_texts (row_letters panels)) }
{
    text.push_str("[\"B\"")?;
    write_more_letters(text, panels)?;
    text.push_str("]")
}

// Writes the faces of a row, from the second on.
fn write_more_faces(text: &mut String, panels: u32) -> Result<(), AllocError>
    requires some { 0 < panels }
    requires panels { panels ≤ 9 }
    ensures { OnOk result
        (string_bytes text.new ≡ string_bytes text.old
        ++ following (listed decimal) (map (row_face panels) (range_with_len 1 (panels - 1)))) }
{
    for panel in 1..panels {
        let next = panel + 1;
        let opposite = panels + 1 + panel;
        let beyond = panels + 2 + panel;
        write!(text, ",[{panel},{next},{beyond},{opposite}]")?;
    }
    Ok(())
}

pub fn write_faces(text: &mut String, panels: u32) -> Result<(), AllocError>
    requires some { 0 < panels }
    requires panels { panels ≤ 9 }
    ensures { OnOk result
        (string_bytes text.new ≡ string_bytes text.old ++ listed (listed decimal) (row_faces panels)) }
{
    let opposite = panels + 1;
    let beyond = panels + 2;
    write!(text, "[[0,1,{beyond},{opposite}]")?;
    write_more_faces(text, panels)?;
    text.push_str("]")
}
