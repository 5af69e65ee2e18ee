ghost use Rattle.std.specs.Prelude.{◌≡◌, ◌≤◌, ◌++◌, pos, string_bytes, OnOk};
ghost use Rattle.std.specs.Fmt.{decimal, signed_decimal};
ghost use Rattle.carton_made.specs.declared.kinds.Kind.TheVariants.{Tray};
ghost use Rattle.carton_made.specs.Drawings.{resized as resized_to, vertices, edges, letters, faces};
ghost use Rattle.carton_made.specs.Made.{listed, listed_texts};

use std::alloc::AllocError;

// A coordinate of the tray of size 100, in the tray of this size.
fn resized(coordinate: u32, size: u32) -> u32
    requires { size ≤ 290 }
    ensures { pos result ≡ resized_to size (pos coordinate) }
{
    match coordinate {
        100 => size,
        160 => size + 60,
        other => other,
    }
}

pub fn write_vertices(text: &mut String, size: u32) -> Result<(), AllocError>
    requires { size ≤ 290 }
    ensures { OnOk result
        (string_bytes text.new ≡ string_bytes text.old
        ++ listed (listed signed_decimal) (vertices Tray size)) }
{
    let side = resized(100, size);
    let far = resized(160, size);
    write!(text, "[[0,0],[{side},0],[{side},{side}],[0,{side}]")?;
    write!(text, ",[0,-60],[{side},-60]")?;
    write!(text, ",[{far},0],[{far},{side}]")?;
    write!(text, ",[{side},{far}],[0,{far}]")?;
    write!(text, ",[-60,{side}],[-60,0]]")
}

pub fn write_edges(text: &mut String) -> Result<(), AllocError>
    ensures { OnOk result
        (string_bytes text.new ≡ string_bytes text.old ++ listed (listed decimal) (edges Tray)) }
{
    text.push_str(
        "[[0,1],[1,2],[2,3],[3,0],[0,4],[4,5],[5,1],[1,6],[6,7],[7,2],[2,8],[8,9],[9,3],[3,10],[10,11],[11,0]]",
    )
}

pub fn write_letters(text: &mut String) -> Result<(), AllocError>
    ensures { OnOk result (string_bytes text.new ≡ string_bytes text.old ++ listed_texts (letters Tray)) }
{
    text.push_str(
        "[\"V\",\"V\",\"V\",\"V\",\"B\",\"B\",\"B\",\"B\",\"B\",\"B\",\"B\",\"B\",\"B\",\"B\",\"B\",\"B\"]",
    )
}

pub fn write_faces(text: &mut String) -> Result<(), AllocError>
    ensures { OnOk result
        (string_bytes text.new ≡ string_bytes text.old ++ listed (listed decimal) (faces Tray)) }
{
    text.push_str("[[0,1,2,3],[4,5,1,0],[1,6,7,2],[3,2,8,9],[11,0,3,10]]")
}
