ghost use Rattle.std.specs.Prelude.{◌≡◌, ◌++◌, flat_map, string_bytes, OnOk};
ghost use Rattle.carton_lines.specs.StrictLines.{spaced, spelled};

use std::alloc::AllocError;

fn write_numbers(text: &mut String, numbers: &[i32]) -> Result<(), AllocError>
    ensures { OnOk result (string_bytes text.new ≡ string_bytes text.old ++ flat_map spaced numbers.now) }
{
    for number in numbers {
        write!(text, " {number}")?;
    }
    Ok(())
}

/// Writes the line of a word and numbers at the end of the text.
///
/// # Errors
///
/// Want of memory.
pub fn write_line(text: &mut String, word: &str, numbers: &[i32]) -> Result<(), AllocError>
    ensures { OnOk result (string_bytes text.new ≡ string_bytes text.old ++ spelled word.now numbers.now) }
{
    text.push_str(word)?;
    write_numbers(text, numbers)?;
    text.push_str("\n")
}
