ghost use Rattle.std.specs.Prelude.{◌≡◌, map, option_map};
ghost use Rattle.carton_lines.specs.Lines.{Gives, words_of};
ghost use Rattle.carton_lines.specs.StrictLines.{whole as whole_in, numbers_after as numbers_after_in};

use crate::cutting::words;
use crate::decimals::{Numeral, numbers};
use crate::fault::Fault;
use std::alloc::Global;

/// A line without its line feed, if it has one.
pub fn whole(line: &[u8]) -> Option<&[u8]>
    ensures { option_map (λ l. l.now) result ≡ whole_in line.now }
{
    line.strip_suffix(b"\n")
}

fn numbers_of<'l>(
    alloc: Global,
    first: &[u8],
    words: &[&'l [u8]],
) -> Result<Vec<Numeral<'l>>, Fault>
    ensures { Gives (λ v. v.items) result (numbers_after_in first.now (map (λ w. w.now) words.now)) }
{
    let [word, words @ ..] = words else {
        return Err(Fault::BadLine);
    };
    if *word != first {
        return Err(Fault::BadLine);
    }
    numbers(alloc, words)
}

/// The numbers of a line that has this word first.
pub fn numbers_after<'l>(
    alloc: Global,
    first: &[u8],
    line: &'l [u8],
) -> Result<Vec<Numeral<'l>>, Fault>
    ensures { Gives (λ v. v.items) result (numbers_after_in first.now (words_of line.now)) }
{
    let words = words(alloc, line)?;
    numbers_of(alloc, first, &words)
}
