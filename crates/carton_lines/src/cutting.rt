ghost use Rattle.std.specs.Prelude.{◌≡◌, map, Ok, option_map};
ghost use Rattle.carton_lines.specs.Lines.{Gives, is_passed_over as is_passed_over_in, words_of};
ghost use Rattle.carton_lines.specs.Lines.{after as after_in};

use crate::fault::Fault;
use std::alloc::Global;

/// Whether the line is empty or a comment.
pub fn is_passed_over(line: &[u8]) -> bool
    ensures { result ≡ is_passed_over_in line.now }
{
    match line {
        [] => true,
        [first, ..] => *first == b'#',
    }
}

/// The words of a line, which single spaces part.
pub fn words(alloc: Global, line: &[u8]) -> Result<Vec<&[u8]>, Fault>
    ensures { Gives (λ v. map (λ w. w.now) v.items) result (Ok (words_of line.now)) }
{
    let found = line.split(|byte| *byte == b' ').collect(alloc)?;
    Ok(found)
}

/// What follows the front of a line, if the line begins with it.
pub fn after<'l>(front: &[u8], line: &'l [u8]) -> Option<&'l [u8]>
    ensures { option_map (λ s. s.now) result ≡ after_in front.now line.now }
{
    line.strip_prefix(front)
}
