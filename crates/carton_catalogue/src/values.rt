ghost use Rattle.std.specs.Prelude.{◌≡◌, ◌≤◌, ◌^◌, All, length, unsigned_abs, IfOk};
ghost use Rattle.carton_base.specs.Steps.{entries_from};
ghost use Rattle.carton_lines.specs.Lines.{Gives};
ghost use Rattle.carton_lines.specs.Numbers.{at_most};
ghost use Rattle.carton_catalogue.specs.CatalogueLines.{coordinates_in};

use crate::limits::FARTHEST_CORNER;
use carton_lines::{Fault, Numeral};
use std::alloc::Global;

fn value(most: u32, number: &Numeral<'_>) -> Result<i32, Fault>
    requires { most ≤ 2 ^ 30 }
    ensures { result ≡ at_most most number.now }
{
    Ok(number.at_most(most)? as i32)
}

/// The numbers, each of which lies from -`most` to `most`.
pub fn values(alloc: Global, most: u32, numbers: &[Numeral<'_>]) -> Result<Vec<i32>, Fault>
    requires { most ≤ 2 ^ 30 }
    ensures { Gives (λ v. v.items) result (entries_from (λ i. at_most most) 0 numbers.now) }
{
    let mut found = Vec::new(alloc);
    for number in numbers {
        found.push(value(most, number)?)?;
    }
    Ok(found)
}

/// So many numbers, each within a catalogue's bounds.
#[tactic(auto, unfolding(crate::specs::CatalogueLines::coordinates_in))]
pub fn coordinates(alloc: Global, count: usize, numbers: &[Numeral<'_>]) -> Result<Vec<i32>, Fault>
    ensures value { Gives (λ v. v.items) result (coordinates_in count numbers.now) }
    ensures count { IfOk result (λ v. length v.items ≡ count) }
    ensures near { IfOk result (λ v. All (λ z. unsigned_abs z ≤ FARTHEST_CORNER) v.items) }
{
    if numbers.len() != count {
        return Err(Fault::BadLine);
    }
    values(alloc, FARTHEST_CORNER, numbers)
}
