ghost use Rattle.std.specs.Prelude.{◌≡◌, ◌≤◌, All, length, unsigned_abs};
ghost use Rattle.std.specs.List.{range_with_len};
ghost use Rattle.carton_base.specs.Steps.{entries_from};
ghost use Rattle.carton_lines.specs.Lines.{Gives};
ghost use Rattle.carton_catalogue.specs.CatalogueLines.{is_span as is_span_in, is_body as is_body_in};
ghost use Rattle.carton_catalogue.specs.CatalogueLines.{body as body_in, cuboid_of, moved as moved_in};
ghost use Rattle.carton_catalogue.specs.CatalogueLines.{box_of_row, body_of_row, stroke_in, bodies_in};
ghost use Rattle.carton_catalogue.specs.CatalogueLines.{row_in};
ghost use Rattle.carton_catalogue.specs.declared.limits.TheConstants.{FARTHEST_CORNER, MOST_BODIES};

use crate::limits::{FARTHEST_CORNER, MOST_BODIES};
use crate::values::coordinates;
use carton_base::{Cuboid, Listed};
use carton_lines::{Fault, Numeral};
use std::alloc::Global;

#[tactic(auto, unfolding(crate::specs::CatalogueLines::is_span))]
fn is_span(low: i32, high: i32) -> bool
    ensures { result ≡ is_span_in low high }
{
    low.unsigned_abs() <= FARTHEST_CORNER && high.unsigned_abs() <= FARTHEST_CORNER && low < high
}

#[tactic(auto, unfolding(crate::specs::CatalogueLines::is_body))]
fn is_body(cuboid: &Cuboid) -> bool
    ensures { result ≡ is_body_in cuboid.now }
{
    is_span(cuboid.x0, cuboid.x1) && is_span(cuboid.y0, cuboid.y1) && is_span(cuboid.z0, cuboid.z1)
}

// The box, if a catalogue may have it.
fn body(cuboid: Cuboid) -> Result<Cuboid, Fault>
    ensures { result ≡ body_in cuboid }
{
    if is_body(&cuboid) {
        Ok(cuboid)
    } else {
        Err(Fault::Range)
    }
}

// The box of the numbers of a line.
#[tactic(auto, unfolding(crate::specs::CatalogueLines::cuboid_of))]
fn cuboid(numbers: &[i32]) -> Cuboid
    requires { length numbers.now ≡ 6 }
    ensures { result ≡ cuboid_of numbers.now }
{
    Cuboid {
        x0: numbers[0],
        x1: numbers[1],
        y0: numbers[2],
        y1: numbers[3],
        z0: numbers[4],
        z1: numbers[5],
    }
}

// Where a side stands after so many shifts.
#[tactic(auto, unfolding(crate::specs::CatalogueLines::moved))]
fn moved(side: i32, shift: i32, times: u16) -> i32
    requires side { unsigned_abs side ≤ FARTHEST_CORNER }
    requires shift { unsigned_abs shift ≤ FARTHEST_CORNER }
    requires times { times ≤ MOST_BODIES }
    ensures { result ≡ moved_in side shift times }
{
    side + i32::from(times) * shift
}

// A box of a row, of which the numbers tell the shift and the first box.
#[tactic(auto, unfolding(crate::specs::CatalogueLines::box_of_row))]
fn row_box(numbers: &[i32], place: u16) -> Cuboid
    requires count { length numbers.now ≡ 9 }
    requires near { All (λ z. unsigned_abs z ≤ FARTHEST_CORNER) numbers.now }
    requires place { place ≤ MOST_BODIES }
    ensures { result ≡ box_of_row numbers.now place }
{
    Cuboid {
        x0: moved(numbers[3], numbers[0], place),
        x1: moved(numbers[4], numbers[0], place),
        y0: moved(numbers[5], numbers[1], place),
        y1: moved(numbers[6], numbers[1], place),
        z0: moved(numbers[7], numbers[2], place),
        z1: moved(numbers[8], numbers[2], place),
    }
}

// A body of a row.
fn row_body(numbers: &[i32], place: u16) -> Result<Cuboid, Fault>
    requires count { length numbers.now ≡ 9 }
    requires near { All (λ z. unsigned_abs z ≤ FARTHEST_CORNER) numbers.now }
    requires place { place ≤ MOST_BODIES }
    ensures { result ≡ body_of_row numbers.now place }
{
    body(row_box(numbers, place))
}

// The bodies of a row of so many boxes.
fn row_bodies(alloc: Global, numbers: &[i32], count: u16) -> Result<Vec<Cuboid>, Fault>
    requires numbers { length numbers.now ≡ 9 }
    requires near { All (λ z. unsigned_abs z ≤ FARTHEST_CORNER) numbers.now }
    requires count { count ≤ MOST_BODIES }
    ensures { Gives (λ v. v.items) result
        (entries_from (λ i. body_of_row numbers.now) 0 (range_with_len 0 count)) }
{
    let mut found = Vec::new(alloc);
    for place in 0..count {
        found.push(row_body(numbers, place)?)?;
    }
    Ok(found)
}

/// The stroke that the numbers of a line tell.
#[tactic(auto, unfolding(crate::specs::CatalogueLines::stroke_in))]
pub fn stroke(alloc: Global, numbers: &[Numeral<'_>]) -> Result<[i32; 3], Fault>
    ensures { Gives (λ s. s) result (stroke_in numbers.now) }
{
    let found = coordinates(alloc, 3, numbers)?;
    Ok([found[0], found[1], found[2]])
}

/// The one body that the numbers of a line tell.
#[tactic(auto, unfolding(crate::specs::CatalogueLines::bodies_in))]
pub fn single(alloc: Global, numbers: &[Numeral<'_>]) -> Result<Listed<Cuboid>, Fault>
    ensures { Gives (λ v. v) result (bodies_in numbers.now) }
{
    let sides = coordinates(alloc, 6, numbers)?;
    let body = body(cuboid(&sides))?;
    let mut found = Listed::new(alloc);
    found.push(body)?;
    Ok(found)
}

/// The bodies of a row that the numbers of a line tell.
#[tactic(auto, unfolding(crate::specs::CatalogueLines::row_in))]
pub fn row(alloc: Global, numbers: &[Numeral<'_>]) -> Result<Listed<Cuboid>, Fault>
    ensures { Gives (λ v. v) result (row_in numbers.now) }
{
    let [count, rest @ ..] = numbers else {
        return Err(Fault::BadLine);
    };
    let rest = coordinates(alloc, 9, rest)?;
    let count = count.from_to(1, MOST_BODIES as u64)? as u16;
    Ok(Listed::from_vec(row_bodies(alloc, &rest, count)?))
}
