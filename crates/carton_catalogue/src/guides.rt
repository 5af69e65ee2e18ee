ghost use Rattle.std.specs.Prelude.{◌≡◌, IfOk};
ghost use Rattle.carton_lines.specs.Lines.{Gives};
ghost use Rattle.carton_catalogue.specs.CatalogueLines.{points_of, probes_in, guide_in};

use crate::limits::{LAST_EDGE, LAST_MOVE, MOST_PROBES, WIDEST_BAND};
use crate::values::values;
use carton_base::{EdgeId, FARTHEST, Guide, Listed, Point};
use carton_lines::{Fault, Numeral};
use std::alloc::{AllocError, Global};

// The points of numbers that are taken two by two.
fn points(alloc: Global, numbers: &[i32]) -> Result<Vec<Point>, AllocError>
    ensures { IfOk result (λ v. v.items ≡ points_of numbers.now) }
{
    let mut found = Vec::new(alloc);
    for k in 0..numbers.len() / 2 {
        found.push(Point {
            x: numbers[2 * k],
            y: numbers[2 * k + 1],
        })?;
    }
    Ok(found)
}

// The probes that numbers tell.
#[tactic(auto, unfolding(crate::specs::CatalogueLines::probes_in))]
fn probes(alloc: Global, numbers: &[Numeral<'_>]) -> Result<Listed<Point>, Fault>
    ensures { Gives (λ v. v) result (probes_in numbers.now) }
{
    if numbers.is_empty() || numbers.len() % 2 != 0 {
        return Err(Fault::BadLine);
    }
    if numbers.len() > 2 * MOST_PROBES {
        return Err(Fault::Range);
    }
    let values = values(alloc, FARTHEST, numbers)?;
    Ok(Listed::from_vec(points(alloc, &values)?))
}

/// The guide that the numbers of a line tell.
#[tactic(auto, unfolding(crate::specs::CatalogueLines::guide_in))]
pub fn guide_of(alloc: Global, numbers: &[Numeral<'_>]) -> Result<Guide, Fault>
    ensures { Gives (λ g. g) result (guide_in numbers.now) }
{
    let [edge, first, last, band, rest @ ..] = numbers else {
        return Err(Fault::BadLine);
    };
    let probes = probes(alloc, rest)?;
    let edge = edge.from_to(0, LAST_EDGE)? as u16;
    let first = first.from_to(0, LAST_MOVE)? as u16;
    let last = last.from_to(0, LAST_MOVE)? as u16;
    let band = band.from_to(1, WIDEST_BAND)? as u8;
    Ok(Guide {
        edge: EdgeId(edge),
        first,
        last,
        band,
        probes,
    })
}
