ghost use Rattle.std.specs.Prelude.{◌≡◌, ◌*◌};
ghost use Rattle.carton_base.specs.Steps.{entries_from};
ghost use Rattle.carton_text.specs.Grids.{stops_of};
ghost use Rattle.carton_lines.specs.Lines.{Gives};
ghost use Rattle.carton_lines.specs.Numbers.{at_most};
ghost use Rattle.carton_text.specs.Plans.{grid_told as grid_told_in, is_increasing as is_increasing_in};
ghost use Rattle.carton_text.specs.Plans.{creases_told as creases_told_in, stops_told as stops_told_in};

use crate::grid::Grid;
use crate::job_line::edges;
use crate::plan::MOST_CREASES;
use carton_base::{EdgeId, Listed};
use carton_lines::{Fault, Numeral, numbers_after};
use std::alloc::Global;

/// The grid that the first line of a plan tells.
#[tactic(auto, unfolding(crate::specs::Plans::grid_told))]
pub fn grid_told(line: &[u8]) -> Result<Grid, Fault>
    ensures { result ≡ grid_told_in line.now }
{
    if line == b"carton plan 1".as_slice() {
        Ok(Grid::Eight)
    } else if line == b"carton plan 2".as_slice() {
        Ok(Grid::Sixteen)
    } else {
        Err(Fault::BadLine)
    }
}

fn is_increasing(numbers: &[Numeral<'_>]) -> bool
    ensures { result ≡ is_increasing_in numbers.now }
{
    for place in 1..numbers.len() {
        if !numbers[place - 1].is_less(&numbers[place]) {
            return false;
        }
    }
    true
}

/// The creases that the second line of a plan tells.
#[tactic(auto, unfolding(crate::specs::Plans::creases_told))]
pub fn creases_told(alloc: Global, line: &[u8]) -> Result<Listed<EdgeId>, Fault>
    ensures { Gives (λ v. v) result (creases_told_in line.now) }
{
    let numbers = numbers_after(alloc, b"creases", line)?;
    if !is_increasing(&numbers) {
        return Err(Fault::BadLine);
    }
    if numbers.len() > MOST_CREASES {
        return Err(Fault::Range);
    }
    Ok(Listed::from_vec(edges(alloc, &numbers)?))
}

fn stop(grid: Grid, number: &Numeral<'_>) -> Result<i8, Fault>
    ensures { result ≡ at_most (2 * stops_of grid) number.now }
{
    Ok(number.at_most(2 * u32::from(grid.stops()))? as i8)
}

fn stops(alloc: Global, grid: Grid, numbers: &[Numeral<'_>]) -> Result<Vec<i8>, Fault>
    ensures { Gives (λ v. v.items) result (entries_from (λ i. at_most (2 * stops_of grid)) 0 numbers.now) }
{
    let mut found = Vec::new(alloc);
    for number in numbers {
        found.push(stop(grid, number)?)?;
    }
    Ok(found)
}

/// The stops of so many joints that a line of a plan tells.
#[tactic(auto, unfolding(crate::specs::Plans::stops_told))]
pub fn stops_told(alloc: Global, grid: Grid, joints: usize, line: &[u8]) -> Result<Vec<i8>, Fault>
    ensures { Gives (λ v. v.items) result (stops_told_in grid joints line.now) }
{
    let numbers = numbers_after(alloc, b"state", line)?;
    if numbers.len() != joints {
        return Err(Fault::BadLine);
    }
    stops(alloc, grid, &numbers)
}
