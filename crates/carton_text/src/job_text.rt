ghost use Rattle.std.specs.Prelude.{◌≡◌, IfOk};
ghost use Rattle.carton_lines.specs.Lines.{Gives, GivesLines};
ghost use Rattle.carton_text.specs.JobRules.{IsJob};
ghost use Rattle.carton_text.specs.Jobs.{grid_in, framed, first_line as first_line_in, job_of};

use crate::draft::Draft;
use crate::grid::Grid;
use crate::job::Job;
use crate::job_line::{job_line, two};
use carton_base::WIDEST_STEP;
use carton_lines::{Fault, LineError, LineText, Numeral, after, numbers, read_freely, words};
use std::alloc::Global;

fn grid(number: &Numeral<'_>) -> Result<Grid, Fault>
    ensures { result ≡ grid_in number.now }
{
    match number.from_to(8, 16)? {
        8 => Ok(Grid::Eight),
        16 => Ok(Grid::Sixteen),
        _ => Err(Fault::Range),
    }
}

#[tactic(auto, unfolding(crate::specs::Jobs::framed))]
fn framed_draft(alloc: Global, numbers: &[Numeral<'_>]) -> Result<Draft, Fault>
    ensures { Gives (λ d. d) result (framed numbers.now) }
{
    let (first, second) = two(numbers)?;
    let grid = grid(first)?;
    let stride = second.from_to(1, u64::from(WIDEST_STEP))?;
    Ok(Draft::new(alloc, grid, stride as u8))
}

#[tactic(auto, unfolding(crate::specs::Jobs::first_line))]
fn first_line(alloc: Global, line: &[u8]) -> Result<Draft, Fault>
    ensures { Gives (λ d. d) result (first_line_in line.now) }
{
    if line == b"carton job 1".as_slice() {
        return Ok(Draft::new(alloc, Grid::Eight, 1));
    }
    let Some(rest) = after(b"carton job 2 ", line) else {
        return Err(Fault::BadLine);
    };
    let words = words(alloc, rest)?;
    let numbers = numbers(alloc, &words)?;
    framed_draft(alloc, &numbers)
}

impl LineText for Draft {
    ghost use Rattle.carton_text.specs.Jobs.{job_lines};

    ghost grammar = { job_lines };

    fn begin(alloc: Global, line: &[u8]) -> Result<Draft, Fault> {
        first_line(alloc, line)
    }

    fn take(self, alloc: Global, number: u32, line: &[u8]) -> Result<Draft, Fault> {
        let line = job_line(alloc, self.grid, line)?;
        self.add(number, line)
    }

    fn may_end(&self) -> bool {
        true
    }
}

/// The job of the bytes of a text.
///
/// # Errors
///
/// The fault of the first line that has one, `NoEnd`, or `Memory`.
#[tactic(auto, unfolding(crate::specs::Jobs::job_of))]
pub fn read_job(alloc: Global, bytes: &[u8]) -> Result<Job, LineError>
    ensures reads { GivesLines (λ j. j) result (job_of bytes.now) }
    ensures keeps_rules { IfOk result IsJob }
{
    Ok(read_freely::<Draft>(alloc, bytes)?.told())
}
