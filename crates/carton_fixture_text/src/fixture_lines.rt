ghost use Rattle.std.specs.Prelude.{◌≡◌};
ghost use Rattle.carton_lines.specs.Lines.{Gives};
ghost use Rattle.carton_fixture_text.specs.FixtureTexts.{near as near_in, way_of};
ghost use Rattle.carton_fixture_text.specs.FixtureTexts.{stroke_told as stroke_told_in, span_of};
ghost use Rattle.carton_fixture_text.specs.FixtureTexts.{comes_after as comes_after_in, body_of};
ghost use Rattle.carton_fixture_text.specs.FixtureTexts.{with_body as with_body_in};

use crate::fixture::{Fixture, FixtureBody, LAST_BODY};
use carton_base::Cuboid;
use carton_catalogue::FARTHEST_CORNER;
use carton_lines::{Fault, Numeral, numbers_after};
use std::alloc::Global;

fn near(number: &Numeral<'_>) -> Result<i32, Fault>
    ensures { result ≡ near_in number.now }
{
    Ok(number.at_most(FARTHEST_CORNER)? as i32)
}

#[tactic(auto, unfolding(crate::specs::FixtureTexts::way_of))]
fn way(numbers: &[Numeral<'_>]) -> Result<[i32; 3], Fault>
    ensures { Gives (λ v. v) result (way_of numbers.now) }
{
    let [x, y, z] = numbers else {
        return Err(Fault::BadLine);
    };
    Ok([near(x)?, near(y)?, near(z)?])
}

/// The stroke that the second line of a fixture tells.
#[tactic(auto, unfolding(crate::specs::FixtureTexts::stroke_told))]
pub fn stroke_told(alloc: Global, line: &[u8]) -> Result<[i32; 3], Fault>
    ensures { Gives (λ v. v) result (stroke_told_in line.now) }
{
    let numbers = numbers_after(alloc, b"stroke", line)?;
    way(&numbers)
}

// Two sides of a box, the lesser first.
#[tactic(auto, unfolding(crate::specs::FixtureTexts::span_of))]
fn span(first: &Numeral<'_>, second: &Numeral<'_>) -> Result<(i32, i32), Fault>
    ensures { result ≡ span_of first.now second.now }
{
    let low = near(first)?;
    let high = near(second)?;
    if low >= high {
        return Err(Fault::Range);
    }
    Ok((low, high))
}

fn comes_after(bodies: &[FixtureBody], number: &Numeral<'_>) -> bool
    ensures { result ≡ comes_after_in bodies.now number.now }
{
    for body in bodies {
        if !number.is_above(u32::from(body.id)) {
            return false;
        }
    }
    true
}

#[tactic(auto, unfolding(crate::specs::FixtureTexts::body_of))]
fn body(bodies: &[FixtureBody], numbers: &[Numeral<'_>]) -> Result<FixtureBody, Fault>
    ensures { Gives (λ b. b) result (body_of bodies.now numbers.now) }
{
    let [number, x0, x1, y0, y1, z0, z1] = numbers else {
        return Err(Fault::BadLine);
    };
    if !comes_after(bodies, number) {
        return Err(Fault::BadLine);
    }
    let id = number.from_to(0, u64::from(LAST_BODY))? as u16;
    let (x0, x1) = span(x0, x1)?;
    let (y0, y1) = span(y0, y1)?;
    let (z0, z1) = span(z0, z1)?;
    let shape = Cuboid {
        x0,
        x1,
        y0,
        y1,
        z0,
        z1,
    };
    Ok(FixtureBody { id, shape })
}

/// The fixture with one more body, which the line tells.
#[tactic(auto, unfolding(crate::specs::FixtureTexts::with_body))]
pub fn with_body(mut fixture: Fixture, alloc: Global, line: &[u8]) -> Result<Fixture, Fault>
    ensures { Gives (λ f. f) result (with_body_in fixture line.now) }
{
    let numbers = numbers_after(alloc, b"body", line)?;
    let body = body(fixture.bodies.as_slice(), &numbers)?;
    fixture.bodies.push(body)?;
    Ok(fixture)
}
