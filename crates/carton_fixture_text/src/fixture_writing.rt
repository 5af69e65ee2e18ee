ghost use Rattle.std.specs.Prelude.{◌≡◌, ◌++◌, flat_map, string_bytes, OnOk, IfOk};
ghost use Rattle.carton_fixture_text.specs.FixtureRules.{IsFixture};
ghost use Rattle.carton_fixture_text.specs.FixtureTexts.{numbers_of as numbers_of_in, body_line, spelling};

use crate::fixture::{Fixture, FixtureBody};
use carton_base::OutOfMemory;
use carton_lines::write_line;
use std::alloc::{AllocError, Global};

fn numbers_of(body: &FixtureBody) -> [i32; 7]
    ensures { result ≡ numbers_of_in body.now }
{
    let shape = body.shape;
    [
        i32::from(body.id),
        shape.x0,
        shape.x1,
        shape.y0,
        shape.y1,
        shape.z0,
        shape.z1,
    ]
}

fn write_body(text: &mut String, body: &FixtureBody) -> Result<(), AllocError>
    ensures { OnOk result (string_bytes text.new ≡ string_bytes text.old ++ body_line body.now) }
{
    let numbers = numbers_of(body);
    write_line(text, "body", &numbers)
}

fn write_bodies(text: &mut String, bodies: &[FixtureBody]) -> Result<(), AllocError>
    ensures { OnOk result (string_bytes text.new ≡ string_bytes text.old ++ flat_map body_line bodies.now) }
{
    for body in bodies {
        write_body(text, body)?;
    }
    Ok(())
}

fn written(alloc: Global, fixture: &Fixture) -> Result<String, AllocError>
    ensures { IfOk result (λ text. string_bytes text ≡ spelling fixture.now) }
{
    let mut text = String::from_str(alloc, "carton fixture 1\n")?;
    write_line(&mut text, "stroke", &fixture.stroke)?;
    write_bodies(&mut text, fixture.bodies.as_slice())?;
    text.push_str("end\n")?;
    Ok(text)
}

/// The bytes of a fixture's text.
///
/// # Errors
///
/// Want of memory.
pub fn write_fixture(alloc: Global, fixture: &Fixture) -> Result<Vec<u8>, OutOfMemory>
    requires { IsFixture fixture.now }
    ensures { IfOk result (λ v. v.items ≡ spelling fixture.now) }
{
    Ok(written(alloc, fixture)?.into_bytes())
}
