ghost use Rattle.std.specs.Prelude.{◌≡◌, ◌≤◌, ◌<◌, length, map, option_map, Ok};
ghost use Rattle.serde_json.specs.View.{view};
ghost use Rattle.carton_base.specs.Steps.{Gives};
ghost use Rattle.carton_fold.specs.Angles.{stop_at as stop_at_in, stop_of as stop_of_in, stops_of, angles_in};

use crate::error::FoldError;
use crate::values::{list_of, whole};
use carton_base::{Listed, Stop};
use serde_json::Value;
use std::alloc::Global;

/// The stop at an angle in degrees, at eight stops in a right angle.
#[tactic(auto, unfolding(crate::specs::Angles::stop_at))]
fn stop_at(angle: i128) -> Option<Stop>
    ensures { result ≡ stop_at_in angle }
{
    match angle {
        -180 => Some(Stop(-16)),
        -90 => Some(Stop(-8)),
        0 => Some(Stop(0)),
        90 => Some(Stop(8)),
        180 => Some(Stop(16)),
        _ => None,
    }
}

fn stop_of(value: &Value) -> Option<Stop>
    ensures { result ≡ stop_of_in (view value.now) }
{
    match whole(value) {
        Some(angle) => stop_at(angle),
        None => None,
    }
}

fn stops(alloc: Global, list: &[Value]) -> Result<Vec<Option<Stop>>, FoldError>
    ensures { Gives FoldError.Memory (λ v. v.items) result (Ok (map stop_of_in (map view list.now))) }
{
    Ok(list.iter().map(|value| stop_of(value)).collect(alloc)?)
}

/// The stops of a file with so many edges, where it tells an angle for each of them. An angle at
/// which no stop stands is None, and so is one that isn't written as a whole number.
pub fn read_angles(
    alloc: Global,
    edges: usize,
    value: Option<&Value>,
) -> Result<Option<Listed<Option<Stop>>>, FoldError>
    ensures { Gives FoldError.Memory (λ a. a) result
        (Ok (angles_in edges (option_map (λ v. view v.now) value.entry))) }
{
    let Some(list) = value.and_then(|value| list_of(value)) else {
        return Ok(None);
    };
    if list.len() != edges {
        return Ok(None);
    }
    Ok(Some(Listed::from_vec(stops(alloc, list)?)))
}
