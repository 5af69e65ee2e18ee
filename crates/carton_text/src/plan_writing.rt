ghost use Rattle.std.specs.Prelude.{◌≡◌, ◌≤◌, ◌++◌, map, flat_map, length, pos, string_bytes, OnOk, IfOk};
ghost use Rattle.carton_base.specs.declared.limits.TheConstants.{MOST_JOINTS};
ghost use Rattle.carton_lines.specs.StrictLines.{spaced};
ghost use Rattle.carton_text.specs.PlanRules.{grid_of, IsPlan};
ghost use Rattle.carton_text.specs.Plans.{first_line as first_line_in, creases_line, joint_stops};
ghost use Rattle.carton_text.specs.Plans.{state_line, spelling};

use crate::plan::Plan;
use carton_base::{EdgeId, OutOfMemory, State};
use std::alloc::{AllocError, Global};

fn first_line(states: &[State]) -> &'static str
    ensures { result.now ≡ first_line_in (grid_of states.now) }
{
    match states {
        [first, ..] if first.grid != 8 => "carton plan 2\n",
        _ => "carton plan 1\n",
    }
}

fn write_edges(text: &mut String, creases: &[EdgeId]) -> Result<(), AllocError>
    ensures { OnOk result
        (string_bytes text.new ≡ string_bytes text.old ++ flat_map spaced (map (λ e. pos e.0) creases.now)) }
{
    for crease in creases {
        let edge = crease.0;
        write!(text, " {edge}")?;
    }
    Ok(())
}

fn write_creases(text: &mut String, creases: &[EdgeId]) -> Result<(), AllocError>
    ensures { OnOk result (string_bytes text.new ≡ string_bytes text.old ++ creases_line creases.now) }
{
    text.push_str("creases")?;
    write_edges(text, creases)?;
    text.push_str("\n")
}

fn write_stops(text: &mut String, state: &State, joints: usize) -> Result<(), AllocError>
    requires { joints ≤ MOST_JOINTS }
    ensures { OnOk result
        (string_bytes text.new ≡ string_bytes text.old ++ flat_map spaced (joint_stops joints state.now)) }
{
    for place in 0..joints {
        let stop = state.stops[place];
        write!(text, " {stop}")?;
    }
    Ok(())
}

fn write_state(text: &mut String, state: &State, joints: usize) -> Result<(), AllocError>
    requires { joints ≤ MOST_JOINTS }
    ensures { OnOk result (string_bytes text.new ≡ string_bytes text.old ++ state_line joints state.now) }
{
    text.push_str("state")?;
    write_stops(text, state, joints)?;
    text.push_str("\n")
}

fn write_states(text: &mut String, states: &[State], joints: usize) -> Result<(), AllocError>
    requires { joints ≤ MOST_JOINTS }
    ensures { OnOk result
        (string_bytes text.new ≡ string_bytes text.old ++ flat_map (state_line joints) states.now) }
{
    for state in states {
        write_state(text, state, joints)?;
    }
    Ok(())
}

/// The bytes of a plan's text.
///
/// # Errors
///
/// Want of memory.
pub fn write_plan(alloc: Global, plan: &Plan) -> Result<Vec<u8>, OutOfMemory>
    requires { IsPlan plan.now }
    ensures { IfOk result (λ v. v.items ≡ spelling plan.now) }
{
    let mut text = String::from_str(alloc, first_line(plan.states.as_slice()))?;
    write_creases(&mut text, plan.creases.as_slice())?;
    write_states(&mut text, plan.states.as_slice(), plan.creases.len())?;
    text.push_str("end\n")?;
    Ok(text.into_bytes())
}
