ghost use Rattle.std.specs.Prelude.{◌≡◌, ◌≤◌, ◌<◌, ◌+◌, ◌++◌, length, IfOk};
ghost use Rattle.std.specs.List.{list_any};
ghost use Rattle.carton_base.specs.Steps.{Gives, entries_from};
ghost use Rattle.carton_base.specs.declared.limits.TheConstants.{MOST_JOINTS, MOST_TEAMS};
ghost use Rattle.carton_text.specs.JobRules.{members};
ghost use Rattle.carton_text.specs.Tasks.{moves as moves_in, has_to_move as has_to_move_in, place_from};
ghost use Rattle.carton_text.specs.Tasks.{places as places_in, team_of, lone_teams as lone_teams_in};
ghost use Rattle.carton_text.specs.Tasks.{teams_of, is_among as is_among_in};

use crate::course::Course;
use crate::job::TeamLine;
use crate::job_error::JobError;
use crate::strangers::is_among;
use crate::task::Team;
use carton_base::{EdgeId, Listed, MOST_TEAMS};
use std::alloc::{AllocError, Global};

// Whether the joint has to move.
fn moves(course: &Course) -> bool
    ensures { result ≡ moves_in course.now }
{
    course.start != course.target
}

fn has_to_move(courses: &[Course], edge: EdgeId) -> bool
    ensures { result ≡ has_to_move_in courses.now edge }
{
    courses
        .iter()
        .any(|course| course.edge == edge && moves(course))
}

// The place of the edge among the joints.
fn place(courses: &[Course], edge: EdgeId) -> Option<u8>
    requires { length courses.now ≤ MOST_JOINTS }
    ensures { result ≡ place_from 0 courses.now edge }
{
    for (k, course) in courses.iter().enumerate() {
        if course.edge == edge {
            return Some(k as u8);
        }
    }
    None
}

fn places(alloc: Global, courses: &[Course], edges: &[EdgeId]) -> Result<Vec<u8>, AllocError>
    requires { length courses.now ≤ MOST_JOINTS }
    ensures { IfOk result (λ v. v.items ≡ places_in courses.now edges.now) }
{
    edges
        .iter()
        .filter_map(|edge| place(courses, *edge))
        .collect(alloc)
}

fn some_moves(courses: &[Course], edges: &[EdgeId]) -> bool
    ensures { result ≡ list_any (has_to_move_in courses.now) edges.now }
{
    edges.iter().any(|edge| has_to_move(courses, *edge))
}

#[tactic(auto, unfolding(crate::specs::Tasks::team_of))]
fn team(alloc: Global, courses: &[Course], line: &TeamLine) -> Result<Team, JobError>
    requires { length courses.now ≤ MOST_JOINTS }
    ensures { Gives JobError.Memory (λ t. t) result (team_of courses.now line.now) }
{
    let edges = line.edges.as_slice();
    if !some_moves(courses, edges) {
        return Err(JobError::EmptyTeam(line.line));
    }
    let places = Listed::from_vec(places(alloc, courses, edges)?);
    Ok(Team { places })
}

// The teams of the lines.
fn told_teams(
    alloc: Global,
    courses: &[Course],
    lines: &[TeamLine],
) -> Result<Listed<Team>, JobError>
    requires { length courses.now ≤ MOST_JOINTS }
    ensures value { Gives JobError.Memory (λ v. v) result
        (entries_from (λ i. team_of courses.now) 0 lines.now) }
    ensures count { IfOk result (λ v. length v ≡ length lines.now) }
{
    let mut found = Listed::new(alloc);
    for line in lines {
        found.push(team(alloc, courses, line)?)?;
    }
    Ok(found)
}

// Whether one of the lines names the edge.
fn is_named(lines: &[TeamLine], edge: EdgeId) -> bool
    ensures { result ≡ is_among_in edge (members lines.now) }
{
    for line in lines {
        if is_among(edge, line.edges.as_slice()) {
            return true;
        }
    }
    false
}

// The teams with one more for each joint that has to move and that no line names.
fn with_lone_teams(
    alloc: Global,
    mut teams: Listed<Team>,
    courses: &[Course],
    lines: &[TeamLine],
) -> Result<Listed<Team>, JobError>
    requires { length courses.now ≤ MOST_JOINTS }
    ensures value { Gives JobError.Memory (λ v. v) result
        (Ok (teams ++ lone_teams_in (members lines.now) 0 courses.now)) }
    ensures few { IfOk result (λ v. length v ≤ length teams + length courses.now) }
{
    for (k, course) in courses.iter().enumerate() {
        if moves(course) && !is_named(lines, course.edge) {
            let mut places = Listed::new(alloc);
            places.push(k as u8)?;
            teams.push(Team { places })?;
        }
    }
    Ok(teams)
}

/// The teams of a job whose lines are these: those of the lines, then one for each joint that has to
/// move and that no line names.
#[tactic(auto, unfolding(crate::specs::Tasks::teams_of))]
pub fn teams(
    alloc: Global,
    courses: &[Course],
    lines: &[TeamLine],
) -> Result<Listed<Team>, JobError>
    requires courses { length courses.now ≤ MOST_JOINTS }
    requires lines { length lines.now ≤ MOST_TEAMS }
    ensures { Gives JobError.Memory (λ v. v) result (teams_of lines.now courses.now) }
{
    let told = told_teams(alloc, courses, lines)?;
    let all = with_lone_teams(alloc, told, courses, lines)?;
    if all.len() > MOST_TEAMS {
        return Err(JobError::TooManyTeams(all.len() as u32));
    }
    Ok(all)
}
