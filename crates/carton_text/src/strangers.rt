ghost use Rattle.std.specs.Prelude.{◌≡◌, map, not, find};
ghost use Rattle.carton_base.specs.Steps.{Gives};
ghost use Rattle.carton_text.specs.JobRules.{members};
ghost use Rattle.carton_text.specs.Tasks.{is_among as is_among_in, edges_told, only_joints as only_joints_in};

use crate::job::{Job, Setting, TeamLine};
use crate::job_error::JobError;
use carton_base::EdgeId;

/// Whether the edge is one of these.
pub fn is_among(edge: EdgeId, edges: &[EdgeId]) -> bool
    ensures { result ≡ is_among_in edge edges.now }
{
    edges.contains(&edge)
}

// The first of the edges that is none of the free joints.
fn first_named(creases: &[EdgeId], edges: &[EdgeId]) -> Option<EdgeId>
    ensures { result ≡ find (λ e. not (is_among_in e creases.now)) edges.now }
{
    for edge in edges {
        if !is_among(*edge, creases) {
            return Some(*edge);
        }
    }
    None
}

// The first edge that is none of the free joints and that one of the settings sets.
fn first_set(creases: &[EdgeId], settings: &[Setting]) -> Option<EdgeId>
    ensures { result ≡ find (λ e. not (is_among_in e creases.now)) (map (λ s. s.edge) settings.now) }
{
    for setting in settings {
        if !is_among(setting.edge, creases) {
            return Some(setting.edge);
        }
    }
    None
}

// The first edge that is none of the free joints and that one of the teams has.
fn first_member(creases: &[EdgeId], teams: &[TeamLine]) -> Option<EdgeId>
    ensures { result ≡ find (λ e. not (is_among_in e creases.now)) (members teams.now) }
{
    for team in teams {
        if let Some(edge) = first_named(creases, team.edges.as_slice()) {
            return Some(edge);
        }
    }
    None
}

// The first edge of the lines that is none of the free joints.
fn first_stranger(creases: &[EdgeId], job: &Job) -> Option<EdgeId>
    ensures { result ≡ find (λ e. not (is_among_in e creases.now)) (edges_told job.now) }
{
    if let Some(edge) = first_set(creases, job.starts.as_slice()) {
        return Some(edge);
    }
    if let Some(edge) = first_set(creases, job.targets.as_slice()) {
        return Some(edge);
    }
    first_member(creases, job.teams.as_slice())
}

/// Refuses a job whose lines name an edge that is no free joint.
#[tactic(auto, unfolding(crate::specs::Tasks::only_joints))]
pub fn only_joints(creases: &[EdgeId], locked: &[EdgeId], job: &Job) -> Result<bool, JobError>
    ensures { result ≡ only_joints_in creases.now locked.now job.now }
{
    match first_stranger(creases, job) {
        None => Ok(true),
        Some(edge) => if is_among(edge, locked) {
            Err(JobError::LockedEdge(edge))
        } else {
            Err(JobError::NotAJoint(edge))
        },
    }
}
