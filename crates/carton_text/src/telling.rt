ghost use Rattle.std.specs.Prelude.{◌≡◌, ◌≤◌, Option, Result, Ok};
ghost use Rattle.std.specs.List.{list_any};
ghost use Rattle.carton_lines.specs.Lines.{Gives};
ghost use Rattle.carton_text.specs.Jobs.{new_draft, once as once_in, set_once as set_once_in};
ghost use Rattle.carton_text.specs.Jobs.{name_each as name_each_in, add_team as add_team_in, add as add_in};
ghost use Rattle.carton_text.specs.Jobs.{told as told_in, is_same};

use crate::draft::Draft;
use crate::grid::Grid;
use crate::job::{Job, Setting, TeamLine};
use crate::job_line::JobLine;
use carton_base::{EdgeId, Listed, MOST_TEAMS, MOST_TURNS};
use carton_lines::Fault;
use std::alloc::Global;

fn once<T: Copy>(earlier: Option<T>, value: T) -> Result<Option<T>, Fault>
    ensures { result ≡ once_in earlier value }
{
    match earlier {
        None => Ok(Some(value)),
        Some(_) => Err(Fault::Duplicate),
    }
}

// Whether one of the settings sets the edge.
fn is_set(settings: &[Setting], edge: EdgeId) -> bool
    ensures { result ≡ list_any (λ s. is_same s.edge edge) settings.now }
{
    settings.iter().any(|setting| setting.edge == edge)
}

#[tactic(auto, unfolding(crate::specs::Jobs::set_once))]
fn set_once(mut settings: Listed<Setting>, setting: Setting) -> Result<Listed<Setting>, Fault>
    ensures { Gives (λ v. v) result (set_once_in settings setting) }
{
    if is_set(settings.as_slice(), setting.edge) {
        return Err(Fault::Duplicate);
    }
    settings.push(setting)?;
    Ok(settings)
}

fn name_each(mut named: Listed<EdgeId>, edges: &[EdgeId]) -> Result<Listed<EdgeId>, Fault>
    ensures { Gives (λ v. v) result (name_each_in named edges.now) }
{
    for edge in edges {
        if named.as_slice().contains(edge) {
            return Err(Fault::Duplicate);
        }
        named.push(*edge)?;
    }
    Ok(named)
}

impl Draft {
    /// A job of which no line has told anything yet.
    pub fn new(alloc: Global, grid: Grid, stride: u8) -> Draft
        ensures { result ≡ new_draft grid stride }
    {
        Draft {
            grid,
            stride,
            root: None,
            margin: None,
            slack: None,
            turns: None,
            from_file: false,
            starts: Listed::new(alloc),
            targets: Listed::new(alloc),
            teams: Listed::new(alloc),
            named: Listed::new(alloc),
        }
    }

    #[tactic(auto, unfolding(crate::specs::Jobs::add_team))]
    fn add_team(mut self, line: u32, edges: Listed<EdgeId>) -> Result<Draft, Fault>
        ensures { Gives (λ d. d) result (add_team_in self line edges) }
    {
        if self.teams.len() >= MOST_TEAMS {
            return Err(Fault::Range);
        }
        self.named = name_each(self.named, edges.as_slice())?;
        self.teams.push(TeamLine { line, edges })?;
        Ok(self)
    }

    /// What the line with this number adds to what the earlier ones told.
    #[tactic(auto, unfolding(crate::specs::Jobs::add))]
    pub fn add(mut self, number: u32, line: JobLine) -> Result<Draft, Fault>
        ensures { Gives (λ d. d) result (add_in self number line) }
    {
        match line {
            JobLine::Root(panel) => self.root = once(self.root, panel)?,
            JobLine::Margin(margin) => self.margin = once(self.margin, margin)?,
            JobLine::Slack(slack) => self.slack = once(self.slack, slack)?,
            JobLine::Turns(turns) => self.turns = once(self.turns, turns)?,
            JobLine::TargetsFold => {
                if self.from_file {
                    return Err(Fault::Duplicate);
                }
                self.from_file = true;
            }
            JobLine::Start(setting) => self.starts = set_once(self.starts, setting)?,
            JobLine::Target(setting) => self.targets = set_once(self.targets, setting)?,
            JobLine::Team(edges) => return self.add_team(number, edges),
        }
        Ok(self)
    }

    /// The job that the lines told, with what they left open.
    pub fn told(self) -> Job
        ensures { result ≡ told_in self }
    {
        Job {
            grid: self.grid.stops(),
            stride: self.stride,
            root: self.root.unwrap_or(0),
            margin: self.margin.unwrap_or(0),
            slack: self.slack.unwrap_or(1),
            turns: self.turns.unwrap_or(MOST_TURNS),
            from_file: self.from_file,
            starts: self.starts,
            targets: self.targets,
            teams: self.teams,
        }
    }
}
