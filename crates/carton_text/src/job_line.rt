ghost use Rattle.std.specs.Prelude.{◌≡◌, map, option_map, Result, Ok, Err};
ghost use Rattle.carton_base.specs.Steps.{entries_from};
ghost use Rattle.carton_lines.specs.Lines.{Gives};
ghost use Rattle.carton_text.specs.JobLines.{one as one_in, two as two_in, edge_in, setting_in, team_in};
ghost use Rattle.carton_text.specs.JobLines.{keyword_in, numbered, worded, line_in};

use crate::grid::Grid;
use crate::job::Setting;
use carton_base::{EdgeId, Listed, MOST_TURNS, Stop, WIDEST_MARGIN, WIDEST_SLACK};
use carton_lines::{Fault, Numeral, numbers, words};
use std::alloc::Global;

/// The greatest number of an edge.
pub const LAST_EDGE: u64 = 2047;

/// The most edges of a team.
pub const MOST_MEMBERS: usize = 23;

/// The first word of a line with numbers.
#[derive(Clone, Copy)]
pub enum Keyword {
    Root,
    Margin,
    Slack,
    Turns,
    Start,
    Target,
    Team,
}

/// A line between the first and the last, by itself.
#[derive(Drop)]
pub enum JobLine {
    Root(u8),
    Margin(u16),
    Slack(u16),
    Turns(u32),
    TargetsFold,
    Start(Setting),
    Target(Setting),
    Team(Listed<EdgeId>),
}

fn one<'n, 'a>(numbers: &'n [Numeral<'a>]) -> Result<&'n Numeral<'a>, Fault>
    ensures { Gives (λ z. z.now) result (one_in numbers.now) }
{
    match numbers {
        [number] => Ok(number),
        _ => Err(Fault::BadLine),
    }
}

/// Two numbers alone.
pub fn two<'n, 'a>(numbers: &'n [Numeral<'a>]) -> Result<(&'n Numeral<'a>, &'n Numeral<'a>), Fault>
    ensures { Gives (λ p. (p.0.now, p.1.now)) result (two_in numbers.now) }
{
    match numbers {
        [first, second] => Ok((first, second)),
        _ => Err(Fault::BadLine),
    }
}

fn edge(number: &Numeral<'_>) -> Result<EdgeId, Fault>
    ensures { result ≡ edge_in number.now }
{
    Ok(EdgeId(number.from_to(0, LAST_EDGE)? as u16))
}

#[tactic(auto, unfolding(crate::specs::JobLines::setting_in))]
fn setting(grid: Grid, numbers: &[Numeral<'_>]) -> Result<Setting, Fault>
    ensures { Gives (λ s. s) result (setting_in grid numbers.now) }
{
    let (first, second) = two(numbers)?;
    let edge = edge(first)?;
    let stop = second.at_most(2 * u32::from(grid.stops()))?;
    Ok(Setting {
        edge,
        stop: Stop(stop as i8),
    })
}

/// The edges of numbers.
pub fn edges(alloc: Global, numbers: &[Numeral<'_>]) -> Result<Vec<EdgeId>, Fault>
    ensures { Gives (λ v. v.items) result (entries_from (λ i. edge_in) 0 numbers.now) }
{
    let mut found = Vec::new(alloc);
    for number in numbers {
        found.push(edge(number)?)?;
    }
    Ok(found)
}

#[tactic(auto, unfolding(crate::specs::JobLines::team_in))]
fn team(alloc: Global, numbers: &[Numeral<'_>]) -> Result<Listed<EdgeId>, Fault>
    ensures { Gives (λ v. v) result (team_in numbers.now) }
{
    if numbers.is_empty() {
        return Err(Fault::BadLine);
    }
    if numbers.len() > MOST_MEMBERS {
        return Err(Fault::Range);
    }
    Ok(Listed::from_vec(edges(alloc, numbers)?))
}

#[tactic(auto, unfolding(crate::specs::JobLines::keyword_in))]
fn keyword_of(word: &[u8]) -> Option<Keyword>
    ensures { result ≡ keyword_in word.now }
{
    if word == b"root".as_slice() {
        Some(Keyword::Root)
    } else if word == b"margin".as_slice() {
        Some(Keyword::Margin)
    } else if word == b"slack".as_slice() {
        Some(Keyword::Slack)
    } else if word == b"turns".as_slice() {
        Some(Keyword::Turns)
    } else if word == b"start".as_slice() {
        Some(Keyword::Start)
    } else if word == b"target".as_slice() {
        Some(Keyword::Target)
    } else if word == b"team".as_slice() {
        Some(Keyword::Team)
    } else {
        None
    }
}

#[tactic(auto, unfolding(crate::specs::JobLines::numbered))]
fn numbered_line(
    alloc: Global,
    grid: Grid,
    keyword: Keyword,
    numbers: &[Numeral<'_>],
) -> Result<JobLine, Fault>
    ensures { Gives (λ l. l) result (numbered grid keyword numbers.now) }
{
    match keyword {
        Keyword::Root => Ok(JobLine::Root(one(numbers)?.from_to(0, 255)? as u8)),
        Keyword::Margin => Ok(JobLine::Margin(
            one(numbers)?.from_to(0, u64::from(WIDEST_MARGIN))? as u16,
        )),
        Keyword::Slack => Ok(JobLine::Slack(
            one(numbers)?.from_to(1, u64::from(WIDEST_SLACK))? as u16,
        )),
        Keyword::Turns => Ok(JobLine::Turns(
            one(numbers)?.from_to(1, u64::from(MOST_TURNS))? as u32,
        )),
        Keyword::Start => Ok(JobLine::Start(setting(grid, numbers)?)),
        Keyword::Target => Ok(JobLine::Target(setting(grid, numbers)?)),
        Keyword::Team => Ok(JobLine::Team(team(alloc, numbers)?)),
    }
}

#[tactic(auto, unfolding(crate::specs::JobLines::worded))]
fn worded_line(alloc: Global, grid: Grid, words: &[&[u8]]) -> Result<JobLine, Fault>
    ensures { Gives (λ l. l) result (worded grid (map (λ w. w.now) words.now)) }
{
    let [word, words @ ..] = words else {
        return Err(Fault::BadLine);
    };
    let keyword = keyword_of(word).ok_or(Fault::BadLine)?;
    let numbers = numbers(alloc, words)?;
    numbered_line(alloc, grid, keyword, &numbers)
}

/// A line between the first and the last.
#[tactic(auto, unfolding(crate::specs::JobLines::line_in))]
pub fn job_line(alloc: Global, grid: Grid, line: &[u8]) -> Result<JobLine, Fault>
    ensures { Gives (λ l. l) result (line_in grid line.now) }
{
    if line == b"targets fold".as_slice() {
        return Ok(JobLine::TargetsFold);
    }
    let words = words(alloc, line)?;
    worded_line(alloc, grid, &words)
}
