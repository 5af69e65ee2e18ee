ghost use Rattle.std.specs.Prelude.{◌≡◌, ◌≤◌, ℕ, List, IfOk, MatchOption, map, option_map};
ghost use Rattle.carton_base.specs.declared.limits.TheConstants.{WIDEST_MARGIN};
ghost use Rattle.carton_words.specs.Asked.{asked, given, named};
ghost use Rattle.carton_words.specs.Commands.{IsCommand, IsFound, files_of};
ghost use Rattle.carton_words.specs.Commands.{margin_of, margin_in, end_of, end_in, count_of, count_in};
ghost use Rattle.carton_words.specs.Rows.{verb_in};
ghost use Rattle.carton_words.specs.Table.{row_of as row_in};
ghost use Rattle.carton_words.specs.Words.{AreFound, texts};
ghost use Rattle.carton_words.specs.declared.givens.TheConstants.{MOST_MADE};
ghost use Rattle.carton_words.specs.declared.table.Verb.{Verb};

use crate::ends::End;
use crate::givens::{Given, Wanted, given_at};
use crate::table::{Slot, VERBS, Verb, row_of};
use carton_base::OutOfMemory;
use std::alloc::Global;

/// A command, and what its further words give, in their order.
#[derive(Debug, Drop)]
pub struct Asked<'a> {
    pub verb: Verb,
    pub given: Vec<Given<'a>>,
}

impl Asked<'_> {
    /// The margin that the words give; 0 where they give none.
    pub fn margin(&self) -> u16
        ensures value { result ≡ margin_of (asked self.now) }
        ensures bound { (words : List (List ℕ)) → IsCommand words (asked self.now) → result ≤ WIDEST_MARGIN }
    {
        first_margin(self.given.as_slice())
    }

    /// The end of the task that the words name; the start where they name none.
    pub fn end(&self) -> End
        ensures { result ≡ end_of (asked self.now) }
    {
        first_end(self.given.as_slice())
    }

    /// How many dielines the words ask for; 1 where they give no number.
    pub fn count(&self) -> u16
        ensures value { result ≡ count_of (asked self.now) }
        ensures least { (words : List (List ℕ)) → IsCommand words (asked self.now) → 1 ≤ result }
        ensures most { (words : List (List ℕ)) → IsCommand words (asked self.now) → result ≤ MOST_MADE }
    {
        first_count(self.given.as_slice())
    }
}

fn first_margin(givens: &[Given<'_>]) -> u16
    ensures { result ≡ margin_in (map given givens.now) }
{
    for given in givens {
        if let Given::Margin(margin) = given {
            return *margin;
        }
    }
    0
}

fn first_end(givens: &[Given<'_>]) -> End
    ensures { result ≡ end_in (map given givens.now) }
{
    for given in givens {
        if let Given::End(end) = given {
            return *end;
        }
    }
    End::Start
}

fn first_count(givens: &[Given<'_>]) -> u16
    ensures { result ≡ count_in (map given givens.now) }
{
    for given in givens {
        if let Given::Count(count) = given {
            return *count;
        }
    }
    1
}

// The first of the commands that has this name.
fn first_named(verbs: &[Verb], word: &str) -> Option<Verb>
    ensures { result ≡ verb_in row_in verbs.now word.now }
{
    for verb in verbs {
        if word == row_of(*verb).name {
            return Some(*verb);
        }
    }
    None
}

// The command of this name.
fn verb_named(word: &str) -> Option<Verb>
    ensures { MatchOption result
        ((verb : Verb) → ¬ (word.now ≡ (row_in verb).word))
        (λ verb. word.now ≡ (row_in verb).word) }
{
    first_named(&VERBS, word)
}

// What the words give at the slots; None where they aren't one for each, or one may not stand at its slot.
fn given_by<'a>(
    alloc: Global,
    slots: &[Slot],
    words: &'a [String],
) -> Result<Option<Vec<Given<'a>>>, OutOfMemory>
    ensures { IfOk result (λ found.
        AreFound slots.now (texts words.now) (option_map (λ givens. map given givens.items) found)) }
{
    if slots.len() != words.len() {
        return Ok(None);
    }
    let mut found = Vec::new(alloc);
    for (k, word) in words.iter().enumerate() {
        match given_at(alloc, slots[k], word.as_str())? {
            Some(given) => found.push(given)?,
            None => return Ok(None),
        }
    }
    Ok(Some(found))
}

/// The command that the words are; None where they are none.
pub fn command_of<'a>(alloc: Global, words: &'a [String]) -> Result<Option<Asked<'a>>, OutOfMemory>
    ensures { IfOk result (λ found. IsFound (texts words.now) (option_map asked found)) }
{
    let [name, others @ ..] = words else {
        return Ok(None);
    };
    let Some(verb) = verb_named(name.as_str()) else {
        return Ok(None);
    };
    match given_by(alloc, row_of(verb).slots, others)? {
        Some(given) => Ok(Some(Asked { verb, given })),
        None => Ok(None),
    }
}

/// The files that a command reads, in the order of reading.
pub fn wanted_by<'a>(alloc: Global, command: &Asked<'a>) -> Result<Vec<Wanted<'a>>, OutOfMemory>
    ensures { IfOk result (λ wanted. map named wanted.items ≡ files_of (asked command.now)) }
{
    let mut wanted = Vec::new(alloc);
    for given in &command.given {
        if let Given::File(file) = given {
            wanted.push(*file)?;
        }
    }
    Ok(wanted)
}
