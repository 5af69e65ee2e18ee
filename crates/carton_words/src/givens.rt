ghost use Rattle.std.specs.Prelude.{◌≡◌, ◌↔◌, ◌≤◌, ◌≢◌, ℕ, [], IsTrue, IfOk, MatchOption, option_map};
ghost use Rattle.std.specs.Fmt.{decimal};
ghost use Rattle.carton_words.specs.Words.{IsFoundAt, end_word};
ghost use Rattle.carton_words.specs.Asked.{given};
ghost use Rattle.carton_words.specs.declared.ends.End.{End};

use crate::ends::End;
use crate::kinds::FileKind;
use crate::table::Slot;
use carton_base::WIDEST_MARGIN;
use std::alloc::{AllocError, Global};

/// The most dielines that are made at once.
pub const MOST_MADE: u16 = 60;

/// The limit as a number.
pub fn limits_in_numbers()
    ensures numbers { (MOST_MADE ≡ 60) }
{}

/// A file that a command reads.
#[derive(Clone, Copy, Debug)]
pub struct Wanted<'a> {
    pub kind: FileKind,
    pub name: &'a str,
}

/// What one word behind a command's name gives. A margin is at most `WIDEST_MARGIN`, and a count at
/// least 1 and at most `MOST_MADE`.
#[derive(Clone, Copy, Debug)]
pub enum Given<'a> {
    File(Wanted<'a>),
    Margin(u16),
    End(End),
    Count(u16),
}

fn is_same(word: &str, other: &str) -> bool
    ensures { IsTrue result ↔ (word.now ≡ other.now) }
{
    word == other
}

// The number in a range that a word spells in decimal, with no sign or leading zero.
fn number_in(alloc: Global, word: &str, least: u16, most: u16) -> Result<Option<u16>, AllocError>
    ensures { IfOk result (λ m. MatchOption m
        ((n : ℕ) → least ≤ n → n ≤ most → word.now ≢ decimal n)
        (λ n. (least ≤ n) × (n ≤ most) × (word.now ≡ decimal n))) }
{
    let Ok(number) = word.parse::<u16>() else {
        return Ok(None);
    };
    let spelled = format!(in alloc; "{number}")?;
    if least <= number && number <= most && is_same(spelled.as_str(), word) {
        Ok(Some(number))
    } else {
        Ok(None)
    }
}

// The end of a task that a word names.
fn end_named(word: &str) -> Option<End>
    ensures { MatchOption result ((end : End) → word.now ≢ end_word end) (λ end. word.now ≡ end_word end) }
{
    if is_same(word, "start") {
        Some(End::Start)
    } else if is_same(word, "target") {
        Some(End::Target)
    } else {
        None
    }
}

/// What a word gives at a slot; None where it may not stand there.
pub fn given_at<'a>(
    alloc: Global,
    slot: Slot,
    word: &'a str,
) -> Result<Option<Given<'a>>, AllocError>
    ensures { IfOk result (λ found. IsFoundAt slot word.now (option_map given found)) }
{
    match slot {
        Slot::File(kind) => {
            if word.is_empty() {
                Ok(None)
            } else {
                Ok(Some(Given::File(Wanted { kind, name: word })))
            }
        }
        Slot::Margin => match number_in(alloc, word, 0, WIDEST_MARGIN)? {
            Some(margin) => Ok(Some(Given::Margin(margin))),
            None => Ok(None),
        },
        Slot::End => match end_named(word) {
            Some(end) => Ok(Some(Given::End(end))),
            None => Ok(None),
        },
        Slot::Count => match number_in(alloc, word, 1, MOST_MADE)? {
            Some(count) => Ok(Some(Given::Count(count))),
            None => Ok(None),
        },
    }
}
