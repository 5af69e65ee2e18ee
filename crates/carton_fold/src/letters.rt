ghost use Rattle.std.specs.Prelude.{◌≡◌, ◌≤◌, ◌<◌, length, map, option_map};
ghost use Rattle.serde_json.specs.View.{view};
ghost use Rattle.carton_base.specs.Steps.{Gives, entries_from};
ghost use Rattle.carton_fold.specs.Letters.{letter_of_text, letter_of, letters_told as letters_told_in};
ghost use Rattle.carton_fold.specs.Letters.{letters_in};

use crate::entries::entries;
use crate::error::{FoldError, Key};
use crate::values::list_at;
use carton_base::{Letter, MOST_EDGES};
use serde_json::Value;
use std::alloc::Global;

#[tactic(auto, unfolding(crate::specs::Letters::letter_of_text))]
fn letter_by_text(i: u32, text: &str) -> Result<Letter, FoldError>
    ensures { result ≡ letter_of_text i text.now }
{
    match text {
        "B" => Ok(Letter::Boundary),
        "M" => Ok(Letter::Mountain),
        "V" => Ok(Letter::Valley),
        "F" => Ok(Letter::Flat),
        "U" => Ok(Letter::Unassigned),
        "C" => Ok(Letter::Cut),
        "J" => Err(FoldError::JoinEdge(i)),
        _ => Err(FoldError::BadLetter(i)),
    }
}

fn letter(i: u32, value: &Value) -> Result<Letter, FoldError>
    ensures { result ≡ letter_of i (view value.now) }
{
    match value.as_str() {
        Some(text) => letter_by_text(i, text),
        None => Err(FoldError::BadShape(Key::Assignment)),
    }
}

#[tactic(auto, unfolding(crate::specs::Letters::letters_told))]
fn letters_told(alloc: Global, edges: usize, value: &Value) -> Result<Vec<Letter>, FoldError>
    ensures { Gives FoldError.Memory (λ v. v.items) result (letters_told_in edges (view value.now)) }
{
    let list = list_at(Key::Assignment, MOST_EDGES, value)?;
    if list.len() != edges {
        return Err(FoldError::BadShape(Key::Assignment));
    }
    entries(alloc, list, |i, value| letter(i, value))
}

/// The letters of a file with so many edges, all of them U where it tells none.
pub fn read_letters(
    alloc: Global,
    edges: usize,
    value: Option<&Value>,
) -> Result<Vec<Letter>, FoldError>
    ensures { Gives FoldError.Memory (λ v. v.items) result
        (letters_in edges (option_map (λ v. view v.now) value.entry)) }
{
    match value {
        Some(value) => letters_told(alloc, edges, value),
        None => Ok(vec![in alloc; Letter::Unassigned; edges]?),
    }
}
