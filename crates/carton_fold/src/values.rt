ghost use Rattle.std.specs.Prelude.{◌≡◌, ◌≤◌, length, map, option_map, IfOk};
ghost use Rattle.serde_json.specs.View.{view};
ghost use Rattle.carton_base.specs.Steps.{Gives};
ghost use Rattle.carton_fold.specs.Values.{value_in, list_in, is_number as is_number_in, whole as whole_in};
ghost use Rattle.carton_fold.specs.Values.{needed as needed_in, list_at as list_at_in};

use crate::error::{FoldError, Key};
use serde_json::Value;
use std::alloc::Global;

/// The JSON value of the bytes of a file.
pub fn value_of(alloc: Global, bytes: &[u8]) -> Result<Value, FoldError>
    ensures { Gives FoldError.Memory view result (value_in bytes.now) }
{
    match Value::from_slice(alloc, bytes) {
        Ok(value) => Ok(value),
        Err(e) => if e.is_memory() {
            Err(FoldError::Memory)
        } else {
            Err(FoldError::NotJson)
        },
    }
}

/// The entries of a list.
pub fn list_of(value: &Value) -> Option<&[Value]>
    ensures { option_map (λ s. map view s.now) result ≡ list_in (view value.now) }
{
    match value.as_array() {
        Some(list) => Some(list.as_slice()),
        None => None,
    }
}

pub fn is_number(value: &Value) -> bool
    ensures { result ≡ is_number_in (view value.now) }
{
    value.as_number().is_some()
}

/// A whole number as it is written: without fraction or exponent, not `-0`, and within 64 bits.
pub fn whole(value: &Value) -> Option<i128>
    ensures { result ≡ whole_in (view value.now) }
{
    match value.as_number() {
        Some(number) => number.as_i128(),
        None => None,
    }
}

/// The value of a key that a file must have.
pub fn needed(value: &Value, key: Key) -> Result<&Value, FoldError>
    ensures { Gives FoldError.Memory (λ v. view v.now) result (needed_in key (view value.now)) }
{
    match value.get(key.name()) {
        Some(found) => Ok(found),
        None => Err(FoldError::Missing(key)),
    }
}

/// The entries of a key's list, of which there are at most so many.
#[tactic(auto, unfolding(crate::specs::Values::list_at))]
pub fn list_at(key: Key, most: usize, value: &Value) -> Result<&[Value], FoldError>
    ensures value { Gives FoldError.Memory (λ s. map view s.now) result
        (list_at_in key most (view value.now)) }
    ensures few { IfOk result (λ s. length s.now ≤ most) }
{
    let Some(list) = list_of(value) else {
        return Err(FoldError::BadShape(key));
    };
    if list.len() > most {
        return Err(FoldError::TooMany(key));
    }
    Ok(list)
}
