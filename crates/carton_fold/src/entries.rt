ghost use Rattle.std.specs.Prelude.{◌≡◌, ◌≤◌, ◌<◌, ℕ, length, map, Result, IfOk};
ghost use Rattle.serde_json.specs.Data.{Data};
ghost use Rattle.serde_json.specs.View.{view};
ghost use Rattle.carton_base.specs.Steps.{Gives, entries_from};
ghost use Rattle.carton_fold.specs.Entries.{ReadsBy};

use crate::error::FoldError;
use carton_base::MOST_EDGES;
use serde_json::Value;
use std::alloc::Global;

/// The entries of a list, each read by its place and its value.
pub fn entries<T: Drop, F: Fn(u32, &Value) -> Result<T, FoldError>>(
    alloc: Global,
    list: &[Value],
    read: F,
) -> Result<Vec<T>, FoldError>
    requires few { length list.now ≤ MOST_EDGES }
    requires callable { F.IsAlwaysCallable read }
    ensures value { (entry : ℕ → Data → Result T FoldError) → ReadsBy F.Fn read (length list.now) entry
        → Gives FoldError.Memory (λ v. v.items) result (entries_from entry 0 (map view list.now)) }
    ensures count { IfOk result (λ v. length v.items ≡ length list.now) }
{
    let mut found = Vec::new(alloc);
    for (i, value) in list.iter().enumerate() {
        found.push(read(i as u32, value)?)?;
    }
    Ok(found)
}
