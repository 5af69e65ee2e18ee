ghost use Rattle.std.specs.Prelude.{◌≡◌, ◌+◌, ◌<◌, [], length, slice_get, Some, IfOk};
ghost use Rattle.carton_base.specs.declared.motion.State.{State};
ghost use Rattle.carton_search.specs.declared.known.Entry.{Entry};
ghost use Rattle.carton_search.specs.Known.{IsTree, IsParent};
ghost use Rattle.carton_search.specs.Paths.{IsPath};

use crate::known::Known;
use carton_base::{OutOfMemory, State};

// The states from the start to the one of that number, collected in a list that is empty.
pub fn path_to(known: &Known, number: u32, path: Vec<State>) -> Result<Vec<State>, OutOfMemory>
    requires tree { (s : State) × IsTree (IsParent known.now.entries) s known.now.entries }
    requires within { number < length known.now.entries }
    requires empty { path.items ≡ [] }
    ensures { IfOk result (λ v. (s : State) (e : Entry)
        → IsTree (IsParent known.now.entries) s known.now.entries → slice_get known.now.entries number
        ≡ Some e
        → IsPath (IsParent known.now.entries) s e.state v.items × (length v.items ≡ e.moves + 1)) }
{
    let mut path = path;
    let mut entry = known.entry(number);
    while entry.moves > 0 {
        path.push(entry.state)?;
        entry = known.entry(entry.parent);
    }
    path.push(entry.state)?;
    path.reverse();
    Ok(path)
}
