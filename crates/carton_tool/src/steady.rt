ghost use Rattle.std.specs.Prelude.{⊤, ◌≡◌, ◌≢◌, ℕ, List, [], Some, unwrap_or};
ghost use Rattle.carton_io.specs.Files.{content_of};
ghost use Rattle.carton_words.specs.Words.{texts};
ghost use Rattle.carton_tool.specs.Saying.{IsAnswered};

use crate::status::Status;
use crate::tool::run;
use carton_io::{SteadyShelf, SteadySink};
use std::alloc::Global;

/// `run` over ends that count no fault: it answers with neither fault, and what it answers, where it
/// has memory, is right for the files of the shelf.
pub fn run_steadily(
    alloc: Global,
    words: &[String],
    shelf: &mut SteadyShelf,
    sink: &mut SteadySink,
) -> Status
    ensures stays { (name : List ℕ) → unwrap_or (content_of shelf.new.files name) []
        ≡ unwrap_or (content_of shelf.old.files name) [] }
    ensures reads { result ≢ Status.ReadFault }
    ensures writes { result ≢ Status.WriteFault }
    ensures answered { result ≢ Status.NoMemory
        → IsAnswered (λ name. Some (unwrap_or (content_of shelf.old.files name) [])) shelf.new.had (texts
        words.now) result (λ text. ⊤) }
{
    run(alloc, words, shelf, sink)
}
