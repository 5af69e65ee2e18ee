ghost use Rattle.std.specs.Prelude.{◌≡◌, ◌≢◌, ◌⊎◌, ℕ, ◌≤◌, List, length, IfOk, IfSome, IsErrOf};
ghost use Rattle.std.specs.Io.KnownBytes.{Appends};
ghost use Rattle.carton_io.specs.Told.{raised, Rose, GrewInPart};
ghost use Rattle.carton_words.specs.Asked.{asked};
ghost use Rattle.carton_words.specs.Commands.{Command, IsCommand, IsNoCommand};
ghost use Rattle.carton_words.specs.Words.{texts};
ghost use Rattle.carton_tool.specs.Fixtures.{TellsMadeFixture, TellsGoodFixture, TellsWhyNotMade, TellsFault};
ghost use Rattle.carton_tool.specs.Headline.{IsSafe, HasFewestMoves, TellsPlanWith, IsFoundInReach};
ghost use Rattle.carton_tool.specs.Headline.{IsOfSound, TellsMade};
ghost use Rattle.carton_tool.specs.Saying.{status_of, IsSaidOf, IsSaid, AreFiles, IsAnswered, IsDetermined};
ghost use Rattle.carton_tool.specs.Saying.{IsNamed};

use crate::files::{Unread, read_all};
use crate::halt::Halt;
use crate::said::Said;
use crate::status::{Status, status_for};
use crate::verbs::tell;
use carton_base::{Listed, OutOfMemory};
use carton_io::{Shelf, Sink, SinkFault};
use carton_setup::{BadFile, Refusal, Rule};
use carton_words::{Asked, command_of, wanted_by};
use std::alloc::Global;

// What is said to a command for the bytes of its files.
fn said_of(alloc: Global, command: &Asked<'_>, files: &[Listed<u8>]) -> Result<Said, OutOfMemory>
    requires { (words : List (List ℕ)) × IsCommand words (asked command.now) }
    ensures { IfOk result (IsSaidOf (asked command.now) files.now) }
{
    match tell(alloc, command, files) {
        Ok(told) => Ok(Said::told(told)),
        Err(Refusal::Bad(file)) => Ok(Said::refused(alloc, file)?),
        Err(Refusal::NoMemory) => Err(OutOfMemory),
    }
}

// What is said to any words.
fn said_to<S: Shelf>(alloc: Global, words: &[String], shelf: &mut S) -> Result<Said, Halt>
    ensures said { IfOk result (λ said. (files : List (List ℕ))
        × AreFiles (S.holds shelf.old) (S.had shelf.new) (texts words.now) files
        × IsSaid (texts words.now) files said) }
    ensures fault { IsErrOf result Halt.ReadFault → Rose (S.faults shelf.old) (S.faults shelf.new) }
    ensures once { IsErrOf result Halt.ReadFault → S.faults shelf.new ≡ raised (S.faults shelf.old) }
    ensures command { IsErrOf result Halt.ReadFault → (c : Command) × IsCommand (texts words.now) c }
    ensures named { IsErrOf result Halt.ReadFault
        → IfSome (S.last_failed shelf.new) (IsNamed (S.holds shelf.old) (texts words.now)) }
    ensures steady { (IsErrOf result Halt.ReadFault → ⊥) → S.faults shelf.new ≡ S.faults shelf.old }
    ensures unnamed { (IsErrOf result Halt.ReadFault → ⊥) → S.last_failed shelf.new
        ≡ S.last_failed shelf.old }
    ensures stays { (name : List ℕ) → S.holds shelf.new name ≡ S.holds shelf.old name }
    ensures later { S.faults shelf.old ≤ S.faults shelf.new }
{
    let Some(command) = command_of(alloc, words)? else {
        return Ok(Said::bad_words(alloc)?);
    };
    let wanted = wanted_by(alloc, &command)?;
    match read_all(alloc, &wanted, shelf) {
        Ok(files) => Ok(said_of(alloc, &command, &files)?),
        Err(Unread::TooLong(kind)) => Ok(Said::refused(
            alloc,
            BadFile {
                kind,
                rule: Rule::TooLong,
            },
        )?),
        Err(Unread::Failed) => Err(Halt::ReadFault),
        Err(Unread::NoMemory) => Err(Halt::NoMemory),
    }
}

// Puts what is said, by one call.
fn say<K: Sink>(said: &Said, sink: &mut K) -> Status
    ensures said { result ≢ Status.WriteFault
        → (result ≡ status_of said.now.ended)
        × Appends (K.written sink.old) (K.written sink.new) said.now.text }
    ensures part { result ≡ Status.WriteFault
        → GrewInPart (K.written sink.old) (K.written sink.new) said.now.text }
    ensures cause { result ≡ Status.WriteFault → Rose (K.faults sink.old) (K.faults sink.new) }
    ensures steady { result ≢ Status.WriteFault → K.faults sink.new ≡ K.faults sink.old }
    ensures later { K.faults sink.old ≤ K.faults sink.new }
{
    match sink.put(said.text.as_slice()) {
        Ok(()) => status_for(said.ended),
        Err(SinkFault) => Status::WriteFault,
    }
}

/// Does what the words ask: reads the files that they name from the shelf, puts the answer's text
/// into the sink by one call, and returns its status. The words are those of the command line
/// without the program's name. Nothing is put after a failed read or where memory is wanted.
pub fn run<S: Shelf, K: Sink>(
    alloc: Global,
    words: &[String],
    shelf: &mut S,
    sink: &mut K,
) -> Status
    // Bad words are told exactly where the words are no command.
    ensures bad_words { result ≡ Status.BadWords → IsNoCommand (texts words.now) }
    ensures no_command { IsNoCommand (texts words.now)
        → (result ≡ Status.BadWords) ⊎ (result ≡ Status.WriteFault) ⊎ (result ≡ Status.NoMemory) }

    // A fault of reading comes only from the shelf, once, at a file that the words name.
    ensures read_fault { result ≡ Status.ReadFault → Rose (S.faults shelf.old) (S.faults shelf.new) }
    ensures read_once { result ≡ Status.ReadFault → S.faults shelf.new ≡ raised (S.faults shelf.old) }
    ensures read_name { result ≡ Status.ReadFault
        → IfSome (S.last_failed shelf.new) (IsNamed (S.holds shelf.old) (texts words.now)) }

    // A fault of writing comes only from the sink, after a front of an allowed text.
    ensures write_fault { result ≡ Status.WriteFault → Rose (K.faults sink.old) (K.faults sink.new) }
    ensures wrote_part { result ≡ Status.WriteFault → (status : Status)
        × IsAnswered (S.holds shelf.old) (S.had shelf.new) (texts words.now) status (GrewInPart
        (K.written sink.old) (K.written sink.new)) }

    // Without an answer nothing is written, and else exactly one allowed text.
    ensures silent { (result ≡ Status.NoMemory) ⊎ (result ≡ Status.ReadFault)
        → K.written sink.new ≡ K.written sink.old }
    ensures answered { result ≢ Status.NoMemory → result ≢ Status.ReadFault → result ≢ Status.WriteFault
        → IsAnswered (S.holds shelf.old) (S.had shelf.new) (texts words.now) result (Appends
        (K.written sink.old) (K.written sink.new)) }

    // A plan that is told is safe, and no path that keeps clear by the slack has fewer moves; where
    // there is such a path within the budget of turns, a plan is told.
    ensures safe { result ≡ Status.Done
        → TellsPlanWith (S.holds shelf.old) (texts words.now) (Appends (K.written sink.old)
        (K.written sink.new)) IsSafe }
    ensures least { result ≡ Status.Done
        → TellsPlanWith (S.holds shelf.old) (texts words.now) (Appends (K.written sink.old)
        (K.written sink.new)) HasFewestMoves }
    ensures found { IsFoundInReach (S.holds shelf.old) (texts words.now) result }

    // Of a check and of a report, done is told only of a sound plan.
    ensures holds_sound { result ≡ Status.Done → IsOfSound (S.holds shelf.old) (texts words.now) }

    // Of made dielines and jobs exactly what may come of planning for them is told.
    ensures made_sound { result ≡ Status.Done
        → TellsMade (texts words.now) (Appends (K.written sink.old) (K.written sink.new)) }

    // A fixture is told only where it is made for the told plan, and to be good only where it is.
    ensures fixture_good { result ≡ Status.Done
        → TellsMadeFixture (S.holds shelf.old) (texts words.now) (Appends (K.written sink.old)
        (K.written sink.new)) }
    ensures verified_good { result ≡ Status.Done
        → TellsGoodFixture (S.holds shelf.old) (texts words.now) (Appends (K.written sink.old)
        (K.written sink.new)) }

    // A refused fixture is told with what hinders it, and one that isn't good with its fault.
    ensures refused_cause { result ≡ Status.Refused
        → TellsWhyNotMade (S.holds shelf.old) (texts words.now) (Appends (K.written sink.old)
        (K.written sink.new)) }
    ensures fault_cause { result ≡ Status.Refused
        → TellsFault (S.holds shelf.old) (texts words.now) (Appends (K.written sink.old)
        (K.written sink.new)) }

    // Where plan, bodies and probes keep the slack, a fixture is told, and one is told to be good.

    // The words and the bytes of the files that they name determine the text and the status.
    ensures determined { IsDetermined (texts words.now) }

    // What the shelf holds stays, and no count of faults rises without its status.
    ensures stays { (name : List ℕ) → S.holds shelf.new name ≡ S.holds shelf.old name }
    ensures steady { result ≢ Status.ReadFault → S.faults shelf.new ≡ S.faults shelf.old }
    ensures unnamed { result ≢ Status.ReadFault → S.last_failed shelf.new ≡ S.last_failed shelf.old }
    ensures sink_steady { result ≢ Status.WriteFault → K.faults sink.new ≡ K.faults sink.old }
    ensures shelf_later { S.faults shelf.old ≤ S.faults shelf.new }
    ensures sink_later { K.faults sink.old ≤ K.faults sink.new }
{
    match said_to(alloc, words, shelf) {
        Ok(said) => say(&said, sink),
        Err(Halt::ReadFault) => Status::ReadFault,
        Err(Halt::NoMemory) => Status::NoMemory,
    }
}
