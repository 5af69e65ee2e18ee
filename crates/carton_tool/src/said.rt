ghost use Rattle.std.specs.Prelude.{◌≡◌, IfOk, Ok, Err};
ghost use Rattle.carton_tool.specs.Saying.{bad_words as bad_words_of, says};

use carton_base::Listed;
use carton_setup::{BadFile, Ending, Told, refusal_text};
use std::alloc::{AllocError, Global};

/// How something was said: the words are no command, a file is refused, or a command told it.
#[derive(Clone, Copy, Debug, PartialEq, Eq)]
pub enum Ended {
    BadWords,
    BadInput,
    Told(Ending),
}

/// What is said to the words: the bytes of the text, with their line feeds.
#[derive(Debug, Drop)]
pub struct Said {
    pub text: Listed<u8>,
    pub ended: Ended,
}

impl Said {
    /// What is said to words that are no command.
    pub fn bad_words(alloc: Global) -> Result<Said, AllocError>
        ensures { IfOk result (λ said. said ≡ bad_words_of) }
    {
        let text = String::from_str(alloc, "bad words\n")?.into_bytes();
        Ok(Said {
            text: Listed::from_vec(text),
            ended: Ended::BadWords,
        })
    }

    /// What is said of a file that is refused.
    pub fn refused(alloc: Global, file: BadFile) -> Result<Said, AllocError>
        ensures { IfOk result (λ said. said ≡ says (Err file)) }
    {
        let text = refusal_text(alloc, file)?.into_bytes();
        Ok(Said {
            text: Listed::from_vec(text),
            ended: Ended::BadInput,
        })
    }

    /// What a command told, as it is said.
    pub fn told(told: Told) -> Said
        ensures { result ≡ says (Ok told) }
    {
        let Told { text, ending } = told;
        Said {
            text,
            ended: Ended::Told(ending),
        }
    }
}
