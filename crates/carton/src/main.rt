//! `carton`: a planner for folding cartons. All of its work is that of `carton_tool::run`.
#![tactic(auto)]

#[cfg(test)]
mod ends;

use carton_io::{FileShelf, OutSink};
use carton_tool::{Status, run};
use std::alloc::AllocError;
use std::io::Write;
use std::process::ExitCode;
use std::rt::{Env, Files};
use std::{env, io};

// The words of the command line without the program's name. Words that aren't UTF-8 are no command,
// as no words are none.
fn words_of(rt: &(impl Env + AllocGlobal)) -> Result<Vec<String>, AllocError> {
    match env::args(rt) {
        Ok(mut words) => {
            let _program = words.next();
            words.collect(rt.alloc())
        }
        Err(e) if e.kind() == io::ErrorKind::OutOfMemory => Err(AllocError),
        Err(_) => Ok(Vec::new(rt.alloc())),
    }
}

// Runs the command line over the files, and returns the number of its status.
fn play<W: Write + Drop>(rt: &(impl Env + AllocGlobal), files: &impl Files, out: W) -> u8 {
    let mut shelf = FileShelf::new(files);
    let mut sink = OutSink::new(out);
    let status = match words_of(rt) {
        Ok(words) => run(rt.alloc(), &words, &mut shelf, &mut sink),
        Err(AllocError) => Status::NoMemory,
    };
    status.number()
}

fn main(rt: HostRuntime) -> ExitCode {
    ExitCode::from(play(&rt, &rt, io::writer(&rt)))
}
