//! Runs the rows of a table. Each line of the file `rows.txt` is a command line: the program's name
//! and its words, one space apart, where `""` stands for the empty word. For each it prints the
//! line, what the run over the files of this folder writes, and the number of its status. A line
//! `planned` with the names of a dieline and a job plans, prints how many states the plan has and the
//! status, and then what a check of the plan that was printed writes, and its status.
#![tactic(auto)]

use carton_io::{FileShelf, MemoryShelf, MemorySink, NamedFile, Shelf};
use carton_tool::run;
use std::alloc::{AllocError, Global};
use std::fs;
use std::io::{self, BufWriter, Write};
use std::rt::Files;

const TABLE: &str = "rows.txt";

const EMPTY_WORD: &str = "\"\"";

const LONGEST_TEXT: usize = 1 << 20;

const PLAN: &str = "the plan that was printed";

/// What a run wrote, and the number of its status.
#[derive(Drop)]
struct Played {
    text: Vec<u8>,
    status: u8,
}

fn owned(alloc: Global, words: &[&str]) -> Result<Vec<String>, AllocError> {
    let mut copies = Vec::new(alloc);
    for word in words {
        let word = if *word == EMPTY_WORD { "" } else { *word };
        copies.push(String::from_str(alloc, word)?)?;
    }
    Ok(copies)
}

fn play<S: Shelf>(alloc: Global, words: &[&str], shelf: &mut S) -> Result<Played, AllocError> {
    let words = owned(alloc, words)?;
    let Ok(mut sink) = MemorySink::with_room(alloc, LONGEST_TEXT, None) else {
        return Err(AllocError);
    };
    let status = run(alloc, &words, shelf, &mut sink);
    Ok(Played {
        text: Vec::from_slice(alloc, sink.bytes())?,
        status: status.number(),
    })
}

fn tell<W: Write>(played: &Played, out: &mut W) -> io::Result<()> {
    out.write_all(&played.text)?;
    writeln!(out, "[{}]", played.status)
}

fn file(alloc: Global, name: &str, bytes: &[u8]) -> Result<NamedFile, AllocError> {
    Ok(NamedFile {
        name: String::from_str(alloc, name)?,
        bytes: Vec::from_slice(alloc, bytes)?,
    })
}

// A shelf with a dieline, a job and the text of a plan.
fn shelf_with(
    rt: &(impl Files + AllocGlobal),
    dieline: &str,
    job: &str,
    plan: &[u8],
) -> io::Result<MemoryShelf> {
    let alloc = rt.alloc();
    let mut files = Vec::new(alloc);
    files.push(file(alloc, dieline, &fs::read(rt, dieline)?)?)?;
    files.push(file(alloc, job, &fs::read(rt, job)?)?)?;
    files.push(file(alloc, PLAN, plan)?)?;
    Ok(MemoryShelf::new(files, Vec::new(alloc)))
}

fn states_in(text: &[u8]) -> usize {
    text.split(|byte| *byte == b'\n')
        .filter(|line| line.starts_with(b"state"))
        .count()
}

// Plans, and checks the plan that was printed.
fn play_planned<W: Write>(
    rt: &(impl Files + AllocGlobal),
    dieline: &str,
    job: &str,
    out: &mut W,
) -> io::Result<()> {
    let alloc = rt.alloc();
    let planned = play(alloc, &["plan", dieline, job], &mut FileShelf::new(rt))?;
    writeln!(out, "states {}", states_in(&planned.text))?;
    writeln!(out, "[{}]", planned.status)?;
    let mut shelf = shelf_with(rt, dieline, job, &planned.text)?;
    tell(
        &play(alloc, &["check", dieline, job, PLAN], &mut shelf)?,
        out,
    )
}

fn play_line<W: Write>(rt: &(impl Files + AllocGlobal), line: &str, out: &mut W) -> io::Result<()> {
    let alloc = rt.alloc();
    writeln!(out, "$ {line}")?;
    let mut words = Vec::new(alloc);
    for word in line.split(' ') {
        words.push(word)?;
    }
    match words.as_slice() {
        ["planned", dieline, job] => play_planned(rt, dieline, job, out),
        [_, words @ ..] => tell(&play(alloc, words, &mut FileShelf::new(rt))?, out),
        [] => Ok(()),
    }
}

fn main(rt: HostRuntime) -> io::Result<()> {
    let table = fs::read_to_string(&rt, TABLE)?;
    let mut out = BufWriter::new(rt.alloc(), io::writer(&rt))?;
    for line in table.lines() {
        play_line(&rt, line, &mut out)?;
    }
    out.flush()
}
