//! The program `surw`: the words of the command line, real files and standard output, handed to the top
//! call.
#![tactic(auto)]

use gate_core::Bare;
use std::env::{self, Env};
use std::process::ExitCode;
use std::rt::Files;
use std::{fs, io};
use surw_cli::status_of_words;
use surw_io::{FileShelf, StdSink};

fn main(rt: HostRuntime) -> ExitCode {
    let _held = [held(&rt), held(&rt)];
    let mut shelf = FileShelf::new(&rt);
    let mut out = StdSink::new(&rt);
    let status = status_of_words(&rt, rt.alloc(), words(&rt), &mut shelf, &mut out, &Bare);
    ExitCode::from(status.code())
}

// Opens a file that takes no bytes. Where standard output is closed, the next file to be opened gets its number, and
// would get the report too. Of two such files one has that number, also where standard input is closed.
fn held<R: Files>(rt: &R) -> Option<R::File> {
    fs::open(rt, "/dev/null").ok()
}

// The words after the program's name.
fn words<R: Env + AllocGlobal>(rt: &R) -> io::Result<Vec<String>> {
    let mut words = Vec::new(rt.alloc());
    for word in env::args(rt)?.skip(1) {
        words.push(word)?;
    }
    Ok(words)
}
