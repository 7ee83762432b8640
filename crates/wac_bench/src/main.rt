//! Parses the document on standard input, and prints it or its JSON where the word asks for that: a program to be measured.
//! It tells how many bytes the source has, how many statements, and how many bytes were printed.
#![tactic(auto)]

mod counter;
mod task;

use std::io::{self, Read};
use std::process::ExitCode;
use task::{Counts, Task, measured};
use wac_parser_tree::Document;

/// The task that the program's word names.
fn asked(rt: &HostRuntime) -> Option<Task> {
    let word = std::env::args(rt).ok()?.nth(1)?;
    Task::named(word.as_str())
}

/// What standard input holds.
fn source_of(rt: &HostRuntime) -> io::Result<Vec<u8>> {
    let mut source = Vec::new(rt.alloc());
    rt.stdin().read_to_end(&mut source)?;
    Ok(source)
}

/// What is counted of standard input; none where there is no task, or no document.
fn counted(rt: &HostRuntime) -> Option<Counts> {
    let task = asked(rt)?;
    let bytes = source_of(rt).ok()?;
    let source = std::str::from_utf8(&bytes).ok()?;
    measured::<Document<'_>>(source, rt.alloc(), task)
}

fn main(rt: HostRuntime) -> ExitCode {
    let Some(counts) = counted(&rt) else {
        let _ = eprintln!(rt;
            "error: a document on standard input, and `parse`, `print` or `json`"
        );
        return ExitCode::FAILURE;
    };
    match println!(rt;
        "bytes {} statements {} printed {}",
        counts.bytes, counts.statements, counts.printed
    ) {
        Ok(()) => ExitCode::SUCCESS,
        Err(_) => ExitCode::FAILURE,
    }
}
