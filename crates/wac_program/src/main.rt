//! `wac compose MANIFEST`, `wac format FILE` and `wac plug MANIFEST`, over files, standard input and standard output.
#![tactic(auto)]

use std::alloc::Global;
use std::io;
use std::process::ExitCode;
use wac::run;
use wac_disk::{Disk, ErrorEnd, OutputEnd};

/// The words behind the program's name.
fn words_of(rt: &HostRuntime, alloc: Global) -> io::Result<Vec<String>> {
    let mut words = Vec::new(alloc);
    for word in std::env::args(rt)?.skip(1) {
        words.push(word)?;
    }
    Ok(words)
}

/// The words as texts.
fn texts_of(alloc: Global, words: &[String]) -> io::Result<Vec<&str>> {
    let mut texts = Vec::new(alloc);
    for word in words {
        texts.push(word.as_str())?;
    }
    Ok(texts)
}

/// The status of a run on these words.
fn status_of(rt: &HostRuntime, words: &[&str]) -> u8 {
    let mut disk = Disk { rt };
    run(
        rt.alloc(),
        words,
        &mut rt.stdin(),
        &mut disk,
        &mut OutputEnd { rt },
        &mut ErrorEnd { rt },
    )
}

/// The status of a run on the words that the system gives.
fn ran(rt: &HostRuntime) -> io::Result<u8> {
    let words = words_of(rt, rt.alloc())?;
    let texts = texts_of(rt.alloc(), &words)?;
    Ok(status_of(rt, &texts))
}

fn main(rt: HostRuntime) -> ExitCode {
    match ran(&rt) {
        Ok(status) => ExitCode::from(status),
        Err(_) => {
            let _ = eprintln!(rt; "error: out of memory");
            ExitCode::FAILURE
        }
    }
}
