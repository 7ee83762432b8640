//! `wac-show MANIFEST`: draws the wiring of each source that a manifest composes, as a Mermaid flowchart, and shows where in
//! its source a refusal stands.
#![tactic(auto)]

mod mentions;
mod origins;
mod show;
mod warnings;

use crate::show::{Shown, show};
use std::alloc::Global;
use std::io;
use std::process::ExitCode;
use wac::{Stop, read_file, text_of};
use wac_disk::Disk;

/// The first word behind the program's name.
fn word_of(rt: &HostRuntime) -> io::Result<Option<String>> {
    for word in std::env::args(rt)?.skip(1) {
        return Ok(Some(word));
    }
    Ok(None)
}

/// What is shown of the manifest in a file.
fn shown(rt: &HostRuntime, alloc: Global, path: &str) -> Result<Shown, Stop> {
    let disk = Disk { rt };
    let bytes = read_file(alloc, &disk, path)?;
    let manifest = text_of(alloc, path, &bytes)?;
    show(alloc, &disk, manifest.as_str())
}

/// Tells why nothing more is shown.
fn tell(rt: &HostRuntime, stop: Stop) -> io::Result<ExitCode> {
    match stop {
        Stop::Memory => eprintln!(rt; "error: out of memory")?,
        Stop::Unwritten => (),
        Stop::Refused { text, span: _ } => eprintln!(rt; "error: {text}")?,
    }
    Ok(ExitCode::FAILURE)
}

/// Prints what is shown.
fn print(rt: &HostRuntime, shown: Shown) -> io::Result<ExitCode> {
    let Shown { text, outcome } = shown;
    print!(rt; "{text}")?;
    match outcome {
        Ok(true) => Ok(ExitCode::SUCCESS),
        Ok(false) => Ok(ExitCode::FAILURE),
        Err(stop) => tell(rt, stop),
    }
}

/// Shows a manifest.
fn ran(rt: &HostRuntime, path: &str) -> io::Result<ExitCode> {
    match shown(rt, rt.alloc(), path) {
        Ok(shown) => print(rt, shown),
        Err(stop) => tell(rt, stop),
    }
}

fn main(rt: HostRuntime) -> io::Result<ExitCode> {
    match word_of(&rt)? {
        Some(path) => ran(&rt, path.as_str()),
        None => {
            eprintln!(rt; "usage: wac-show MANIFEST")?;
            Ok(ExitCode::from(2))
        }
    }
}
