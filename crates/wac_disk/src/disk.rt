//! Files of the system.

use std::alloc::Global;
use std::fs::File;
use std::io::{self, Read, Write};
use wac_texts::{Files, FilesError};

/// How many bytes one read asks for.
const PIECE: usize = 65536;

/// The files of the system.
#[derive(Drop)]
pub struct Disk<'a> {
    pub rt: &'a HostRuntime,
}

/// Why a file was not read or written.
fn fault_of(error: io::Error) -> FilesError {
    if error.kind() == io::ErrorKind::OutOfMemory {
        FilesError::Memory
    } else {
        FilesError::Failed
    }
}

/// Adds the rest of a file.
fn read_rest(file: &mut File, bytes: &mut Vec<u8>) -> io::Result<()> {
    let mut piece = [0u8; PIECE];
    for _ in 0..u64::MAX {
        let count = file.read(&mut piece)?;
        if count == 0 {
            break;
        }
        bytes.extend_from_slice(&piece[..count])?;
    }
    Ok(())
}

/// The bytes of a file.
fn read_whole(rt: &HostRuntime, alloc: Global, path: &str) -> io::Result<Vec<u8>> {
    let mut file = File::open(rt, path)?;
    let mut bytes = Vec::new(alloc);
    read_rest(&mut file, &mut bytes)?;
    Ok(bytes)
}

/// Writes a file anew.
fn write_whole(rt: &HostRuntime, path: &str, bytes: &[u8]) -> io::Result<()> {
    let mut file = File::create(rt, path)?;
    file.write_all(bytes)
}

impl Files for Disk<'_> {
    ghost use Rattle.std.specs.Prelude.{None};

    // other programs change the files of a system too
    ghost stored = { λ _. None };

    ghost failures = { λ _. None };

    fn read(&self, alloc: Global, path: &str) -> Result<Vec<u8>, FilesError> {
        match read_whole(self.rt, alloc, path) {
            Ok(bytes) => Ok(bytes),
            Err(error) => Err(fault_of(error)),
        }
    }

    fn write(&mut self, _alloc: Global, path: &str, bytes: &[u8]) -> Result<(), FilesError> {
        match write_whole(self.rt, path, bytes) {
            Ok(()) => Ok(()),
            Err(error) => Err(fault_of(error)),
        }
    }
}
