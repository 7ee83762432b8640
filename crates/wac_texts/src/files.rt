//! Files by their paths.

ghost use Rattle.std.specs.Prelude.{◌≡◌, ◌≢◌, ℕ, List, [], Option, Some, None, Err, IfOk, OnOk, OnErr, IsErrOf, string_bytes};
ghost use Rattle.std.specs.Option.{option_map};
ghost use Rattle.wac_types_base.specs.Entries.{value_at, put_entry};
ghost use Rattle.wac_texts.specs.Files.{Stored, Has, KeepsOthers, FailsToWrite};
ghost use Rattle.wac_texts.specs.declared.files.FilesError.{FilesError};

use std::alloc::{AllocError, AllocFailed, Global};
use std::marker::Model;
use thiserror::Error;
use wac_types_base::{Items, NamedMap};

/// Why a file is not read or written.
#[derive(Clone, Copy, Debug, PartialEq, Eq, Error)]
pub enum FilesError {
    #[error("the file cannot be read or written")]
    Failed,
    #[error("out of memory")]
    Memory,
}

impl From<AllocError> for FilesError {
    ghost use Rattle.std.specs.Prelude.{◌≡◌};
    ghost use Rattle.wac_texts.specs.declared.files.FilesError.{FilesError};

    ghost from_gives = { λ _ e. e ≡ FilesError.Memory };

    fn from(_: AllocError) -> Self {
        FilesError::Memory
    }
}

/// Files that can be read and written whole, whose contract tells what they hold, where that is known. An implementation
/// for files that others change too has `stored` as none.
pub trait Files {
    // what each path's file has, if it is there
    ghost stored: { Self → Option Stored };

    // how many writes failed, where that is known
    ghost failures: { Self → Option ℕ };

    /// The bytes of a file; [`FilesError::Failed`] where it is not there or cannot be read.
    fn read(&self, alloc: Global, path: &str) -> Result<Vec<u8>, FilesError>
        ensures bytes { IfOk result (λ bytes. Has (stored self.now) path.now (Some bytes.items)) }
        ensures missing { IsErrOf result FilesError.Failed → Has (stored self.now) path.now None };

    /// Makes these the bytes of a file, whether it was there or not. Where that fails the file may have others.
    fn write(&mut self, alloc: Global, path: &str, bytes: &[u8]) -> Result<(), FilesError>
        ensures written { OnOk result (Has (stored self.new) path.now (Some bytes.now)) }
        ensures others { KeepsOthers path.now (stored self.old) (stored self.new) }
        ensures failed { IsErrOf result FilesError.Failed → FailsToWrite (failures self.old) (failures self.new) }
        ensures none_failed { result ≢ Err FilesError.Failed → failures self.new ≡ failures self.old };
}

/// Files that are kept in memory, seen as the list of their paths and bytes.
#[derive(Drop)]
pub struct MemoryFiles {
    files: NamedMap<Items<u8>>,
}

impl Model for MemoryFiles {
    ghost use Rattle.std.specs.Prelude.{List, ℕ};
    ghost use Rattle.wac_types_base.specs.Entries.{Name};

    ghost Value = { List (Name × List ℕ) };

    ghost view = { λ m. m.files };
}

impl MemoryFiles {
    /// No files.
    pub fn new(alloc: Global) -> Self
        ensures { result ≡ [] }
    {
        MemoryFiles {
            files: NamedMap::new(alloc),
        }
    }

    /// The bytes of a file, if it is there.
    pub fn get(&self, path: &str) -> Option<&[u8]>
        ensures { option_map (λ bytes. bytes.now) result ≡ value_at self.now path.now }
    {
        match self.files.get(path) {
            None => None,
            Some(bytes) => Some(bytes.as_slice()),
        }
    }

    /// Makes these the bytes of a file.
    pub fn put(&mut self, path: String, bytes: Vec<u8>) -> Result<(), AllocError>
        ensures put { OnOk result (self.new ≡ put_entry self.old (string_bytes path) bytes.items) }
        ensures kept { OnErr result (self.new ≡ self.old) }
    {
        let _ = self.files.insert(path, Items::from_vec(bytes))?;
        Ok(())
    }
}

impl Files for MemoryFiles {
    ghost use Rattle.std.specs.Prelude.{Some};
    ghost use Rattle.wac_types_base.specs.Entries.{value_at};

    ghost stored = { λ m. Some (value_at m) };

    // none does
    ghost failures = { λ _. Some 0 };

    fn read(&self, alloc: Global, path: &str) -> Result<Vec<u8>, FilesError>
        ensures bytes { IfOk result (λ bytes. value_at self.now path.now ≡ Some bytes.items) }
        ensures missing { IsErrOf result FilesError.Failed → value_at self.now path.now ≡ None }
    {
        match self.get(path) {
            None => Err(FilesError::Failed),
            Some(bytes) => Ok(Vec::from_slice(alloc, bytes)?),
        }
    }

    /// Makes these the bytes of a file. Only memory can be wanting, and then no file changes.
    fn write(&mut self, alloc: Global, path: &str, bytes: &[u8]) -> Result<(), FilesError>
        ensures written { OnOk result (Has (Some (value_at self.new)) path.now (Some bytes.now)) }
        ensures others { KeepsOthers path.now (Some (value_at self.old)) (Some (value_at self.new)) }
        ensures failed { IsErrOf result FilesError.Failed → FailsToWrite (Some 0) (Some 0) }
        ensures kept { OnErr result (self.new ≡ self.old) }
        ensures memory { OnErr result (IsErrOf result FilesError.Memory) }
    {
        let path = String::from_str(alloc, path)?;
        let bytes = Vec::from_slice(alloc, bytes)?;
        self.put(path, bytes)?;
        Ok(())
    }
}
