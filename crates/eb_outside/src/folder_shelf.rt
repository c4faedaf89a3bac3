// The current folder as a shelf. It tells nothing of its files.
ghost use Rattle.std.specs.Prelude.{◌≡◌, None};

use crate::errors::{Fault, OutsideError};
use crate::shelf::Shelf;
use crate::system::{raise, read_once, write_once};
use std::alloc::Global;
use std::fs;
use std::fs::{File, OpenFile};
use std::io::{Error, ErrorKind};
use std::marker::Model;
use std::rt::Files;

/// The most bytes that a file may have to be read.
const MOST_BYTES: u64 = 1 << 40;

/// How many bytes of a file are read at once.
const PIECE: usize = 1 << 14;

/// The current folder. A file is replaced by a new one that is synced and renamed. Contracts see how many faults it
/// has counted.
#[derive(Drop)]
pub struct FolderShelf<'a, R> {
    rt: &'a R,
    faults: u64,
}

impl<'a, R> Model for FolderShelf<'a, R> {
    ghost use Rattle.std.specs.Prelude.{ℕ};

    ghost Value = { ℕ };

    ghost view = { λ s. s.faults };
}

impl<'a, R> FolderShelf<'a, R> {
    /// The current folder, with no fault yet. Takes no memory.
    pub fn open(rt: &'a R) -> Self
        ensures { result ≡ 0 }
    {
        FolderShelf { rt, faults: 0 }
    }

    /// How many faults it has counted.
    pub fn faults(&self) -> u64
        ensures { result ≡ self.now }
    {
        self.faults
    }
}

impl<'a, R: Files + AllocGlobal> Shelf for FolderShelf<'a, R> {
    ghost files = { λ _. None };

    ghost faults = { λ s. s };

    fn read(&mut self, name: &str) -> Result<Option<Vec<u8>>, OutsideError> {
        match read_file(self.rt, name) {
            Ok(found) => Ok(found),
            Err(OutsideError::Memory) => Err(OutsideError::Memory),
            Err(OutsideError::Fault) => Err(raise(&mut self.faults).into()),
        }
    }

    fn write(&mut self, name: &str, bytes: &[u8]) -> Result<(), OutsideError> {
        match replace_file(self.rt, name, bytes) {
            Ok(()) => Ok(()),
            Err(OutsideError::Memory) => Err(OutsideError::Memory),
            Err(OutsideError::Fault) => Err(raise(&mut self.faults).into()),
        }
    }
}

// Each error of the system is a fault, but that the file is missing.
fn read_file<R: Files + AllocGlobal>(rt: &R, name: &str) -> Result<Option<Vec<u8>>, OutsideError> {
    match File::open(rt, name) {
        Ok(file) => Ok(Some(read_open(rt.alloc(), file)?)),
        Err(error) if error.kind() == ErrorKind::NotFound => Ok(None),
        Err(_) => Err(OutsideError::Fault),
    }
}

fn read_open<F: std::io::Read + OpenFile + Drop>(
    alloc: Global,
    mut file: F,
) -> Result<Vec<u8>, OutsideError> {
    if file.metadata().map_err(fault)?.len() > MOST_BYTES {
        return Err(OutsideError::Fault);
    }
    let mut bytes = Vec::new(alloc);
    let mut piece = [0u8; PIECE];
    for _ in 0..u64::MAX {
        let count = read_once(&mut file, &mut piece)?;
        if count == 0 {
            return Ok(bytes);
        }
        bytes.extend_from_slice(&piece[..count])?;
        if bytes.len() as u64 > MOST_BYTES {
            break;
        }
    }
    Err(OutsideError::Fault)
}

// Writes a new file beside the old one and gives it the name, so that the name has the old bytes or the new ones.
fn replace_file<R: Files + AllocGlobal>(
    rt: &R,
    name: &str,
    bytes: &[u8],
) -> Result<(), OutsideError> {
    let fresh = format!(in rt.alloc(); "{name}.new")?;
    let written = write_and_rename(rt, fresh.as_str(), name, bytes);
    if written.is_err() {
        let _ = fs::remove_file(rt, fresh.as_str());
    }
    Ok(written?)
}

fn write_and_rename<R: Files>(rt: &R, fresh: &str, name: &str, bytes: &[u8]) -> Result<(), Fault> {
    let mut file = File::create(rt, fresh).map_err(fault)?;
    write_all(&mut file, bytes)?;
    file.sync_all().map_err(fault)?;
    drop(file);
    fs::rename(rt, fresh, name).map_err(fault)?;
    sync_folder(rt)
}

fn write_all<W: std::io::Write>(writer: &mut W, bytes: &[u8]) -> Result<(), Fault> {
    let mut rest = bytes;
    while !rest.is_empty() {
        let count = write_once(writer, rest)?;
        rest = &rest[count..];
    }
    Ok(())
}

// Makes the names of the folder durable, where the system lets a program do so.
fn sync_folder<R: Files>(rt: &R) -> Result<(), Fault> {
    let synced = match File::open(rt, ".") {
        Ok(folder) => folder.sync_all(),
        Err(error) => Err(error),
    };
    match synced {
        Ok(()) => Ok(()),
        Err(error) if is_refused(error.kind()) => Ok(()),
        Err(_) => Err(Fault),
    }
}

fn is_refused(kind: ErrorKind) -> bool {
    matches!(
        kind,
        ErrorKind::Unsupported
            | ErrorKind::InvalidInput
            | ErrorKind::IsADirectory
            | ErrorKind::PermissionDenied
    )
}

fn fault(_: Error) -> Fault {
    Fault
}
