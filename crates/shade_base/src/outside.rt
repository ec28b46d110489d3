//! The files and the standard output of the process. They tell nothing of content.
ghost use Rattle.std.specs.Prelude.{◌≡◌, ℕ, ◌+◌, ◌<◌, ◌≤◌, [], None, map, take, length, vec_len, IfOk, OnOk, OnErr, IfSome};
ghost use Rattle.std.specs.String.{string_bytes};
ghost use Rattle.std.specs.Io.KnownBytes.{Appends};

use crate::{Failed, Shelf, ShelfRefusal, Sink};
use std::alloc::Global;
use std::fs;
use std::io::{Read, Write};
use std::rt::Files;

/// The files of a runtime.
#[derive(Drop)]
pub struct FileShelf<R: Files + Drop> {
    files: R,
    failed: Vec<String>,
}

impl<R: Files + Drop> FileShelf<R> {
    /// A shelf of these files. No read has failed yet. This takes no memory.
    pub fn new(alloc: Global, files: R) -> FileShelf<R>
        ensures files { result.files ≡ files }
        ensures failed { result.failed.items ≡ [] }
    {
        FileShelf {
            files,
            failed: Vec::new(alloc),
        }
    }
}

/// Reads on to one byte past the limit, or to the end.
fn read_front<F: Read>(file: &mut F, alloc: Global, limit: usize) -> Result<Vec<u8>, ShelfRefusal>
    requires { limit < usize.MAX }
    ensures len { IfOk result (λ bytes. vec_len bytes ≤ limit + 1) }
    ensures bytes { IfOk result (λ bytes. IfSome (F.remaining file.old) (λ rest. bytes.items ≡ take (limit + 1) rest)) }
{
    let mut bytes = Vec::new(alloc);
    let mut buffer = [0u8; 4096];
    'pieces: while bytes.len() <= limit {
        let wanted = (limit + 1 - bytes.len()).min(buffer.len());
        match file.read(&mut buffer[..wanted]) {
            Ok(0) => return Ok(bytes),
            Ok(count) => bytes.extend_from_slice(&buffer[..count])?,
            Err(_) => return Err(ShelfRefusal::Failed),
        }
    }
    Ok(bytes)
}

/// Opens the named file and reads its first bytes.
fn read_file<R: Files>(
    files: &R,
    alloc: Global,
    name: &str,
    limit: usize,
) -> Result<Vec<u8>, ShelfRefusal>
    requires { limit < usize.MAX }
    ensures { IfOk result (λ bytes. vec_len bytes ≤ limit + 1) }
{
    let Ok(mut file) = fs::open(files, name) else {
        return Err(ShelfRefusal::Failed);
    };
    read_front(&mut file, alloc, limit)
}

impl<R: Files + Drop> Shelf for FileShelf<R> {
    ghost use Rattle.shade_base.specs.Shelf.{IsFailedBy};

    ghost texts = { λ s. None };

    ghost failed = { λ s. map (λ name. string_bytes name) s.failed.items };

    /// Fails where the file cannot be opened or read. A failure adds the name once.
    fn read(&mut self, alloc: Global, name: &str, limit: usize) -> Result<Vec<u8>, ShelfRefusal>
        requires { limit < usize.MAX }
        ensures len { IfOk result (λ bytes. vec_len bytes ≤ limit + 1) }
        ensures cause { IsFailedBy name.now (map (λ name. string_bytes name) self.old.failed.items) (map (λ name. string_bytes name) self.new.failed.items) result }
    {
        // The place for the name comes first, so that a failure can be kept.
        self.failed.reserve(1)?;
        let kept = String::from_str(alloc, name)?;
        match read_file(&self.files, alloc, name, limit) {
            Ok(bytes) => Ok(bytes),
            Err(ShelfRefusal::NoMemory) => Err(ShelfRefusal::NoMemory),
            Err(ShelfRefusal::Failed) => {
                self.failed.push_reserved(kept);
                Err(ShelfRefusal::Failed)
            }
        }
    }
}

/// A writer of std, as standard output.
#[derive(Drop)]
pub struct StdSink<W: Write + Drop> {
    writer: W,
    faults: u64,
}

impl<W: Write + Drop> StdSink<W> {
    /// A sink over this writer. No write has failed yet. This takes no memory.
    pub fn new(writer: W) -> StdSink<W>
        ensures writer { result.writer ≡ writer }
        ensures faults { result.faults ≡ 0 }
    {
        StdSink { writer, faults: 0 }
    }
}

/// Writes piece after piece until all bytes are out. An error, and a write that takes nothing, end it.
fn write_whole<W: Write>(writer: &mut W, bytes: &[u8]) -> Result<(), Failed>
    ensures ok { OnOk result (Appends (W.contents writer.old) (W.contents writer.new) bytes.now) }
    ensures err { OnErr result ((n : ℕ) × (n ≤ length bytes.now) × Appends (W.contents writer.old) (W.contents writer.new) (take n bytes.now)) }
{
    let mut done = 0;
    'pieces: while done < bytes.len() {
        match writer.write(&bytes[done..]) {
            Ok(0) | Err(_) => return Err(Failed),
            Ok(count) => done += count,
        }
    }
    Ok(())
}

impl<W: Write + Drop> Sink for StdSink<W> {
    ghost use Rattle.shade_base.specs.Sink.{Takes, IsCountedOnErr};

    ghost taken = { λ s. None };

    ghost faults = { λ s. s.faults };

    /// Fails where the writer gives an error or takes nothing. This takes no memory.
    fn write(&mut self, bytes: &[u8]) -> Result<(), Failed>
        requires { 1 ≤ length bytes.now }
        ensures cause { IsCountedOnErr self.old.faults self.new.faults result }
        ensures bytes { Takes None bytes.now None result }
        ensures ok { OnOk result (Appends (W.contents self.old.writer) (W.contents self.new.writer) bytes.now) }
        ensures err { OnErr result ((n : ℕ) × (n ≤ length bytes.now) × Appends (W.contents self.old.writer) (W.contents self.new.writer) (take n bytes.now)) }
    {
        let result = write_whole(&mut self.writer, bytes);
        if result.is_err() {
            self.faults = self.faults.saturating_add(1);
        }
        result
    }
}
