//! One read of a file, one write of a text.

ghost use Rattle.std.specs.Prelude.{◌≡◌, ◌≤◌, ◌<◌, length};
ghost use Rattle.shade_files.specs.Changes.{shelf_change, sink_change};
ghost use Rattle.shade_files.specs.Reads.{IsReadBy};
ghost use Rattle.shade_files.specs.Writes.{IsWritten};

use shade_base::{Shelf, ShelfRefusal, Sink, Status};
use std::alloc::{AllocError, Global};

/// Gives the bytes of a file, at most one more than its limit, or nothing where the read fails, which the shelf then counts by its name.
/// It is read once. Takes memory for the bytes; where that is wanting, no name joins the failed ones.
pub fn read<H: Shelf>(
    alloc: Global,
    name: &str,
    limit: usize,
    shelf: &mut H,
) -> Result<Option<Vec<u8>>, AllocError>
    requires { limit < usize.MAX }
    ensures given { IsReadBy (shelf_change H.texts H.failed shelf.old shelf.new) (record { name = name.now; limit = limit }) result }
    ensures texts { H.texts shelf.new ≡ H.texts shelf.old }
{
    match shelf.read(alloc, name, limit) {
        Ok(bytes) => Ok(Some(bytes)),
        Err(ShelfRefusal::Failed) => Ok(None),
        Err(ShelfRefusal::NoMemory) => Err(AllocError),
    }
}

/// Writes a text by one call, and gives the status that goes with it, or that of a failed write.
pub fn written<K: Sink>(out: &mut K, status: Status, text: &[u8]) -> Status
    requires { 1 ≤ length text.now }
    ensures { IsWritten (record { status = status.0; text = text.now }) (sink_change K.taken K.faults out.old out.new) result.0 }
{
    match out.write(text) {
        Ok(()) => status,
        Err(_) => Status::UNWRITTEN,
    }
}
