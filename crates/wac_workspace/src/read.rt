//! Sources from readers.

ghost use Rattle.std.specs.Prelude.{◌≡◌, ◌≢◌, ◌≤◌, ◌+◌, ◌⊎◌, length, Ok, Err, IfOk, OnOk, OnErr, IsErrOf};
ghost use Rattle.std.specs.Io.KnownBytes.{IsAtEnd};
ghost use Rattle.wac_streams.specs.Calls.{FailedOnce, NoneFailed, CallsAtMost};
ghost use Rattle.wac_workspace.specs.Reading.{Takes, ToEnd, HasTooMany, IsUnread};

use crate::error::StreamError;
use std::alloc::Global;
use wac_streams::ByteSource;

/// The most bytes that a source may have.
pub const MAX_SOURCE_LENGTH: usize = 16_777_216;

/// How many bytes one read asks for.
const PIECE_LENGTH: usize = 4096;

/// Reads the next piece of a source; none at its end.
fn read_piece<R: ByteSource>(reader: &mut R, source: &mut Vec<u8>) -> Result<usize, StreamError>
    requires { length source.old.items ≤ MAX_SOURCE_LENGTH }
    ensures taken { IfOk result (Takes (R.remaining reader.old) (R.remaining reader.new) source.old.items source.new.items) }
    ensures bound { OnOk result (length source.new.items ≤ MAX_SOURCE_LENGTH + 1) }
    ensures end { result ≡ Ok 0 → IsAtEnd (R.remaining reader.new) }
    ensures one_call { CallsAtMost (R.calls reader.old) (R.calls reader.new) 1 }
    ensures none_failed { result ≢ Err StreamError.Read → NoneFailed (R.calls reader.old) (R.calls reader.new) }
    ensures failed { IsErrOf result StreamError.Read → FailedOnce (R.calls reader.old) (R.calls reader.new) }
    ensures only { OnErr result (IsErrOf result StreamError.Read ⊎ IsErrOf result StreamError.Memory) }
{
    let mut piece = [0; PIECE_LENGTH];
    let room = PIECE_LENGTH.min(MAX_SOURCE_LENGTH + 1 - source.len());
    let Ok(count) = reader.read_some(&mut piece[..room]) else {
        return Err(StreamError::Read);
    };
    source.extend_from_slice(&piece[..count])?;
    Ok(count)
}

/// Reads a source to its end.
pub fn read_source<R: ByteSource>(alloc: Global, reader: &mut R) -> Result<Vec<u8>, StreamError>
    ensures whole { IfOk result (λ source. ToEnd (R.remaining reader.old) (R.remaining reader.new) source.items) }
    ensures bound { IfOk result (λ source. length source.items ≤ MAX_SOURCE_LENGTH) }
    ensures too_long { IsErrOf result StreamError.SourceTooLong → HasTooMany (R.remaining reader.old) }
    ensures few_calls { CallsAtMost (R.calls reader.old) (R.calls reader.new) (MAX_SOURCE_LENGTH + 1) }
    ensures none_failed { result ≢ Err StreamError.Read → NoneFailed (R.calls reader.old) (R.calls reader.new) }
    ensures failed { IsErrOf result StreamError.Read → FailedOnce (R.calls reader.old) (R.calls reader.new) }
    ensures only { OnErr result (IsUnread result) }
{
    let mut source = Vec::new(alloc);
    while source.len() <= MAX_SOURCE_LENGTH {
        if read_piece(reader, &mut source)? == 0 {
            return Ok(source);
        }
    }
    Err(StreamError::SourceTooLong)
}
