//! Bytes to a writer.

ghost use Rattle.std.specs.Prelude.{◌≤◌, ◌<◌, length, take, IfOk, OnOk, OnErr, []};
ghost use Rattle.std.specs.Io.KnownBytes.{Appends};
ghost use Rattle.wac_streams.specs.Calls.{FailedOnce, NoneFailed, AppendsPrefix};

use crate::ends::ByteSink;
use thiserror::Error;

/// The writer failed, or took nothing of what it was given.
#[derive(Clone, Copy, Debug, PartialEq, Eq, Error)]
#[error("the writer failed")]
pub struct WriteError;

/// Writes the front of the bytes: at least one of them.
fn write_piece<W: ByteSink>(writer: &mut W, bytes: &[u8]) -> Result<usize, WriteError>
    requires { 0 < length bytes.now }
    ensures taken { IfOk result (λ n. Appends (W.contents writer.old) (W.contents writer.new) (take n bytes.now)) }
    ensures some { IfOk result (λ n. (0 < n) × (n ≤ length bytes.now)) }
    ensures none_failed { OnOk result (NoneFailed (W.calls writer.old) (W.calls writer.new)) }
    ensures failed { OnErr result (FailedOnce (W.calls writer.old) (W.calls writer.new)) }
    ensures kept { OnErr result (Appends (W.contents writer.old) (W.contents writer.new) []) }
{
    match writer.write_some(bytes) {
        Ok(count) if count > 0 => Ok(count),
        Ok(_) => Err(WriteError),
        Err(_) => Err(WriteError),
    }
}

/// Writes the bytes, by as many writes as they need. Where one fails, what was written is a front of them.
pub fn write_bytes<W: ByteSink>(writer: &mut W, bytes: &[u8]) -> Result<(), WriteError>
    ensures whole { OnOk result (Appends (W.contents writer.old) (W.contents writer.new) bytes.now) }
    ensures prefix { OnErr result (AppendsPrefix (W.contents writer.old) (W.contents writer.new) bytes.now) }
    ensures none_failed { OnOk result (NoneFailed (W.calls writer.old) (W.calls writer.new)) }
    ensures failed { OnErr result (FailedOnce (W.calls writer.old) (W.calls writer.new)) }
{
    let mut written = 0;
    while written < bytes.len() {
        written += write_piece(writer, &bytes[written..])?;
    }
    Ok(())
}
