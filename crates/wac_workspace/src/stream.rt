//! Composing from a reader to a writer.
ghost use Rattle.std.specs.Prelude.{◌≡◌, ◌≢◌, ◌+◌, ℕ, List, Ok, Err, IfErr, OnOk, OnErr, IsErrOf, ◌⊎◌, []};
ghost use Rattle.std.specs.Io.KnownBytes.{Appends};
ghost use Rattle.wac_streams.specs.Calls.{AppendsPrefix, CallsAtMost, FailedOnce, NoneFailed};
ghost use Rattle.wac_workspace.specs.Streaming.{IsStreamed, IsStopped};

use crate::error::StreamError;
use crate::read::{MAX_SOURCE_LENGTH, read_source};
use crate::workspace::Workspace;
use wac_graph_encode::EncodeOptions;
use wac_streams::{ByteSink, ByteSource, write_bytes};

/// Writes the bytes of a component.
fn write_component<W: ByteSink>(writer: &mut W, bytes: &[u8]) -> Result<(), StreamError>
    ensures whole { OnOk result (Appends (W.contents writer.old) (W.contents writer.new) bytes.now) }
    ensures prefix { OnErr result (AppendsPrefix (W.contents writer.old) (W.contents writer.new) bytes.now) }
    ensures none_failed { OnOk result (NoneFailed (W.calls writer.old) (W.calls writer.new)) }
    ensures failed { OnErr result (FailedOnce (W.calls writer.old) (W.calls writer.new)) }
    ensures only { OnErr result (IsErrOf result StreamError.Write) }
{
    Ok(write_bytes(writer, bytes)?)
}

/// Composes the source that the reader gives, and writes the component's bytes. The reader is read to its end, of at most
/// [`MAX_SOURCE_LENGTH`] bytes; a refusal of the source writes nothing.
pub fn compose_stream<R: ByteSource, W: ByteSink>(
    workspace: &mut Workspace,
    reader: &mut R,
    writer: &mut W,
    options: EncodeOptions,
) -> Result<(), StreamError>
    ensures composed { OnOk result (IsStreamed workspace.old workspace.new options (record {
      read = R.remaining reader.old;
      unread = R.remaining reader.new;
      written = W.contents writer.old;
      known = W.contents writer.new;
    })) }
    ensures stopped { IfErr result (IsStopped workspace.old workspace.new options (record {
      read = R.remaining reader.old;
      unread = R.remaining reader.new;
      written = W.contents writer.old;
      known = W.contents writer.new;
    })) }
    ensures few_calls { CallsAtMost (R.calls reader.old) (R.calls reader.new) (MAX_SOURCE_LENGTH + 1) }
    ensures none_failed { result ≢ Err StreamError.Read → NoneFailed (R.calls reader.old) (R.calls reader.new) }
    ensures read_failed { IsErrOf result StreamError.Read → FailedOnce (R.calls reader.old) (R.calls reader.new) }
    ensures all_written { result ≢ Err StreamError.Write → NoneFailed (W.calls writer.old) (W.calls writer.new) }
    ensures write_failed { IsErrOf result StreamError.Write → FailedOnce (W.calls writer.old) (W.calls writer.new) }
{
    let source = read_source(workspace.allocator(), reader)?;
    let Ok(text) = std::str::from_utf8(&source) else {
        return Err(StreamError::NotUtf8);
    };
    let output = workspace.compose(text, options)?;
    write_component(writer, &output.bytes)
}
