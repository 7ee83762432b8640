use super::handed::{ONE, PASSING, SOURCE, bytes_of, passing_workspace};
use super::streams::{Endless, FailsAtOnce, SliceSource, TakesNothing, VecSink};
use std::alloc::Global;
use std::process::Abort;
use std::test::Fail;
use wac_workspace::*;

/// How a stream ended, in a word. What it ended with is dropped here alone.
fn ended<T: Drop>(outcome: Result<T, StreamError>) -> &'static str {
    let word = match &outcome {
        Ok(_) => "whole",
        Err(StreamError::Read) => "unread",
        Err(StreamError::SourceTooLong) => "too long",
        Err(StreamError::NotUtf8) => "no text",
        Err(StreamError::Compose(ComposeError::Parse(_))) => "no document",
        Err(StreamError::Write) => "unwritten",
        Err(_) => "another fault",
    };
    drop(outcome);
    word
}

#[test]
fn sources_read_to_their_end(rt: HostRuntime) -> Result<(), Fail> {
    let alloc = rt.alloc();
    let mut whole = SliceSource::new(b"package a:b;");
    assert_eq!(rt;
        read_source(alloc, &mut whole)?.as_slice(),
        b"package a:b;".as_slice()
    );
    assert_eq!(rt; whole.calls, 2);
    let mut pieces = SliceSource::new(b"package a:b;");
    pieces.most = 5;
    assert_eq!(rt;
        read_source(alloc, &mut pieces)?.as_slice(),
        b"package a:b;".as_slice()
    );
    assert_eq!(rt; pieces.calls, 4);
    Ok(())
}

#[test]
fn sources_that_fail(rt: HostRuntime) -> Result<(), Fail> {
    let alloc = rt.alloc();
    let mut first = FailsAtOnce { calls: 0 };
    assert_eq!(rt; ended(read_source(alloc, &mut first)), "unread");
    assert_eq!(rt; first.calls, 1);
    let mut second = SliceSource::new(b"package a:b;");
    second.most = 5;
    second.fails_at = Some(2);
    assert_eq!(rt; ended(read_source(alloc, &mut second)), "unread");
    assert_eq!(rt; second.calls, 2);
    Ok(())
}

#[test]
fn source_without_end(rt: HostRuntime) -> Result<(), Fail> {
    let mut endless = Endless {
        byte: b' ',
        calls: 0,
    };
    assert_eq!(rt; ended(read_source(rt.alloc(), &mut endless)), "too long");
    assert!(rt; endless.calls <= MAX_SOURCE_LENGTH);
    Ok(())
}

#[test]
fn sinks(rt: HostRuntime) -> Result<(), Fail> {
    let alloc = rt.alloc();
    let mut at_once = VecSink::new(alloc);
    assert!(rt; write_bytes(&mut at_once, b"abc").is_ok());
    assert_eq!(rt; at_once.taken.as_slice(), b"abc".as_slice());
    assert_eq!(rt; at_once.calls, 1);
    let mut single = VecSink::byte_by_byte(alloc);
    assert!(rt; write_bytes(&mut single, b"abc").is_ok());
    assert_eq!(rt; single.taken.as_slice(), b"abc".as_slice());
    assert_eq!(rt; single.calls, 3);
    let mut none = TakesNothing { calls: 0 };
    assert!(rt; matches!(write_bytes(&mut none, b"abc"), Err(WriteError)));
    assert_eq!(rt; none.calls, 1);
    let mut failing = VecSink::failing(alloc);
    assert!(rt; matches!(write_bytes(&mut failing, b"abc"), Err(WriteError)));
    assert_eq!(rt; failing.calls, 1);
    let mut later = VecSink::byte_by_byte(alloc);
    later.fails_at = Some(3);
    assert!(rt; matches!(write_bytes(&mut later, b"abc"), Err(WriteError)));
    assert_eq!(rt; later.taken.as_slice(), b"ab".as_slice());
    Ok(())
}

#[test]
fn composed_from_end_to_end(rt: HostRuntime) -> Result<(), Fail> {
    let alloc = rt.alloc();
    let mut workspace = passing_workspace(alloc)?;
    let mut source = SliceSource::new(SOURCE.as_bytes());
    source.most = 7;
    let mut sink = VecSink::byte_by_byte(alloc);
    let options = EncodeOptions::default();
    let outcome = compose_stream(&mut workspace, &mut source, &mut sink, options);
    assert_eq!(rt; ended(outcome), "whole");
    assert!(rt; sink.taken.as_slice() == bytes_of(alloc, ONE)?.as_slice());
    Ok(())
}

/// Whether a workspace holds `p:p` alone, and took no other number.
fn holds_passing_alone(alloc: Global, workspace: &Workspace) -> Result<bool, Fail> {
    let wanted = bytes_of(alloc, PASSING)?;
    let mut packages = workspace.packages();
    let first = packages.next().ok_or("no package")?.package;
    let is_passing = first.name() == "p:p" && first.bytes() == wanted.as_slice();
    Ok(is_passing && packages.next().is_none() && workspace.next_number() == 1)
}

/// How a stream over a workspace of `p:p` ends: nothing is written, and the workspace is as before.
fn refused<R: ByteSource>(
    rt: &impl Abort,
    alloc: Global,
    reader: &mut R,
) -> Result<&'static str, Fail> {
    let mut workspace = passing_workspace(alloc)?;
    let mut sink = VecSink::new(alloc);
    let outcome = compose_stream(&mut workspace, reader, &mut sink, EncodeOptions::default());
    assert_eq!(rt; sink.calls, 0);
    assert!(rt; holds_passing_alone(alloc, &workspace)?);
    Ok(ended(outcome))
}

#[test]
fn streams_refused(rt: HostRuntime) -> Result<(), Fail> {
    let unread = refused(&rt, rt.alloc(), &mut FailsAtOnce { calls: 0 })?;
    assert_eq!(rt; unread, "unread");
    let no_text = refused(&rt, rt.alloc(), &mut SliceSource::new(b"\xff"))?;
    assert_eq!(rt; no_text, "no text");
    let no_document = refused(&rt, rt.alloc(), &mut SliceSource::new(b"package a:b"))?;
    assert_eq!(rt; no_document, "no document");
    Ok(())
}

#[test]
fn streams_too_long(rt: HostRuntime) -> Result<(), Fail> {
    let long = vec![in rt.alloc(); b' '; MAX_SOURCE_LENGTH + 1]?;
    assert_eq!(rt;
        refused(&rt, rt.alloc(), &mut SliceSource::new(&long))?,
        "too long"
    );
    let mut endless = Endless {
        byte: b' ',
        calls: 0,
    };
    assert_eq!(rt; refused(&rt, rt.alloc(), &mut endless)?, "too long");
    Ok(())
}

#[test]
fn a_writer_that_takes_nothing(rt: HostRuntime) -> Result<(), Fail> {
    let mut workspace = Workspace::new(rt.alloc());
    let outcome = compose_stream(
        &mut workspace,
        &mut SliceSource::new(b"package a:b;"),
        &mut TakesNothing { calls: 0 },
        EncodeOptions::default(),
    );
    assert_eq!(rt; ended(outcome), "unwritten");
    assert!(rt; workspace.get("a:b", None).is_some());
    Ok(())
}

/// How a stream ended in which a call failed, what was written, and whether the output is a package then.
#[derive(Drop)]
struct Streamed {
    ended: &'static str,
    written: Vec<u8>,
    is_package: bool,
}

/// Composes the source from reads of twenty bytes to writes of one, where the calls of these numbers fail.
fn stream_source(
    alloc: Global,
    failing_read: Option<usize>,
    failing_write: Option<usize>,
) -> Result<Streamed, Fail> {
    let mut workspace = passing_workspace(alloc)?;
    let mut source = SliceSource::new(SOURCE.as_bytes());
    source.most = 20;
    source.fails_at = failing_read;
    let mut sink = VecSink::byte_by_byte(alloc);
    sink.fails_at = failing_write;
    let options = EncodeOptions::default();
    let word = ended(compose_stream(&mut workspace, &mut source, &mut sink, options));
    Ok(Streamed {
        ended: word,
        written: sink.taken,
        is_package: workspace.get("m:m", None).is_some(),
    })
}

#[test]
fn each_read_fails(rt: HostRuntime) -> Result<(), Fail> {
    for at in 1..5 {
        let refused = stream_source(rt.alloc(), Some(at), None)?;
        assert_eq!(rt; refused.ended, "unread");
        assert!(rt; refused.written.is_empty());
        assert!(rt; !refused.is_package);
    }
    let whole = stream_source(rt.alloc(), Some(5), None)?;
    assert_eq!(rt; whole.ended, "whole");
    assert!(rt; whole.is_package);
    Ok(())
}

#[test]
fn each_write_fails(rt: HostRuntime) -> Result<(), Fail> {
    let wanted = bytes_of(rt.alloc(), ONE)?;
    for before in 0..wanted.len() {
        let cut = stream_source(rt.alloc(), None, Some(before.saturating_add(1)))?;
        assert_eq!(rt; cut.ended, "unwritten");
        assert_eq!(rt; cut.written.len(), before);
        assert!(rt; wanted.as_slice().starts_with(cut.written.as_slice()));
        assert!(rt; cut.is_package);
    }
    Ok(())
}
