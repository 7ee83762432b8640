//! Growths that are refused, one in each quick run of the toolchain; without a refusal both pass.

use super::handed::{ONE, PASSING, SOURCE, add, bytes_of, maybe_bytes};
use std::alloc::Global;
use std::test::Fail;
use wac_workspace::*;

/// Adds `p:p`. Whether it was added; and none where another answer than want of memory came.
fn is_added(alloc: Global, workspace: &mut Workspace) -> Option<bool> {
    let Some(bytes) = maybe_bytes(alloc, PASSING) else {
        return Some(false);
    };
    match add(alloc, workspace, "p:p", bytes) {
        None => Some(false),
        Some(Ok(())) => Some(true),
        Some(Err(AddPackageError::Memory)) => Some(false),
        Some(Err(_)) => None,
    }
}

/// What a refusal is: want of memory, or none.
fn of_memory(fault: ComposeError) -> Option<bool> {
    let is_memory = matches!(fault, ComposeError::Memory);
    drop(fault);
    if is_memory { Some(false) } else { None }
}

/// Composes the source. Whether the right bytes came; and none where neither they nor want of memory did.
fn is_composed(workspace: &mut Workspace, wanted: &[u8]) -> Option<bool> {
    match workspace.compose(SOURCE, EncodeOptions::default()) {
        Ok(output) => {
            if output.bytes.as_slice() == wanted {
                return Some(true);
            }
            None
        }
        Err(fault) => of_memory(fault),
    }
}

// One growth at most is refused, so each second attempt has the answer.
#[test]
fn any_growth_refused(rt: HostRuntime) -> Result<(), Fail> {
    let wanted = match maybe_bytes(rt.alloc(), ONE) {
        Some(bytes) => bytes,
        None => bytes_of(rt.alloc(), ONE)?,
    };
    let mut workspace = Workspace::new(rt.alloc());
    match is_added(rt.alloc(), &mut workspace) {
        Some(true) => {}
        Some(false) => {
            assert_eq!(rt; workspace.next_number(), 0);
            assert_eq!(rt; is_added(rt.alloc(), &mut workspace), Some(true));
        }
        None => assert!(rt; false),
    }
    let first = is_composed(&mut workspace, &wanted);
    assert!(rt; first.is_some());
    if first == Some(false) {
        assert_eq!(rt; workspace.next_number(), 1);
        assert_eq!(rt; is_composed(&mut workspace, &wanted), Some(true));
    }
    assert_eq!(rt; workspace.next_number(), 4);
    Ok(())
}

#[test]
fn no_growth_refused(rt: HostRuntime) -> Result<(), Fail> {
    let wanted = bytes_of(rt.alloc(), ONE)?;
    let mut workspace = Workspace::new(rt.alloc());
    assert_eq!(rt; is_added(rt.alloc(), &mut workspace), Some(true));
    assert_eq!(rt; is_composed(&mut workspace, &wanted), Some(true));
    Ok(())
}
