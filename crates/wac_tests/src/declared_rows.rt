//! Worlds that documents declare.

use std::alloc::Global;
use std::test::Fail;
use wac_parser_read::ParseDocument;
use wac_parser_resolve::{Packages, ResolveDocument};
use wac_parser_tree::Document;
use wac_texts::{DeclareDocument, DeclaredWorldError, declared_world};

/// Whether a source's document declares a world under a name, and else why not. What owns a document is generic in its
/// type: a proof then need not take the whole tree of types apart.
fn declared_in<'s, D: ParseDocument<'s> + ResolveDocument + DeclareDocument>(
    source: &'s str,
    alloc: Global,
    name: &str,
) -> Result<Option<DeclaredWorldError>, Fail> {
    let document = D::parse(alloc, source)?;
    let none: Packages<'_> = Packages::new(alloc);
    let resolution = document.resolve(alloc, &none, 1)?;
    match declared_world(alloc, &resolution, name, 2) {
        Ok((types, _world)) => {
            if types.number() == 2 {
                Ok(None)
            } else {
                Err("another number")?
            }
        }
        Err(fault) => Ok(Some(fault)),
    }
}

#[test]
fn declared_worlds(rt: HostRuntime) -> Result<(), Fail> {
    let alloc = rt.alloc();
    let source = "package c:d; interface i { f: func(); } world e { export g: func(); }";
    let e = declared_in::<Document<'_>>(source, alloc, "e")?;
    assert_eq!(rt; e, None);
    let z = declared_in::<Document<'_>>(source, alloc, "z")?;
    assert_eq!(rt; z, Some(DeclaredWorldError::NotDeclared));
    let i = declared_in::<Document<'_>>(source, alloc, "i")?;
    assert_eq!(rt; i, Some(DeclaredWorldError::NotWorld));
    Ok(())
}
