//! Places in sources, as compilers show them.

use std::alloc::Global;
use std::process::Abort;
use std::test::Fail;
use wac_parser_lexer::SourceSpan;
use wac_texts::{place_of, show_place};

/// What is shown of so many bytes from a place on.
fn place_row(
    rt: &impl Abort,
    alloc: Global,
    source: &str,
    span: (usize, usize),
    wanted: &str,
) -> Result<(), Fail> {
    let shown = show_place(alloc, source, SourceSpan::new(span.0, span.1))?;
    assert_eq!(rt; shown.as_str(), wanted);
    Ok(())
}

#[test]
fn a_name_in_the_second_line(rt: HostRuntime) -> Result<(), Fail> {
    place_row(
        &rt,
        rt.alloc(),
        "package a:b;\nlet x = new p:p {};\n",
        (25, 3),
        " --> 2:13\n  |\n2 | let x = new p:p {};\n  |             ^^^\n",
    )
}

#[test]
fn an_empty_source(rt: HostRuntime) -> Result<(), Fail> {
    place_row(&rt, rt.alloc(), "", (0, 1), " --> 1:1\n  |\n1 | \n  | ^\n")
}

#[test]
fn a_span_over_two_lines(rt: HostRuntime) -> Result<(), Fail> {
    place_row(
        &rt,
        rt.alloc(),
        "export \"a\nb\";",
        (7, 5),
        " --> 1:8\n  |\n1 | export \"a\n  |        ^^\n",
    )
}

#[test]
fn characters_are_counted(rt: HostRuntime) -> Result<(), Fail> {
    let place = place_of("// \u{e9}\u{e9} x", SourceSpan::new(8, 1));
    assert_eq!(rt; place.column, 7);
    assert_eq!(rt; place.width, 1);
    let inside = place_of("\u{e9}", SourceSpan::new(1, 9));
    assert_eq!(rt; inside.column, 1);
    Ok(())
}
