//! What a lexer gives.

use wac_parser_lexer::{Lexer, LexerResult, SourceSpan, Token, span_in};
use wac_rows::{Told, Words};

/// Tells a place as `4+2`.
pub(crate) fn tell_span(told: &mut Told, span: SourceSpan) {
    told.show(&span.offset);
    told.push("+");
    told.show(&span.length);
}

/// Tells an item by its name and its text.
fn tell_token(told: &mut Told, item: LexerResult<Token>) {
    match item {
        Ok(token) => {
            told.show_debug(&token);
            told.push(": ");
            told.show(&token);
        }
        Err(fault) => {
            told.show_debug(&fault);
            told.push(": ");
            told.show(&fault);
        }
    }
}

/// Takes the next item, which `peek` and `peek2` have to show before, and tells it behind the others. Whether there was one.
fn tell_item(lexer: &mut Lexer<'_>, told: &mut Told, is_first: bool) -> bool {
    let first = lexer.peek();
    let second = lexer.peek2();
    let item = lexer.next();
    if item != first || lexer.peek() != second {
        told.push("`peek` or `peek2` shows another item ");
    }
    let Some((item, span)) = item else {
        return false;
    };
    told.push(if is_first { "" } else { "; " });
    tell_span(told, span);
    told.push(" ");
    tell_token(told, item);
    true
}

/// Tells the items of a lexer over so many bytes, each with its place, its name and its text.
fn tell_items(lexer: &mut Lexer<'_>, told: &mut Told, bytes: usize) {
    let mut is_first = true;
    for _ in 0..bytes {
        if tell_item(lexer, told, is_first) {
            is_first = false;
        }
    }
    if tell_item(lexer, told, is_first) {
        told.push(": more items than bytes");
    } else if is_first {
        told.push("nothing");
    }
}

/// Tells the doc comments before the next item.
fn tell_comments(lexer: &Lexer<'_>, told: &mut Told) {
    match lexer.comments(told.alloc()) {
        Ok(comments) => told.show_debug(&comments),
        Err(_) => told.push("out of memory"),
    }
}

/// Tells the doc comments before each item of a lexer over so many bytes, before the end, and at the end.
fn tell_docs(lexer: &mut Lexer<'_>, told: &mut Told, bytes: usize) {
    tell_comments(lexer, told);
    for _ in 0..=bytes {
        let is_end = lexer.next().is_none();
        told.push(" ");
        tell_comments(lexer, told);
        if is_end {
            return;
        }
    }
    told.push(": more items than bytes");
}

/// Tells the span that a lexer over so many bytes shows before its first item, behind each, and at the end.
fn tell_spans(lexer: &mut Lexer<'_>, told: &mut Told, bytes: usize) {
    tell_span(told, lexer.span());
    for _ in 0..=bytes {
        let is_end = lexer.next().is_none();
        told.push(" ");
        tell_span(told, lexer.span());
        if is_end {
            return;
        }
    }
    told.push(": more items than bytes");
}

/// Tells the `items` of a source, its `docs` or its `spans`, or why the lexer refuses it.
pub(crate) fn tell_line(source: &str, told: &mut Told, kind: &str) {
    match Lexer::new(source) {
        Ok(mut lexer) => match kind {
            "items" => tell_items(&mut lexer, told, source.len()),
            "docs" => tell_docs(&mut lexer, told, source.len()),
            _ => tell_spans(&mut lexer, told, source.len()),
        },
        Err((fault, span)) => {
            told.push("refused at ");
            tell_span(told, span);
            told.push(": ");
            told.show(&fault);
        }
    }
}

/// The span of a word as `4+2`.
fn span_of(words: &mut Words<'_>, word: &str) -> SourceSpan {
    let (offset, length) = word.split_once('+').unwrap_or((word, ""));
    let offset = offset.parse::<usize>().unwrap_or(0);
    match length.parse::<usize>() {
        Ok(length) => SourceSpan::new(offset, length),
        Err(_) => {
            words.refuse("no span");
            SourceSpan::new(offset, 0)
        }
    }
}

/// Tells what the source has at a span, if it lies there.
fn tell_text(lexer: &Lexer<'_>, told: &mut Told, span: SourceSpan) {
    told.show(&span.offset());
    told.push("+");
    told.show(&span.len());
    told.push(if span.is_empty() { " empty " } else { " some " });
    if lexer.span_in(span) {
        told.push("`");
        told.push(lexer.source(span));
        told.push("`\n");
    } else {
        told.push("outside\n");
    }
}

/// Tells what a source has at each of some spans, one a line.
pub(crate) fn tell_texts(source: &str, told: &mut Told, spans: &str) {
    let Ok(lexer) = Lexer::new(source) else {
        return told.push("the lexer refuses the source");
    };
    let mut words = Words::new(told.alloc(), spans);
    for word in spans.split(' ') {
        let span = span_of(&mut words, word);
        if span_in(source, span) != lexer.span_in(span) {
            told.push("the lexer is over another source: ");
        }
        tell_text(&lexer, told, span);
    }
    told.push(words.fault());
}
