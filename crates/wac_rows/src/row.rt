//! A row and its parts.

ghost use Rattle.std.specs.Prelude.{◌≡◌};
ghost use Rattle.std.specs.Option.{option_copied};
ghost use Rattle.wac_rows.specs.Parts.{first_text};

use std::alloc::{AllocError, Global};

/// A part of a row.
#[derive(Clone, Copy, Drop)]
pub struct Part<'a> {
    /// The first word of its line.
    pub kind: &'a str,
    /// The rest of its line.
    pub name: &'a str,
    /// What stands below its line.
    pub text: &'a str,
}

impl<'a> Part<'a> {
    /// The part of its line and the text below it.
    fn read(part: &'a str) -> Part<'a> {
        let (title, text) = part.split_once('\n').unwrap_or((part, ""));
        let (kind, name) = title.split_once(' ').unwrap_or((title, ""));
        Part {
            kind,
            name,
            text: text.trim_end_matches('\n'),
        }
    }

    /// Its text as a source, which ends before `(end)` where that stands, so that line feeds can end it.
    pub fn source(&self) -> &'a str {
        self.text.strip_suffix("(end)").unwrap_or(self.text)
    }
}

/// A row.
#[derive(Drop)]
pub struct Row<'a> {
    pub name: &'a str,
    /// The parts as they stand in the file.
    pub parts: Vec<Part<'a>>,
}

impl<'a> Row<'a> {
    /// The row of the text behind `=== `.
    pub fn read(alloc: Global, chunk: &'a str) -> Result<Row<'a>, AllocError> {
        let mut chunks = chunk.split("\n--- ");
        let name = chunks.next().unwrap_or("");
        let mut parts = Vec::new(alloc);
        for part in chunks {
            parts.push(Part::read(part))?;
        }
        Ok(Row {
            name: name.trim_end_matches('\n'),
            parts,
        })
    }

    /// The text of the first part of a kind.
    pub fn text(&self, kind: &str) -> Option<&'a str>
        ensures { option_copied result ≡ first_text kind.now self.now.parts.items }
    {
        for part in &self.parts {
            if part.kind == kind {
                return Some(part.text);
            }
        }
        None
    }

    /// The text of the first part of a kind, or nothing.
    pub fn text_or_nothing(&self, kind: &str) -> &'a str {
        self.text(kind).unwrap_or("")
    }

    /// The name of the first part of a kind, or nothing.
    pub fn name_of(&self, kind: &str) -> &'a str {
        for part in &self.parts {
            if kind == part.kind {
                return part.name;
            }
        }
        ""
    }

    /// The first part, or an empty one.
    pub fn first(&self) -> Part<'a> {
        match self.parts.first() {
            Some(part) => *part,
            None => Part::read(""),
        }
    }
}
