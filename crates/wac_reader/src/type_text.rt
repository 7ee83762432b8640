//! A type's text, written while the type is read.

use super::ReadError;
use super::cursor::Cursor;
use std::alloc::Global;

/// The text so far, and where the next byte stands. The first fault stays: what is read or written after it counts for
/// nothing, and [`TypeText::finish`] gives it.
#[derive(Drop)]
pub struct TypeText<'a> {
    pub cursor: Cursor<'a>,
    alloc: Global,
    text: String,
    fault: Option<ReadError>,
}

impl<'a> TypeText<'a> {
    pub fn new(alloc: Global, cursor: Cursor<'a>) -> Self {
        TypeText {
            cursor,
            alloc,
            text: String::new(alloc),
            fault: None,
        }
    }

    pub fn has_fault(&self) -> bool {
        self.fault.is_some()
    }

    /// The text, or the first fault.
    pub fn finish(self) -> Result<String, ReadError> {
        match self.fault {
            Some(fault) => Err(fault),
            None => Ok(self.text),
        }
    }

    /// Keeps a fault, where it is the first.
    pub fn fail(&mut self, fault: ReadError) {
        if self.fault.is_none() {
            self.fault = Some(fault);
        }
    }

    /// That the bytes before here are wrong.
    pub fn refuse(&mut self, what: &'static str) {
        let at = self.cursor.offset();
        self.fail(ReadError::At(at, what));
    }

    pub fn push(&mut self, part: &str) {
        if let Err(refusal) = self.text.push_str(part) {
            self.fail(ReadError::from(refusal));
        }
    }

    pub fn push_number(&mut self, number: u64) {
        match number.to_string(self.alloc) {
            Ok(digits) => self.push(digits.as_str()),
            Err(refusal) => self.fail(ReadError::from(refusal)),
        }
    }

    /// What was read; nothing where that failed.
    pub fn known<'t>(&mut self, read: Result<&'t str, ReadError>) -> &'t str {
        match read {
            Ok(part) => part,
            Err(fault) => {
                self.fail(fault);
                ""
            }
        }
    }

    pub fn push_read(&mut self, read: Result<&str, ReadError>) {
        let part = self.known(read);
        self.push(part);
    }

    /// Reads a name and writes it.
    pub fn label(&mut self) {
        let read = self.cursor.label();
        self.push_read(read);
    }

    /// The next byte; 0 where none is left.
    pub fn byte(&mut self) -> u8 {
        match self.cursor.byte() {
            Ok(byte) => byte,
            Err(fault) => {
                self.fail(fault);
                0
            }
        }
    }

    /// A number of at most 32 bits; 0 where none stands here.
    pub fn number(&mut self) -> u32 {
        match self.cursor.unsigned() {
            Ok(number) => number,
            Err(fault) => {
                self.fail(fault);
                0
            }
        }
    }

    /// A number of at most 64 bits; 0 where none stands here.
    pub fn wide(&mut self) -> u64 {
        match self.cursor.wide() {
            Ok(number) => number,
            Err(fault) => {
                self.fail(fault);
                0
            }
        }
    }

    pub fn exactly(&mut self, wanted: u8, what: &'static str) {
        if let Err(fault) = self.cursor.exactly(wanted, what) {
            self.fail(fault);
        }
    }

    /// Names, as `enum { a, b }`.
    pub fn labels(&mut self, word: &str) {
        self.push(word);
        self.push(" {");
        for i in 0..self.number() {
            if self.has_fault() {
                break;
            }
            self.push(if i > 0 { ", " } else { " " });
            self.label();
        }
        self.push(" }");
    }
}
