//! A text while it is told.

use std::alloc::Global;
use std::fmt::{Debug, Display};

/// A text while it is told. Where memory runs out it is not whole.
#[derive(Drop)]
pub struct Told {
    alloc: Global,
    text: String,
    is_whole: bool,
}

impl Told {
    /// Nothing yet.
    pub fn new(alloc: Global) -> Self {
        Told {
            alloc,
            text: String::new(alloc),
            is_whole: true,
        }
    }

    pub fn alloc(&self) -> Global {
        self.alloc
    }

    /// Adds a text.
    pub fn push(&mut self, part: &str) {
        if self.text.push_str(part).is_err() {
            self.is_whole = false;
        }
    }

    /// Adds a text of these bytes.
    pub fn push_bytes(&mut self, bytes: &[u8]) {
        match std::str::from_utf8(bytes) {
            Ok(text) => self.push(text),
            Err(_) => self.push("no text"),
        }
    }

    /// Adds texts, one behind the other.
    pub fn push_all(&mut self, parts: &[&str]) {
        for part in parts {
            self.push(part);
        }
    }

    /// Adds what a value prints.
    pub fn show<T: Display>(&mut self, it: &T) {
        if write!(self.text, "{it}").is_err() {
            self.is_whole = false;
        }
    }

    /// Adds what a value prints for developers.
    pub fn show_debug<T: Debug>(&mut self, it: &T) {
        if write!(self.text, "{it:?}").is_err() {
            self.is_whole = false;
        }
    }

    /// Adds two digits for each byte.
    pub fn show_bytes(&mut self, bytes: &[u8]) {
        for byte in bytes {
            if write!(self.text, "{byte:02x}").is_err() {
                self.is_whole = false;
            }
        }
    }

    /// Adds an answer, or what its fault prints.
    pub fn push_answer<E: Display + Drop>(&mut self, answer: Result<String, E>) {
        match answer {
            Ok(text) => self.push(text.as_str()),
            Err(fault) => self.show(&fault),
        }
    }

    /// What was answered. A fault is told by what it prints.
    pub fn given<T, E: Display + Drop>(&mut self, answer: Result<T, E>) -> Option<T> {
        match answer {
            Ok(it) => Some(it),
            Err(fault) => {
                self.show(&fault);
                None
            }
        }
    }

    /// Tells a fault by what it prints.
    pub fn end<E: Display + Drop>(&mut self, answer: Result<(), E>) {
        if let Err(fault) = answer {
            self.show(&fault);
        }
    }

    /// Tells why there is nothing.
    pub fn refuse<T>(&mut self, why: &str) -> Option<T> {
        self.push(why);
        None
    }

    /// Whether another text is the same. If not, it is told behind this one.
    pub fn compare(&mut self, other: &Told) -> bool {
        if other.is_whole && self.text.as_str() == other.text.as_str() {
            return true;
        }
        self.push("\notherwise:\n");
        self.push(other.text.as_str());
        false
    }

    /// Whether memory sufficed so far.
    pub fn is_whole(&self) -> bool {
        self.is_whole
    }

    pub fn is_empty(&self) -> bool {
        self.text.is_empty()
    }

    /// What is told so far, without the line feeds at its end.
    pub fn text(&self) -> &str {
        self.text.as_str().trim_end_matches('\n')
    }
}
