//! A line that is taken word by word.

use std::alloc::Global;

/// The words that are left of a line, and what was wrong with those before them.
#[derive(Clone, Copy)]
pub struct Words<'a> {
    alloc: Global,
    rest: &'a str,
    fault: &'static str,
}

impl<'a> Words<'a> {
    /// The words of a line.
    pub fn new(alloc: Global, line: &'a str) -> Self {
        Words {
            alloc,
            rest: line,
            fault: "",
        }
    }

    pub fn alloc(&self) -> Global {
        self.alloc
    }

    /// All that is left.
    pub fn rest(&self) -> &'a str {
        self.rest
    }

    /// Takes the next word: nothing at the end.
    pub fn take(&mut self) -> &'a str {
        let (word, rest) = self.rest.split_once(' ').unwrap_or((self.rest, ""));
        self.rest = rest;
        word
    }

    /// Takes the next word as a number.
    pub fn take_number(&mut self) -> u64 {
        let word = self.take();
        self.number_of(word)
    }

    /// The number of a word.
    pub fn number_of(&mut self, word: &str) -> u64 {
        match word.parse::<u64>() {
            Ok(number) => number,
            Err(_) => {
                self.refuse("no number");
                0
            }
        }
    }

    /// A text of its own.
    pub fn own(&mut self, text: &str) -> String {
        match String::from_str(self.alloc, text) {
            Ok(owned) => owned,
            Err(_) => {
                self.refuse("out of memory");
                String::new(self.alloc)
            }
        }
    }

    /// Takes the next word as a text of its own.
    pub fn take_text(&mut self) -> String {
        let word = self.take();
        self.own(word)
    }

    /// Adds an item to a list.
    pub fn keep<T: Drop>(&mut self, list: &mut Vec<T>, item: T) {
        if list.push(item).is_err() {
            self.refuse("out of memory");
        }
    }

    /// Adds bytes to others.
    pub fn keep_all(&mut self, list: &mut Vec<u8>, bytes: &[u8]) {
        if list.extend_from_slice(bytes).is_err() {
            self.refuse("out of memory");
        }
    }

    /// The words of a part of what is left.
    pub fn inside(&self, part: &'a str) -> Words<'a> {
        Words {
            alloc: self.alloc,
            rest: part,
            fault: self.fault,
        }
    }

    /// Takes over what was wrong with a part.
    pub fn join(&mut self, part: Words<'a>) {
        self.fault = part.fault;
    }

    /// Says what is wrong.
    pub fn refuse(&mut self, fault: &'static str) {
        self.fault = fault;
    }

    /// What was wrong, or nothing.
    pub fn fault(&self) -> &'static str {
        self.fault
    }
}
