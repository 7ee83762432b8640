//! The directions of a checker.

use wac_rows::{Told, Words};
use wac_types::{ItemKind, SubtypeCheck, SubtypeChecker, SubtypeError, Types, new_cache};

fn direction_word(direction: SubtypeCheck) -> &'static str {
    match direction {
        SubtypeCheck::Covariant => "covariant ",
        SubtypeCheck::Contravariant => "contravariant ",
    }
}

/// Tells what a checker finds: how many frames lead there, what is expected and what is found.
fn tell_found(told: &mut Told, answer: &Result<(), SubtypeError>) {
    match answer {
        Ok(()) => told.push("fits"),
        Err(
            SubtypeError::Mismatch {
                frames,
                expected,
                found,
            },
        ) => {
            told.show(&frames.len());
            told.push(" frames, expected ");
            told.push(expected.unwrap_or("nothing"));
            told.push(", found ");
            told.push(found.unwrap_or("nothing"));
        }
        Err(SubtypeError::Memory) => told.push("out of memory"),
    }
}

/// Tells what a checker that is turned once finds.
pub(crate) fn tell_turned(types: &Types, told: &mut Told, a: ItemKind, b: ItemKind) {
    if !types.has(a) || !types.has(b) {
        return told.push("an item does not stand");
    }
    let mut cache = new_cache(told.alloc());
    let mut checker = SubtypeChecker::new(told.alloc(), &mut cache);
    let _ = checker.invert();
    tell_found(told, &checker.is_subtype(a, types, b, types));
}

/// Turns a checker, or turns it back. Told is the direction before, where it is turned, and how many are set then.
fn turn(told: &mut Told, checker: &mut SubtypeChecker<'_>, word: &str) {
    let set = checker.directions();
    match word {
        "revert" if set > 0 => checker.revert(),
        "invert" if set < 100 => told.push(direction_word(checker.invert())),
        _ => told.push("no such turn "),
    }
    told.show(&checker.directions());
    told.push(" ");
}

/// Tells the turns that a line's words say behind its first.
pub(crate) fn tell_turns(told: &mut Told, words: &Words<'_>) {
    let mut cache = new_cache(told.alloc());
    let mut checker = SubtypeChecker::new(told.alloc(), &mut cache);
    for word in words.rest().split_whitespace() {
        turn(told, &mut checker, word);
    }
    told.push("set");
}
