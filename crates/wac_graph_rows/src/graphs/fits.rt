//! What fits what.

use crate::lines::{item_named, type_named};
use wac_rows::{Told, Words};
use wac_types_base::{ExternKind, ItemKind, NamedMap, Types, WorldId};
use wac_types_fit::{
    SubtypeChecker, SubtypeError, TargetValidationReport, TargetValidationResult, new_cache,
    validate_target,
};

/// The item of the next word: `type.NAME` is the type of an item, and any other word an item's name.
fn take_item(items: &NamedMap<ItemKind>, words: &mut Words<'_>) -> ItemKind {
    let word = words.take();
    match word.strip_prefix("type.") {
        Some(name) => ItemKind::Ty(type_named(items, words, name)),
        None => item_named(items, words, word),
    }
}

/// Tells what is expected and found where two items disagree, behind the frames that lead there.
fn tell_mismatch(
    told: &mut Told,
    frames: &[(ExternKind, String)],
    expected: Option<&str>,
    found: Option<&str>,
) {
    for (kind, name) in frames {
        told.show(kind);
        told.push(" `");
        told.push(name.as_str());
        told.push("`: ");
    }
    told.push("expected ");
    told.push(expected.unwrap_or("nothing"));
    told.push(", found ");
    told.push(found.unwrap_or("nothing"));
    told.push("\n");
}

/// Tells that two items fit, or where and how they do not.
fn tell_difference(told: &mut Told, answer: &Result<(), SubtypeError>) {
    match answer {
        Ok(()) => told.push("fits\n"),
        Err(
            SubtypeError::Mismatch {
                frames,
                expected,
                found,
            },
        ) => tell_mismatch(told, frames, *expected, *found),
        Err(SubtypeError::Memory) => told.push("out of memory\n"),
    }
}

/// Tells whether an item fits another of its collection, or how it differs.
fn tell_fit(types: &Types, told: &mut Told, what: &str, (a, b): (ItemKind, ItemKind)) {
    if !types.has(a) || !types.has(b) {
        return told.push("an item does not stand\n");
    }
    let mut cache = new_cache(told.alloc());
    let mut checker = SubtypeChecker::new(told.alloc(), &mut cache);
    let answer = checker.is_subtype(a, types, b, types);
    match what {
        "differs" => tell_difference(told, &answer),
        _ => told.push(if answer.is_ok() {
            "fits\n"
        } else {
            "does not fit\n"
        }),
    }
}

/// Tells how a component differs from its target, and that the report, as an answer, is a refusal.
fn tell_differences(told: &mut Told, report: TargetValidationReport) {
    told.push("imports");
    for name in report.imports_not_in_target() {
        told.push(" ");
        told.push(name);
    }
    told.push(", exports");
    for (name, _) in report.missing_exports() {
        told.push(" ");
        told.push(name);
    }
    told.push(", types");
    for (name, kind, _) in report.mismatched_types() {
        told.push(" ");
        told.show(&kind);
        told.push(" ");
        told.push(name);
    }
    match TargetValidationResult::from(report) {
        Ok(()) => told.push(": met\n"),
        Err(_) => told.push(": refused\n"),
    }
}

/// Tells whether a component meets its target, and how it differs.
fn tell_report(types: &Types, told: &mut Told, target: WorldId, component: WorldId) {
    let is_there = types.has(ItemKind::Component(target));
    if !is_there || !types.has(ItemKind::Component(component)) {
        return told.push("a world does not stand\n");
    }
    match validate_target(told.alloc(), types, target, component) {
        Ok(Ok(())) => told.push("met\n"),
        Ok(Err(report)) => tell_differences(told, report),
        Err(_) => told.push("out of memory\n"),
    }
}

/// Tells what a line asks: `fits A B`, `differs A B` (where and how) or `target WORLD WORLD`.
fn tell_line(types: &Types, items: &NamedMap<ItemKind>, told: &mut Told, line: &str) {
    let mut words = Words::new(told.alloc(), line);
    let what = words.take();
    let a = take_item(items, &mut words);
    let b = take_item(items, &mut words);
    match (what, a, b) {
        ("target", ItemKind::Component(target), ItemKind::Component(component)) => {
            tell_report(types, told, target, component);
        }
        _ => tell_fit(types, told, what, (a, b)),
    }
    told.push(words.fault());
}

/// Tells what the lines of a text ask, each on a line.
pub(crate) fn tell_fits(types: &Types, items: &NamedMap<ItemKind>, told: &mut Told, text: &str) {
    for line in text.split('\n') {
        tell_line(types, items, told, line);
    }
}
