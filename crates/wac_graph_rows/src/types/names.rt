//! Names: `key NAME`, `track TEXT`, `compatible A B`, and `order A B` of keys of packages, each as `a:b` or `a:b@1.2.3`.

use semver::Version;
use std::alloc::{AllocError, Global};
use wac_rows::{Told, Words};
use wac_types::{
    BorrowedKey, BorrowedPackageKey, PackageKey, alternate_lookup_key, are_semver_compatible,
    is_track, same_key,
};

/// Tells the track of a name, and its version.
fn tell_key(told: &mut Told, name: &str) {
    match alternate_lookup_key(told.alloc(), name) {
        Ok(Some((track, version))) => {
            told.show(&track);
            told.push(" ");
            told.show(&version);
        }
        Ok(None) => told.push("nothing"),
        Err(_) => told.push("out of memory"),
    }
}

/// Tells yes or no.
fn tell_answer(told: &mut Told, yes: bool) {
    told.push(if yes { "yes" } else { "no" });
}

/// Tells whether two names are equal or on one track.
fn tell_compatible(told: &mut Told, a: &str, b: &str) {
    match are_semver_compatible(told.alloc(), a, b) {
        Ok(yes) => tell_answer(told, yes),
        Err(_) => told.push("out of memory"),
    }
}

/// The name and the version of a key.
fn name_and_version(alloc: Global, key: &str) -> (&str, Option<Version>) {
    match key.split_once('@') {
        Some((name, version)) => (name, Version::parse(alloc, version).ok()),
        None => (key, None),
    }
}

/// How a key stands to another.
fn order_word(a: &BorrowedPackageKey<'_>, b: &PackageKey) -> &'static str {
    if same_key(a, b) {
        " is "
    } else if *a < b.borrowed_key() {
        " before "
    } else {
        " behind "
    }
}

/// The key of a text.
fn key_of(alloc: Global, text: &str) -> Result<PackageKey, AllocError> {
    let (name, version) = name_and_version(alloc, text);
    BorrowedPackageKey::from_name_and_version(name, version.as_ref()).into_owned(alloc)
}

/// Tells how two keys of packages stand to one another.
fn tell_order(told: &mut Told, a: &str, b: &str) {
    let (name, version) = name_and_version(told.alloc(), a);
    let a = BorrowedPackageKey::from_name_and_version(name, version.as_ref());
    match key_of(told.alloc(), b) {
        Ok(b) => {
            told.show(&a);
            told.push(order_word(&a, &b));
            told.show(&b);
        }
        Err(_) => told.push("out of memory"),
    }
}

/// Tells what a line asks.
fn tell_line(told: &mut Told, line: &str) {
    let mut words = Words::new(told.alloc(), line);
    let (what, a, b) = (words.take(), words.take(), words.take());
    match what {
        "key" => tell_key(told, a),
        "track" => tell_answer(told, is_track(a)),
        "compatible" => tell_compatible(told, a, b),
        "order" => tell_order(told, a, b),
        _ => told.push("no such line of names"),
    }
}

/// Tells what the lines of a text ask, each on a line.
pub(crate) fn tell_names(told: &mut Told, text: &str) {
    for line in text.split('\n') {
        told.push(line);
        told.push(": ");
        tell_line(told, line);
        told.push("\n");
    }
}
