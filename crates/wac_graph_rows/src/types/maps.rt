//! Maps from names: lines `insert NAME NUMBER`, `shadow NAME NUMBER`, `get NAME`, `get_track KEY` and `entries`.

ghost use Rattle.std.specs.Prelude.{Some, string_bytes};
ghost use Rattle.wac_types_names.specs.NameMaps.{KnowsKeys};

use std::alloc::AllocError;
use wac_rows::{Told, Words};
use wac_types::{NameMap, NameMapNoIntern};

/// A map from names to numbers.
type Numbers = NameMap<String, u64>;

/// Puts a number under a name. Told is the name's key, or why it is refused.
fn insert(map: &mut Numbers, told: &mut Told, words: &mut Words<'_>, shadows: bool)
    requires known { KnowsKeys (λ k. Some (string_bytes k)) map.old }
    ensures known { KnowsKeys (λ k. Some (string_bytes k)) map.new }
{
    let name = words.take();
    let number = words.take_number();
    match map.insert(told.alloc(), name, &mut NameMapNoIntern, shadows, number) {
        Ok(key) => told.push(key.as_str()),
        Err(fault) => told.show(&fault),
    }
}

/// Tells a number that was found.
fn tell_found(told: &mut Told, found: Result<Option<&u64>, AllocError>) {
    match found {
        Ok(Some(number)) => told.show(number),
        Ok(None) => told.push("nothing"),
        Err(_) => told.push("out of memory"),
    }
}

/// Tells the number of a name.
fn tell_number(map: &Numbers, told: &mut Told, name: &str)
    requires known { KnowsKeys (λ k. Some (string_bytes k)) map.now }
{
    let found = map.get(told.alloc(), name, &NameMapNoIntern);
    tell_found(told, found);
}

/// Tells the number of the greatest version on a track.
fn tell_latest(map: &Numbers, told: &mut Told, key: &str) {
    let found = map.get_track(told.alloc(), key, &NameMapNoIntern);
    tell_found(told, found);
}

/// Tells the names and their numbers, in order.
fn tell_entries(map: &Numbers, told: &mut Told) {
    told.push("entries");
    for (name, number) in map.raw_iter() {
        told.push(" ");
        told.push(name.as_str());
        told.push(" ");
        told.show(number);
    }
}

/// Tells what a line does.
fn tell_step(map: &mut Numbers, told: &mut Told, line: &str)
    requires known { KnowsKeys (λ k. Some (string_bytes k)) map.old }
    ensures known { KnowsKeys (λ k. Some (string_bytes k)) map.new }
{
    let mut words = Words::new(told.alloc(), line);
    told.push(line);
    told.push(": ");
    match words.take() {
        "insert" => insert(map, told, &mut words, false),
        "shadow" => insert(map, told, &mut words, true),
        "get" => tell_number(map, told, words.take()),
        "get_track" => tell_latest(map, told, words.take()),
        "entries" => tell_entries(map, told),
        _ => told.push("no such line of maps"),
    }
    told.push(words.fault());
    told.push("\n");
}

/// Tells what the lines of a text do, each on a line.
fn tell_lines(map: &mut Numbers, told: &mut Told, text: &str)
    requires known { KnowsKeys (λ k. Some (string_bytes k)) map.old }
    ensures known { KnowsKeys (λ k. Some (string_bytes k)) map.new }
{
    for line in text.split('\n') {
        tell_step(map, told, line);
    }
}

/// Writes another number under the key of a name, and tells the entries.
fn write_number(map: &mut Numbers, told: &mut Told, line: &str) {
    let mut words = Words::new(told.alloc(), line);
    let key = words.take_text();
    let number = words.take_number();
    if let Some(place) = map.raw_get_mut(&key) {
        *place = number;
    }
    told.push(words.fault());
    tell_entries(map, told);
}

/// Tells what the lines of a text do, each on a line, and the entries after the line `write`.
pub(crate) fn tell_map(told: &mut Told, text: &str, write: Option<&str>) {
    let mut map: Numbers = NameMap::default(told.alloc());
    tell_lines(&mut map, told, text);
    if let Some(line) = write {
        write_number(&mut map, told, line);
    }
}
