//! Names that a shorter one means.
#![tactic(auto)]

ghost use Rattle.std.specs.Prelude.{◌≡◌, ◌==◌, ◌<◌, IfSome, length};
ghost use Rattle.std.specs.List.{before_first};
ghost use Rattle.std.specs.Option.{option_copied};
ghost use Rattle.wac_types_base.specs.Entries.{names_of, texts_of};
ghost use Rattle.wac_parser_resolve.specs.Matching as stated;
ghost use Rattle.wac_parser_resolve.specs.Matching.{has_segment, IsNextOf};

use wac_types_base::{ItemKind, NamedMap};

/// What stands before the version of a name.
fn before_version(name: &str) -> &str
    ensures { result.now ≡ before_first (λ c. c == 64) name.now }
{
    match name.split_once('@') {
        Some((front, _version)) => front,
        None => name,
    }
}

/// The last path segment of a name, without its version; none where the name has no path.
fn last_segment(name: &str) -> Option<&str>
    ensures { option_copied result ≡ stated.last_segment name.now }
{
    match name.rsplit_once('/') {
        Some((_front, last)) => Some(before_version(last)),
        None => None,
    }
}

/// Whether a text is the last path segment of a name.
fn is_segment(name: &str, text: &str) -> bool
    ensures { result ≡ has_segment text.now name.now }
{
    match last_segment(name) {
        Some(last) => text == last,
        None => false,
    }
}

/// The first place, no lower than that, of a name whose last segment is this.
fn next_with_segment(names: &[String], text: &str, low: usize) -> Option<usize>
    ensures place { IfSome result (λ at. at < length names.now) }
    ensures next { IsNextOf (has_segment text.now) (texts_of names.now) low result }
{
    for at in low..names.len() {
        if is_segment(names[at].as_str(), text) {
            return Some(at);
        }
    }
    None
}

/// The name that a text means among these: itself where it stands there, else the only one whose last path segment
/// without version it is, else itself.
pub(crate) fn matched<'a>(items: &'a NamedMap<ItemKind>, text: &'a str) -> &'a str
    ensures { result.now ≡ stated.matched text.now (names_of items.now) }
{
    if items.contains(text) {
        return text;
    }
    let names = items.names();
    match next_with_segment(names, text, 0) {
        None => text,
        Some(at) => match next_with_segment(names, text, at + 1) {
            Some(_) => text,
            None => names[at].as_str(),
        },
    }
}
