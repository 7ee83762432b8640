//! Names of imports and exports.

/// `a-b`, `[method]a.b` and its kin, or `a:b/c@1.0.0`.
pub fn is_export_name(text: &str) -> bool {
    is_plain(text) || is_interface(text)
}

/// An export's name, or a dependency, a url or a hash.
pub fn is_import_name(text: &str) -> bool {
    is_export_name(text)
        || is_inside(text, "unlocked-dep=<")
        || is_inside(text, "locked-dep=<")
        || is_inside(text, "url=<")
        || is_inside(text, "integrity=<")
}

/// Words joined by `-`.
fn is_label(text: &str) -> bool {
    text.split('-').all(is_word)
}

/// A letter, then letters of the same case and digits.
fn is_word(text: &str) -> bool {
    let is_small = |c: char| c.is_ascii_lowercase() || c.is_ascii_digit();
    let is_capital = |c: char| c.is_ascii_uppercase() || c.is_ascii_digit();
    text.starts_with(|c: char| c.is_ascii_alphabetic())
        && (text.chars().all(is_small) || text.chars().all(is_capital))
}

fn is_plain(text: &str) -> bool {
    if let Some(rest) = text.strip_prefix("[constructor]") {
        return is_label(rest);
    }
    for word in ["[method]", "[static]"] {
        if let Some(rest) = text.strip_prefix(word) {
            return match rest.split_once('.') {
                Some((resource, name)) => is_label(resource) && is_label(name),
                None => false,
            };
        }
    }
    is_label(text)
}

/// Labels joined by `:`, then labels after `/`, then a version where `@` stands.
fn is_interface(text: &str) -> bool {
    let (path, is_versioned) = match text.split_once('@') {
        Some((path, version)) => (path, is_version(version)),
        None => (text, true),
    };
    let Some((package, names)) = path.split_once('/') else {
        return false;
    };
    is_versioned
        && package.contains(':')
        && package.split(':').all(is_label)
        && names.split('/').all(is_label)
}

/// Three numbers, then what a semantic version may have after them.
fn is_version(text: &str) -> bool {
    let numbers = match text.split_once(|c: char| c == '-' || c == '+') {
        Some((numbers, _)) => numbers,
        None => text,
    };
    numbers.split('.').count() == 3 && numbers.split('.').all(is_number)
}

fn is_number(text: &str) -> bool {
    !text.is_empty() && text.chars().all(|c| c.is_ascii_digit())
}

/// Something between these words and `>`, without a `<`.
fn is_inside(text: &str, front: &str) -> bool {
    match text.strip_prefix(front).and_then(|t| t.strip_suffix(">")) {
        Some(inside) => !inside.is_empty() && !inside.contains('<'),
        None => false,
    }
}
