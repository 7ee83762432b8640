//! Doc comments.

ghost use Rattle.std.specs.Prelude.{◌≡◌};
ghost use Rattle.std.specs.Option.{option_map};
ghost use Rattle.wac_parser_lexer.specs.Items as spec;

/// The text of a doc comment, if a comment is one.
pub(crate) fn doc_text(comment: &str) -> Option<&str>
    ensures { option_map (λ text. text.now) result ≡ spec.doc_text comment.now }
{
    if let Some(line) = comment.strip_prefix("///") {
        return Some(line.trim());
    }
    let inner = comment.strip_prefix("/**")?;
    let inner = inner.strip_suffix("*/")?;
    Some(inner.trim())
}
