//! Laws over the definitions alone: each is the contract of a function without a body.

ghost use Rattle.std.specs.Prelude.{◌≡◌};
ghost use Rattle.wac_parser_print.specs.Examples.{with_target, with_result};
ghost use Rattle.wac_parser_json.specs.Texts.{json_text};
ghost use Rattle.wac_parser_json.specs.Examples.{target_json, result_json, with_comment, comment_json};

/// The JSON texts of three documents from outside: one with a target, one with a type, one with what is escaped.
pub fn json_examples()
    ensures target { json_text with_target ≡ target_json }
    ensures result_alone { json_text with_result ≡ result_json }
    ensures escaped { json_text with_comment ≡ comment_json }
{}
