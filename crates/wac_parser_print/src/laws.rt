//! Laws over the definitions alone: each is the contract of a function without a body.

ghost use Rattle.std.specs.Prelude.{◌≡◌};
ghost use Rattle.wac_parser_print.specs.Values as values;
ghost use Rattle.wac_parser_print.specs.Examples.{PrintsAs, package_alone, with_target, with_function, with_result, package_value};

/// Printed texts of documents from outside, four blanks a level, and the value of one.
pub fn examples()
    ensures target { PrintsAs "package a:b targets c:d/e;" with_target "package a:b targets c:d/e;\n\n" }
    ensures no_arrow { PrintsAs "package a:b; type t = func() -> ;" with_function "package a:b;\n\ntype t = func();\n" }
    ensures result_alone { PrintsAs "package a:b; type t = result<_, _>;" with_result "package a:b;\n\ntype t = result;\n" }
    ensures value { values.document package_alone ≡ package_value }
{}
