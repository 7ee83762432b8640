//! What holds of lists and of optional parts where it holds of a part.

ghost use Rattle.wac_parser_grammar.specs.Laws.{FaultsStand, IsBegun, IsExact, ListFaultsStand, ListsAreExact, OptionalFaultsStand, OptionalsAreExact};

use crate::parse::Parse;
use wac_parser_terms::Peek;

/// A list of such parts is read exactly where the items spell it.
pub fn lists_are_exact<'a, T: Parse<'a> + Peek>()
    requires exact { IsExact T.rule }
    requires begun { IsBegun T.first T.rule }
    ensures { ListsAreExact T.first T.rule }
{}

/// Each fault that is met in a list of such parts stands where the list is read, or behind items of it.
pub fn list_faults_stand<'a, T: Parse<'a> + Peek>()
    requires exact { IsExact T.rule }
    requires begun { IsBegun T.first T.rule }
    requires faults { FaultsStand T.rule }
    ensures { ListFaultsStand T.first T.rule }
{}

/// Such a part behind a token, where that comes next, is read exactly where the items spell it.
pub fn optionals_are_exact<'a, T: Parse<'a>>()
    requires { IsExact T.rule }
    ensures { OptionalsAreExact T.rule }
{}

/// Each fault that is met in such a part behind a token stands where that may come next, or behind items from there on.
pub fn optional_faults_stand<'a, T: Parse<'a>>()
    requires { FaultsStand T.rule }
    ensures { OptionalFaultsStand T.rule }
{}
