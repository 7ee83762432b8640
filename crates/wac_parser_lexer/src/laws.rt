//! What holds of the definitions, for those who read a source by them.

ghost use Rattle.wac_parser_lexer.specs.Front.{ScanIsLongest, LongestIsScanned};
ghost use Rattle.wac_parser_lexer.specs.Stands.{SourcesAreCut, ItemsStandInOrder, FaultIsOneCharacter};

/// The scan of a token gives the longest one, and a keyword where an identifier is as long.
pub fn longest_token()
    ensures { ScanIsLongest }
{}

/// The longest token at a place is of one kind and one length alone, which the scan gives.
pub fn only_longest_token()
    ensures { LongestIsScanned }
{}

/// Every source is cut whole into blanks, comments, tokens and faults, and in one way alone.
pub fn pieces_of_sources()
    ensures { SourcesAreCut }
{}

/// The items of a source stand in order, none over another, and each is what stands at its span.
pub fn items_in_order()
    ensures { ItemsStandInOrder }
{}

/// The fault at a character that begins no token is over that character alone.
pub fn unexpected_is_one_character()
    ensures { FaultIsOneCharacter }
{}
