//! Laws of tokens, each the clause of a function that does nothing.

ghost use Rattle.hl_lexer.specs.Laws.{AtMostOneFault, AtMostOneTokenList, FaultHasNoTokenList, FormsAreListed};

/// A text has at most one list of tokens.
pub fn at_most_one_token_list()
    ensures { AtMostOneTokenList }
{}

/// A text with a fault has no list of tokens, or one that is too long.
pub fn fault_has_no_token_list()
    ensures { FaultHasNoTokenList }
{}

/// A text has at most one first fault.
pub fn at_most_one_fault()
    ensures { AtMostOneFault }
{}

/// Each form of a token has a terminal, other than `Unlisted`.
pub fn forms_are_listed()
    ensures { FormsAreListed }
{}
