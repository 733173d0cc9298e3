//! What holds of the trees of every list of tokens, as clauses of functions that do nothing.

ghost use Rattle.hl_parser.specs.Laws.{AtMostOneTree};

/// Tokens spell at most one tree.
pub fn at_most_one_tree()
    ensures { AtMostOneTree }
{}
