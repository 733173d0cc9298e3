//! What holds of all words and texts, as the clauses of functions that do nothing else.

ghost use Rattle.trace_driver.specs.Laws.{AtMostOneRequest, AtMostOneTrace, NeverNotBuilt};

/// Words ask for at most one lane.
pub fn at_most_one_request()
    ensures { AtMostOneRequest }
{}

/// A text has at most one list of lines for a request.
pub fn at_most_one_trace()
    ensures { AtMostOneTrace }
{
    hl_lexer::laws::at_most_one_token_list();
    hl_parser::laws::at_most_one_tree();
    hl_rules::laws::at_most_one_program();
}

/// No text is refused as one that isn't built.
pub fn never_not_built()
    ensures { NeverNotBuilt }
{}
