//! What holds of every text, as the clause of a function that does nothing else.

ghost use Rattle.dxil_driver.specs.FirstForm.{AtMostOneFirstForm};

/// A text has at most one first form for an entry of a name.
pub fn at_most_one_first_form()
    ensures { AtMostOneFirstForm }
{
    hl_lexer::laws::at_most_one_token_list();
    hl_parser::laws::at_most_one_tree();
    hl_rules::laws::at_most_one_program();
}
