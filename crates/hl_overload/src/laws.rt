//! What holds of every choice, as clauses of functions that do nothing.

ghost use Rattle.hl_overload.specs.Laws.{AtMostOneChoice, ChoiceOfChooses};

/// A list of sums has at most one answer. So each answer comes exactly where it says what holds.
pub fn at_most_one_choice()
    ensures { AtMostOneChoice }
{}

/// The answer that elaboration computes is the one that the relation says.
pub fn choice_of_chooses()
    ensures { ChoiceOfChooses }
{}
