//! What holds of the rules and of elaboration for every tree, as clauses of functions that do nothing.

ghost use Rattle.hl_rules.specs.Laws.{AtMostOneFirst, AtMostOneProgram, FreeIsWellFormed, NoProgram, OneFirst};

/// A tree is elaborated to at most one program.
pub fn at_most_one_program()
    ensures { AtMostOneProgram }
{}

/// A tree has at most one first broken rule.
pub fn at_most_one_first()
    ensures { AtMostOneFirst }
{}

/// A tree that breaks a rule is elaborated to no program.
pub fn no_program()
    ensures { NoProgram }
{}

/// Every tree breaks no rule, or has a first broken rule.
pub fn one_first()
    ensures { OneFirst }
{}

/// A tree that the tokens of a text spell, and that breaks no rule, becomes a program, and it is well formed.
pub fn free_is_well_formed()
    ensures { FreeIsWellFormed }
{}
