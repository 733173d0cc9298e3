//! Laws on the values of well-formed programs: functions that do nothing, and whose contracts say what always holds.

ghost use Rattle.typed_laws.specs.Laws.{ArgumentsFit, CallsFit, ExpressionsHold, InputsFit, StatementsFit, StatementsHold, ValuesFit, VariablesBegin};

/// The value of a well-formed expression has exactly the words of its type, each of its kind.
pub fn values_fit()
    ensures { ValuesFit }
{}

/// Parameters start with words of their types in each call that a well-formed program makes.
pub fn arguments_fit()
    ensures { ArgumentsFit }
{}

/// A statement of a function is left as its form says: with a value of the function's result by `return` alone.
pub fn statements_fit()
    ensures { StatementsFit }
{}

/// A function that is called gives the words of its result's type.
pub fn calls_fit()
    ensures { CallsFit }
{}

/// What a lane hands to the entry has the words of the parameters' types.
pub fn inputs_fit()
    ensures { InputsFit }
{}

/// Where a function begins, each of its variables has as many words as its type.
pub fn variables_begin()
    ensures { VariablesBegin }
{}

/// An expression keeps the number of words of each variable.
pub fn expressions_hold()
    ensures { ExpressionsHold }
{}

/// A statement keeps the number of words of each variable of its function.
pub fn statements_hold()
    ensures { StatementsHold }
{}
