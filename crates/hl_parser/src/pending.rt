//! What is still to be read.

ghost use Rattle.std.specs.Prelude.{◌≡◌, [], ◌∷◌, ◌++◌, MatchOption, OnOk};

use crate::symbol::Symbol;
use base_core::NoMemory;
use sqlite_items::Items;
use std::alloc::Global;
use std::marker::Model;

/// The symbols that are still to be read, which contracts see as their list, the next one first.
#[derive(Drop)]
pub(crate) struct Pending {
    /// The symbols, the next one at the end.
    symbols: Items<Symbol>,
}

impl Model for Pending {
    ghost use Rattle.std.specs.Prelude.{List, reverse};
    ghost use Rattle.hl_parser.specs.declared.symbol.Symbol.{Symbol};

    ghost Value = { List Symbol };

    ghost view = { λ a. reverse a.symbols };
}

impl Pending {
    /// No symbols.
    pub(crate) fn new(alloc: Global) -> Pending
        ensures { result ≡ [] }
    {
        Pending {
            symbols: Items::new(alloc),
        }
    }

    /// Puts symbols in front of the others.
    ///
    /// # Errors
    /// `NoMemory` where memory is refused.
    pub(crate) fn push(&mut self, symbols: &[Symbol]) -> Result<(), NoMemory>
        ensures { OnOk result (self.new ≡ symbols.now ++ self.old) }
    {
        let mut left = symbols.len();
        while left > 0 {
            left -= 1;
            self.symbols.push(symbols[left])?;
        }
        Ok(())
    }

    /// Takes the next symbol.
    pub(crate) fn pop(&mut self) -> Option<Symbol>
        ensures { MatchOption result ((self.old ≡ []) × (self.new ≡ [])) (λ symbol. self.old ≡ symbol ∷ self.new) }
    {
        self.symbols.pop()
    }
}
