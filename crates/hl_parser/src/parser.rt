//! The machine that reads tokens.

ghost use Rattle.std.specs.Prelude.{◌≡◌, [], ◌++◌, IfOk, OnOk};
ghost use Rattle.hl_parser.specs.Held.{Did, Holds, Performed};
ghost use Rattle.hl_parser.specs.Machine.{kept, reads, start, yields};

use crate::act::Act;
use crate::pending::Pending;
use crate::symbol::Symbol;
use crate::values::Values;
use base_core::NoMemory;
use hl_lexer::Terminal;
use sqlite_items::Items;
use std::alloc::Global;

/// What a symbol does at a token.
#[derive(Clone, Copy)]
pub(crate) enum Outcome {
    /// It reads it.
    Reads,
    /// It is done with, and the token is still to be read.
    Yields,
    /// It can't stand there.
    Refuses,
}

/// A token that is looked at.
#[derive(Clone, Copy)]
pub(crate) struct Look {
    /// Its index.
    pub(crate) at: usize,
    /// What it is.
    pub(crate) terminal: Terminal,
    /// What the next one is.
    pub(crate) next: Terminal,
}

/// What is still to be read, and what is read so far.
#[derive(Drop)]
pub(crate) struct Parser {
    /// What is still to be read.
    pub(crate) pending: Pending,
    /// What is read so far.
    pub(crate) values: Values,
}

impl Parser {
    /// A parser that has read nothing.
    ///
    /// # Errors
    /// `NoMemory` where memory is refused.
    pub(crate) fn new(alloc: Global) -> Result<Parser, NoMemory>
        ensures pending { IfOk result (λ parser. parser.pending ≡ start) }
        ensures values { IfOk result (λ parser. Holds parser.values (kept [])) }
    {
        let mut pending = Pending::new(alloc);
        pending.push(&[
            Symbol::Make(Act::Empty),
            Symbol::Item,
            Symbol::Make(Act::Append),
            Symbol::Items,
            Symbol::Make(Act::Program),
        ])?;
        let values = Values {
            alloc,
            kept: Some(Items::new(alloc)),
        };
        Ok(Parser { pending, values })
    }

    /// Reads a token, with symbols still to be read in the place of one.
    pub(crate) fn reads(
        &mut self,
        look: Look,
        done: &[Act],
        more: &[Symbol],
    ) -> Result<Outcome, NoMemory>
        ensures { IfOk result (λ outcome. Did (reads done.now more.now) look.at self.old self.new outcome) }
    {
        self.values.perform_all(done, look.at)?;
        self.pending.push(more)?;
        Ok(Outcome::Reads)
    }

    /// Is done with a symbol.
    pub(crate) fn yields(&mut self, look: Look, done: &[Act]) -> Result<Outcome, NoMemory>
        ensures { IfOk result (λ outcome. Did (yields done.now) look.at self.old self.new outcome) }
    {
        self.values.perform_all(done, look.at)?;
        Ok(Outcome::Yields)
    }

    /// Does acts, and puts symbols in front of those that are still to be read.
    ///
    /// # Errors
    /// `NoMemory` where memory is refused.
    pub(crate) fn lead(
        &mut self,
        look: Look,
        first: &[Act],
        more: &[Symbol],
    ) -> Result<(), NoMemory>
        ensures pending { OnOk result (self.new.pending ≡ more.now ++ self.old.pending) }
        ensures values { OnOk result (Performed first.now look.at self.old.values self.new.values) }
    {
        self.values.perform_all(first, look.at)?;
        self.pending.push(more)
    }
}
