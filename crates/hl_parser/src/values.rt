//! What is read so far.

ghost use Rattle.std.specs.Prelude.{◌≡◌, ℕ, [], ◌∷◌, OnOk};
ghost use Rattle.hl_parser.specs.Held.{Finishes, Holds, HoldsOneTree, Performed};
ghost use Rattle.hl_parser.specs.Machine.{kept, tree_value};
ghost use Rattle.hl_parser.specs.Parts.{value_of};
ghost use Rattle.hl_parser.specs.Trees as plain;
ghost use Rattle.hl_parser.specs.Views.{plain_of};

use crate::act::Act;
use crate::make::make;
use crate::parts::{Part, Value};
use crate::tree::Tree;
use base_core::NoMemory;
use sqlite_items::Items;
use std::alloc::Global;

/// What is read so far, unless it is too deep.
#[derive(Drop)]
pub(crate) struct Values {
    /// Where memory comes from.
    pub(crate) alloc: Global,
    /// The values, the last one at the end. None are kept once one was too deep.
    pub(crate) kept: Option<Items<Value>>,
}

impl Values {
    /// Does an act, where the token with an index is looked at.
    ///
    /// # Errors
    /// `NoMemory` where memory is refused.
    pub(crate) fn perform(&mut self, act: Act, at: usize) -> Result<(), NoMemory>
        ensures { OnOk result (Performed (act ∷ []) at self.old self.new) }
    {
        let Some(values) = &mut self.kept else {
            return Ok(());
        };
        if !make(self.alloc, values, act, at)? {
            self.kept = None;
        }
        Ok(())
    }

    /// Does acts, where the token with an index is looked at.
    ///
    /// # Errors
    /// `NoMemory` where memory is refused.
    pub(crate) fn perform_all(&mut self, acts: &[Act], at: usize) -> Result<(), NoMemory>
        ensures { OnOk result (Performed acts.now at self.old self.new) }
    {
        for act in acts {
            self.perform(*act, at)?;
        }
        Ok(())
    }

    /// The tree that alone is read, unless it is too deep.
    pub(crate) fn finish(self) -> Option<Tree>
        requires { HoldsOneTree self }
        ensures { (tree : plain.Tree) → Holds self (kept (tree_value tree ∷ [])) → Finishes result tree }
    {
        let mut values = self.kept?;
        match values.pop() {
            Some(value) => Some(tree_of(value)),
            None => unreachable!(),
        }
    }
}

/// The tree that a value is.
fn tree_of(value: Value) -> Tree
    requires { (tree : plain.Tree) × (value_of value.part ≡ tree_value tree) }
    ensures { tree_value (plain_of result) ≡ value_of value.part }
{
    let Value {
        part,
        depth: _depth,
    } = value;
    match part {
        Part::Tree(tree) => tree.into_inner(),
        _ => unreachable!(),
    }
}
