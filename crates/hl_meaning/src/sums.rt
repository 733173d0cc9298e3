//! Sums over a tree, each of which stops at 4294967296.

ghost use Rattle.std.specs.Prelude.{◌≡◌};
ghost use Rattle.hl_meaning.specs.Stopping.{stopped};

/// Where sums stop.
const MOST: u64 = 4294967296;

/// A sum that stops.
pub(crate) fn stop(sum: u64) -> u64
    ensures { result ≡ stopped sum }
{
    sum.min(MOST)
}

/// What a part of a program holds.
#[derive(Clone, Copy, Debug, PartialEq, Eq)]
pub(crate) struct Sums {
    /// The components of values, the steps of places, the words of variables, and the statements.
    pub size: u64,
    /// The `if`s, loops and jumps.
    pub branches: u64,
    /// The longest chain of statements and expressions.
    pub depth: u64,
    /// The words of variables, parameters, results and constants.
    pub private_words: u64,
}

impl Sums {
    ghost use Rattle.hl_meaning.specs.Sums.{both, branch, memory, node, nothing, step, stop_all};

    /// Nothing at all.
    pub const NOTHING: Sums = Sums {
        size: 0,
        branches: 0,
        depth: 0,
        private_words: 0,
    };

    /// Both beside one another.
    pub fn both(self, other: Sums) -> Sums
        ensures { result ≡ stop_all (both self other) }
    {
        Sums {
            size: stop(self.size.saturating_add(other.size)),
            branches: stop(self.branches.saturating_add(other.branches)),
            depth: stop(self.depth.max(other.depth)),
            private_words: stop(self.private_words.saturating_add(other.private_words)),
        }
    }

    /// These inside a node that counts `size`.
    pub fn node(self, size: u64) -> Sums
        ensures { result ≡ stop_all (node size self) }
    {
        Sums {
            size: stop(size.saturating_add(self.size)),
            branches: stop(self.branches),
            depth: stop(self.depth.saturating_add(1)),
            private_words: stop(self.private_words),
        }
    }

    /// These beside one step of a place.
    pub fn step(self) -> Sums
        ensures { result ≡ stop_all (step 1 self) }
    {
        Sums {
            size: stop(self.size.saturating_add(1)),
            branches: stop(self.branches),
            depth: stop(self.depth),
            private_words: stop(self.private_words),
        }
    }

    /// These inside an `if`, a loop or a jump.
    pub fn branch(self) -> Sums
        ensures { result ≡ stop_all (branch self) }
    {
        let inner = Sums {
            branches: stop(self.branches.saturating_add(1)),
            ..self
        };
        inner.node(1)
    }

    /// Words of memory.
    pub fn memory(size: u64, private_words: u64) -> Sums
        ensures { result ≡ stop_all (memory size private_words) }
    {
        Sums {
            size: stop(size),
            branches: 0,
            depth: 0,
            private_words: stop(private_words),
        }
    }
}
