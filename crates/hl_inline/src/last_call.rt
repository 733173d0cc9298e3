//! Where the last call of an expression stands.
//!
//! Calls are searched from the last operand of an expression to the first, up to the first call that is met. Behind it
//! there is none, so nothing there is searched again. What stands in front of it is searched by itself when it is its
//! turn.

ghost use Rattle.std.specs.Prelude.{◌≡◌, ◌∷◌, ◌++◌, ℕ, suc, List, [], false, length};
ghost use Rattle.hl_inline.specs.LastCalls.{IsOperand, path_among};

/// The path to the last call of an expression: the numbers of the operands that it stands in, the outermost one last. The
/// path to a call has the number 0, and an expression without calls has no number.
#[derive(Clone, Copy)]
pub(crate) struct LastCall<'a> {
    pub numbers: &'a [usize],
}

/// What is known of an operand: whether statements come behind it, and where its last call stands, if it was searched.
#[derive(Clone, Copy)]
pub(crate) struct Operand<'a> {
    pub further: bool,
    pub last_call: Option<LastCall<'a>>,
}

impl<'a> LastCall<'a> {
    /// The only operand of an expression.
    pub(crate) fn alone(self) -> Operand<'a>
        ensures { (path : List ℕ) → self.entry.numbers.now ≡ path → IsOperand result false path [] }
    {
        Operand {
            further: false,
            last_call: Some(self),
        }
    }

    /// The operand of a number, counted from 1.
    pub(crate) fn operand(self, further: bool, number: usize) -> Operand<'a>
        ensures { (before : List (List ℕ)) → (path : List ℕ) → (behind : List (List ℕ)) → number ≡ suc (length before) → self.entry.numbers.now ≡ path_among (before ++ path ∷ behind) → IsOperand result further path behind }
    {
        let Some((last, inner)) = self.numbers.split_last() else {
            return searched(further, &[]);
        };
        if number < *last {
            return Operand {
                further: true,
                last_call: None,
            };
        }
        if number == *last {
            return searched(further, inner);
        }
        searched(further, &[])
    }
}

/// An operand behind which no call comes among those of its expression, and the path to its last call.
fn searched(further: bool, numbers: &[usize]) -> Operand<'_>
    ensures { IsOperand result further numbers.now [] }
{
    Operand {
        further,
        last_call: Some(LastCall { numbers }),
    }
}
