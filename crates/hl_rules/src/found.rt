//! The first of the broken rules that were found.

ghost use Rattle.std.specs.Prelude.{◌≡◌};
ghost use Rattle.hl_rules.specs.Found.{breaking, broken_if, first_of, gathered};

/// A rule, by its number from 1 to 42, that is broken at the token of an index.
#[derive(Clone, Copy, Debug, PartialEq, Eq)]
pub struct Broken {
    pub at: usize,
    pub rule: u8,
}

impl Broken {
    ghost use Rattle.hl_rules.specs.Found.{is_before};

    /// Whether it stands at a lesser token, or at the same one with a lesser rule.
    fn is_before(self, other: Broken) -> bool
        ensures { result ≡ is_before self other }
    {
        self.at < other.at || (self.at == other.at && self.rule < other.rule)
    }
}

/// The first of what was found and one more.
fn first_of(found: Option<Broken>, other: Broken) -> Broken
    ensures { result ≡ first_of found other }
{
    match found {
        None => other,
        Some(first) => { if other.is_before(first) { other } else { first } }
    }
}

/// Notes that a rule is broken at a token, if it is, where no earlier one was found.
pub fn note_if(found: &mut Option<Broken>, broken: bool, at: usize, rule: u8)
    ensures { found.new ≡ gathered found.old (breaking rule (broken_if broken at)) }
{
    if broken {
        *found = Some(first_of(*found, Broken { at, rule }));
    }
}
