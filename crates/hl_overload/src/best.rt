//! The best of some candidates.

ghost use Rattle.std.specs.Prelude.{◌≡◌};

/// The first candidate of the least sum of costs, and the second one, where there is one.
#[derive(Clone, Copy, Debug, PartialEq, Eq)]
pub(crate) struct Best {
    pub sum: u64,
    pub first: usize,
    pub second: Option<usize>,
}

impl Best {
    ghost use Rattle.hl_overload.specs.Best.{joined, next};

    /// The best with one more candidate, which may not fit, behind the others.
    pub fn next(best: Option<Best>, place: usize, sum: Option<u64>) -> Option<Best>
        ensures { result ≡ next best place sum }
    {
        match sum {
            Some(sum) => Some(Best::joined(best, place, sum)),
            None => best,
        }
    }

    /// The best with one more candidate that fits.
    fn joined(best: Option<Best>, place: usize, sum: u64) -> Best
        ensures { result ≡ joined best place sum }
    {
        match best {
            Some(old) if old.sum < sum => old,
            Some(old) if old.sum == sum => Best {
                second: Some(old.second.unwrap_or(place)),
                ..old
            },
            _ => Best {
                sum,
                first: place,
                second: None,
            },
        }
    }
}
