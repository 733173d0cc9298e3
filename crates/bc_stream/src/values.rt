//! The values of a record.

ghost use Rattle.std.specs.Prelude.{◌≡◌, ◌≤◌, length, take, IfOk};
ghost use Rattle.base_core.specs.Limits.{most_parts};

use base_core::{NoMemory, Sequence};
use std::alloc::Global;
use std::marker::Model;

/// The greatest number of values that take no memory of their own.
pub(crate) const MOST_IN_PLACE: usize = 4;

/// How values are held.
#[derive(Debug, Drop)]
enum Held {
    /// The first `count` of these.
    Few {
        count: u32,
        places: [u64; MOST_IN_PLACE],
    },
    Many(Sequence<u64>),
}

/// The values of a record, in order, which contracts see as their list.
///
/// Up to four values take no memory of their own.
#[derive(Debug, Drop)]
pub struct Values {
    held: Held,
}

impl Model for Values {
    ghost use Rattle.std.specs.Prelude.{List, ℕ};
    ghost use Rattle.std.specs.Coded.{coded_list, coded_ℕ};

    ghost Value = { List ℕ };

    ghost coded = { coded_list coded_ℕ };

    ghost use Rattle.bc_stream.specs.HeldValues.{IsHeld, values_held};

    ghost view = { λ v. values_held v.held };

    ghost invariant = { λ v. IsHeld v.held };
}

impl Values {
    /// The first `count` of some places.
    pub(crate) fn in_place(count: u32, places: [u64; MOST_IN_PLACE]) -> Values
        requires { count ≤ 4 }
        ensures { result ≡ take count places }
    {
        Values {
            held: Held::Few { count, places },
        }
    }

    /// The values of a vector, in order.
    ///
    /// # Errors
    /// `NoMemory` for more than 2147483647 values.
    pub fn from_vec(values: Vec<u64>) -> Result<Values, NoMemory>
        ensures { IfOk result (λ list. list ≡ values.items) }
    {
        let list = Sequence::from_vec(values)?;
        Ok(Values {
            held: Held::Many(list),
        })
    }

    /// A copy of the values of a slice.
    ///
    /// # Errors
    /// `NoMemory` where memory is refused, or for more than 2147483647 values.
    pub fn from_slice(alloc: Global, values: &[u64]) -> Result<Values, NoMemory>
        ensures { IfOk result (λ list. list ≡ values.now) }
    {
        if values.len() > MOST_IN_PLACE {
            let list = Sequence::from_slice(alloc, values)?;
            return Ok(Values {
                held: Held::Many(list),
            });
        }
        let mut places = [0; MOST_IN_PLACE];
        places[..values.len()].copy_from_slice(values);
        Ok(Values::in_place(values.len() as u32, places))
    }

    /// The number of values.
    pub fn len(&self) -> usize
        ensures value { result ≡ length self.now }
        ensures limit { result ≤ most_parts }
    {
        self.as_slice().len()
    }

    /// The values in order.
    pub fn as_slice(&self) -> &[u64]
        ensures value { result.now ≡ self.now }
        ensures limit { length self.now ≤ most_parts }
    {
        match &self.held {
            Held::Few { count, places } => &places[..*count as usize],
            Held::Many(list) => list.as_slice(),
        }
    }
}
