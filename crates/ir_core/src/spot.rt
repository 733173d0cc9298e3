//! Where in a module a rule is broken.

ghost use Rattle.std.specs.Prelude.{◌≡◌};
ghost use Rattle.ir_core.specs.Spots.{type_spot, function_spot, named_spot};

use std::fmt;

/// A place in a module: the part (0 module, 1 type, 2 global, 3 function, 4 metadata, 5 named
/// metadata, 6 instruction), and its number; an instruction has its block first and its place in
/// the block second. Spots are ordered by their fields.
#[derive(Clone, Copy, Debug, PartialEq, Eq, PartialOrd, Ord)]
pub struct Spot {
    pub part: u8,
    pub first: u32,
    pub second: u32,
}

/// The part that stands for the module as a whole.
const MODULE_PART: u8 = 0;

/// The part that stands for an entry of the type table.
const TYPE_PART: u8 = 1;

/// The part that stands for a variable of the module.
const GLOBAL_PART: u8 = 2;

/// The part that stands for a function.
const FUNCTION_PART: u8 = 3;

/// The part that stands for metadata.
const META_PART: u8 = 4;

/// The part that stands for named metadata.
const NAMED_PART: u8 = 5;

impl Spot {
    /// The module as a whole.
    pub const MODULE: Spot = Spot {
        part: MODULE_PART,
        first: 0,
        second: 0,
    };

    /// The entry of the type table with that number.
    pub fn of_type(number: u32) -> Spot
        ensures { result ≡ type_spot number }
    {
        Spot {
            part: TYPE_PART,
            first: number,
            second: 0,
        }
    }

    /// The function at that place among the functions.
    pub fn of_function(place: u32) -> Spot
        ensures { result ≡ function_spot place }
    {
        Spot {
            part: FUNCTION_PART,
            first: place,
            second: 0,
        }
    }

    /// The named metadata at that place.
    pub fn of_named(place: u32) -> Spot
        ensures { result ≡ named_spot place }
    {
        Spot {
            part: NAMED_PART,
            first: place,
            second: 0,
        }
    }
}

impl fmt::Display for Spot {
    ghost use Rattle.std.specs.Prelude.{Some};
    ghost use Rattle.ir_core.specs.Spots.{spot_text};

    ghost output = { λ s. Some (spot_text s) };

    fn fmt<W: fmt::Write>(&self, f: &mut fmt::Formatter<W>) -> fmt::Result {
        match self.part {
            MODULE_PART => write!(f, "module"),
            TYPE_PART => write!(f, "type {}", self.first),
            GLOBAL_PART => write!(f, "global {}", self.first),
            FUNCTION_PART => write!(f, "function {}", self.first),
            META_PART => write!(f, "meta {}", self.first),
            NAMED_PART => write!(f, "named {}", self.first),
            _ => write!(f, "inst {} {}", self.first, self.second),
        }
    }
}
