//! What the words of a run ask for.

ghost use Rattle.std.specs.Prelude.{◌≡◌, ◌∷◌, IfOk, MatchOption, map, string_bytes};
ghost use Rattle.dxil_driver.specs.Commands.{Asks, IsUsage, limit_of};

use crate::options::Options;
use base_core::NoMemory;
use std::alloc::Global;

/// A command of the tool.
#[derive(Debug, Drop)]
pub enum Command {
    /// Compiles a source to a container.
    Compile(Options),
    /// Checks a container.
    Check,
}

/// The greatest number of bytes of a source.
pub const MOST_SOURCE: usize = 1048576;

/// The greatest number of bytes of a container that is read.
pub const MOST_CONTAINER: usize = 67108864;

impl Command {
    /// The command that the words ask for, where they ask for one: `compile` and the words of its options, or
    /// `check` alone.
    ///
    /// # Errors
    /// `NoMemory` where memory is refused.
    pub fn from_words(alloc: Global, words: &[String]) -> Result<Option<Command>, NoMemory>
        ensures { IfOk result (λ found. MatchOption found (IsUsage (map string_bytes words.now)) (Asks (map string_bytes words.now))) }
    {
        match words {
            [] => Ok(None),
            [name, behind @ ..] => Command::from_name(alloc, name.as_str(), behind),
        }
    }

    /// The command with this name and these words behind it.
    fn from_name(alloc: Global, name: &str, words: &[String]) -> Result<Option<Command>, NoMemory>
        ensures { IfOk result (λ found. MatchOption found (IsUsage (name.now ∷ map string_bytes words.now)) (Asks (name.now ∷ map string_bytes words.now))) }
    {
        if name == "compile" {
            return match Options::from_words(alloc, words)? {
                None => Ok(None),
                Some(options) => Ok(Some(Command::Compile(options))),
            };
        }
        if name == "check" && words.is_empty() {
            return Ok(Some(Command::Check));
        }
        Ok(None)
    }

    /// The greatest number of bytes of its input.
    pub fn limit(&self) -> usize
        ensures { result ≡ limit_of self.now }
    {
        match self {
            Command::Compile(_) => MOST_SOURCE,
            Command::Check => MOST_CONTAINER,
        }
    }
}
