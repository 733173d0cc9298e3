//! What a compilation is asked for.

ghost use Rattle.std.specs.Prelude.{◌≡◌, ◌≢◌, [], ◌∷◌, IfOk, MatchBool, MatchOption, map, string_bytes};
ghost use Rattle.std.specs.Option.{option_map};
ghost use Rattle.dxil_driver.specs.Options.{Chooses, ChoosesNone, NamesEntry, NamesTarget, name_of, options};
ghost use Rattle.dxil_driver.specs.declared.options.Target.{Target};

use base_core::{NoMemory, Text};
use hl_lexer::is_name;
use std::alloc::Global;

/// The profile of the module.
#[derive(Clone, Copy, Debug, PartialEq, Eq)]
pub enum Target {
    /// Compute shaders of shader model 6.0: `cs_6_0`.
    Cs60,
}

impl Target {
    /// The target with this name.
    pub fn from_name(name: &str) -> Option<Target>
        ensures { MatchOption result ((target : Target) → name.now ≢ name_of target) (λ target. name.now ≡ name_of target) }
    {
        if name == "cs_6_0" {
            Some(Target::Cs60)
        } else {
            None
        }
    }
}

/// What a compilation is asked for.
#[derive(Debug, Drop)]
pub struct Options {
    /// The name of the entry: the function that runs for each thread.
    pub entry: Text,
    /// The profile of the module.
    pub target: Target,
}

/// The entry where no word names one.
const DEFAULT_ENTRY: &str = "main";

impl Options {
    /// The options that the words behind `compile` choose, where they choose some: `--target` with the name of
    /// a target and `--entry` with a name of the language, each at most once, in either order. Without them the
    /// target is cs_6_0 and the entry is `main`.
    ///
    /// # Errors
    /// `NoMemory` where memory is refused.
    pub fn from_words(alloc: Global, words: &[String]) -> Result<Option<Options>, NoMemory>
        ensures { IfOk result (λ found. MatchOption found (ChoosesNone (map string_bytes words.now)) (Chooses (map string_bytes words.now))) }
    {
        match words {
            [] => {
                let chosen = Options::new(alloc, DEFAULT_ENTRY, Target::Cs60)?;
                Ok(Some(chosen))
            }
            [option, value] => Options::from_one(alloc, option.as_str(), value.as_str()),
            [first, one, second, other] => Options::from_two(
                alloc,
                first.as_str(),
                one.as_str(),
                second.as_str(),
                other.as_str(),
            ),
            _ => Ok(None),
        }
    }

    /// The options that one option with its value chooses.
    fn from_one(alloc: Global, option: &str, value: &str) -> Result<Option<Options>, NoMemory>
        ensures { IfOk result (λ found. MatchOption found (ChoosesNone (option.now ∷ value.now ∷ [])) (Chooses (option.now ∷ value.now ∷ []))) }
    {
        if names_entry(option, value) {
            let chosen = Options::new(alloc, value, Target::Cs60)?;
            return Ok(Some(chosen));
        }
        Options::with_target(alloc, DEFAULT_ENTRY, named_target(option, value))
    }

    /// The options that two options choose, each with the value behind it.
    fn from_two(
        alloc: Global,
        first: &str,
        one: &str,
        second: &str,
        other: &str,
    ) -> Result<Option<Options>, NoMemory>
        ensures { IfOk result (λ found. MatchOption found (ChoosesNone (first.now ∷ one.now ∷ second.now ∷ other.now ∷ []))
            (Chooses (first.now ∷ one.now ∷ second.now ∷ other.now ∷ []))) }
    {
        if names_entry(first, one) {
            return Options::with_target(alloc, one, named_target(second, other));
        }
        if names_entry(second, other) {
            return Options::with_target(alloc, other, named_target(first, one));
        }
        Ok(None)
    }

    /// Options with this entry and this target, where there is one.
    fn with_target(
        alloc: Global,
        entry: &str,
        target: Option<Target>,
    ) -> Result<Option<Options>, NoMemory>
        ensures { IfOk result (λ found. found ≡ option_map (options entry.now) target) }
    {
        match target {
            None => Ok(None),
            Some(target) => {
                let chosen = Options::new(alloc, entry, target)?;
                Ok(Some(chosen))
            }
        }
    }

    /// Options with this entry and this target.
    fn new(alloc: Global, entry: &str, target: Target) -> Result<Options, NoMemory>
        ensures { IfOk result (λ chosen. chosen ≡ options entry.now target) }
    {
        let entry = Text::from_slice(alloc, entry.as_bytes())?;
        Ok(Options { entry, target })
    }
}

/// Whether an option and its value name an entry.
fn names_entry(option: &str, value: &str) -> bool
    ensures { MatchBool result (NamesEntry option.now value.now) (¬ NamesEntry option.now value.now) }
{
    if option == "--entry" {
        is_name(value.as_bytes())
    } else {
        false
    }
}

/// The target that an option and its value name.
fn named_target(option: &str, value: &str) -> Option<Target>
    ensures { MatchOption result ((target : Target) → ¬ NamesTarget option.now value.now target) (NamesTarget option.now value.now) }
{
    if option == "--target" {
        Target::from_name(value)
    } else {
        None
    }
}
