//! Short lists, taken apart.

ghost use Rattle.std.specs.Prelude.{◌≡◌, option_map};
ghost use Rattle.hl_values.specs.Few.{first_and_rest, one_of, two_of};

/// The part of a list of one.
pub(crate) fn one<T: Drop>(mut parts: Vec<T>) -> Option<T>
    ensures { result ≡ one_of parts.items }
{
    if parts.len() == 1 { parts.pop() } else { None }
}

/// The parts of a list of two.
pub(crate) fn two<T: Drop>(mut parts: Vec<T>) -> Option<(T, T)>
    ensures { result ≡ two_of parts.items }
{
    if parts.len() != 2 {
        return None;
    }
    let second = parts.pop()?;
    let first = parts.pop()?;
    Some((first, second))
}

/// The first part of a list and the others, where there is one.
pub(crate) fn first_and_rest<T: Drop>(mut parts: Vec<T>) -> Option<(T, Vec<T>)>
    ensures { option_map (λ p. (p.0, p.1.items)) result ≡ first_and_rest parts.items }
{
    if parts.is_empty() {
        return None;
    }
    let first = parts.remove(0);
    Some((first, parts))
}
