//! The layers.

ghost use Rattle.std.specs.Prelude.{◌≡◌, [], ◌∷◌, MatchOption, map, string_bytes};
ghost use Rattle.bench_layers.specs.Layers.{IsNoLayer, words_of};

/// A layer that is run alone, over the layers that it stands on.
#[derive(Clone, Copy, Debug, PartialEq, Eq)]
pub(crate) enum Layer {
    /// The tokens of a text.
    Lex,
    /// The tree of its tokens.
    Parse,
    /// The typed program of the tree, with the entry `main`.
    Elaborate,
    /// What the program holds.
    Sizes,
    /// The program without calls.
    Inline,
}

impl Layer {
    /// The layer that the words name, where they name one.
    pub(crate) fn from_words(words: &[String]) -> Option<Layer>
        ensures { MatchOption result (IsNoLayer (map string_bytes words.now)) (λ layer. map string_bytes words.now ≡ words_of layer) }
    {
        match words {
            [word] => Layer::from_word(word.as_str()),
            _ => None,
        }
    }

    /// The layer with this name.
    fn from_word(word: &str) -> Option<Layer>
        ensures { MatchOption result (IsNoLayer (word.now ∷ [])) (λ layer. word.now ∷ [] ≡ words_of layer) }
    {
        if word == "lex" {
            return Some(Layer::Lex);
        }
        if word == "parse" {
            return Some(Layer::Parse);
        }
        if word == "elaborate" {
            return Some(Layer::Elaborate);
        }
        if word == "sizes" {
            return Some(Layer::Sizes);
        }
        if word == "inline" {
            return Some(Layer::Inline);
        }
        None
    }
}
