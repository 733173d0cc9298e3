//! The distinct numbers of the stores, with the place of each.

ghost use Rattle.std.specs.Prelude.{All, ◌≡◌, ◌<◌, [], slice_get, IfOk, OnOk};
ghost use Rattle.std.specs.HashMap.{get};
ghost use Rattle.dxil_driver.specs.Emitted.{IsWord, with_word, words_from, Picks};
ghost use Rattle.dxil_driver.specs.Places.{Knows};

use crate::stores::LiteralStore;
use base_core::{NoMemory, Sequence, Words};
use std::alloc::Global;
use std::collections::HashMap;

/// The distinct numbers in order of first use, and the place of each.
#[derive(Drop)]
struct WordPool {
    words: Words,
    places: HashMap<u32, u32>,
}

impl WordPool {
    /// The place of a number, which is added where it isn't among the words yet.
    fn place_of(&mut self, word: u32) -> Result<u32, NoMemory>
        requires { Knows self.old.places self.old.words }
        ensures knows { OnOk result (Knows self.new.places self.new.words) }
        ensures words { OnOk result (self.new.words ≡ with_word self.old.words word) }
        ensures place { IfOk result (λ place. slice_get self.new.words place ≡ Some word) }
        ensures fit { OnOk result (All IsWord self.old.words → All IsWord self.new.words) }
    {
        if let Some(place) = self.places.get(&word) {
            return Ok(*place);
        }
        let place = self.words.len() as u32;
        self.words.push(word)?;
        self.places.insert(word, place)?;
        Ok(place)
    }
}

/// The places of a store's address and word among the words.
pub type Pairs = Sequence<(u32, u32)>;

/// The distinct numbers of the stores in order of first use, and the places of each store's.
pub fn pool_stores(alloc: Global, stores: &[LiteralStore]) -> Result<(Words, Pairs), NoMemory>
    ensures words { IfOk result (λ pool. pool.0 ≡ words_from [] stores.now) }
    ensures fit { IfOk result (λ pool. All IsWord pool.0) }
    ensures pairs { IfOk result (λ pool. Picks pool.0 pool.1 stores.now) }
{
    let mut pool = WordPool {
        words: Sequence::new(alloc),
        places: HashMap::with_capacity(alloc, 2 * stores.len())?,
    };
    let mut pairs = Sequence::new(alloc);
    for store in stores {
        let address = pool.place_of(store.address)?;
        let word = pool.place_of(store.word)?;
        pairs.push((address, word))?;
    }
    Ok((pool.words, pairs))
}
