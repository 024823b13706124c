ghost use Rattle.std.specs.Prelude.{◌≡◌, ◌<◌, ◌≤◌, ◌+◌, ◌-◌};
ghost use Rattle.st_model.specs.Values.{word};
ghost use Rattle.st_model.specs.Lookup.{checked_method, method_at, search_from, search_dictionary};
ghost use Rattle.st_model.specs.inside.Calls.{Reads};
ghost use Rattle.st_lookup.specs.inside.Places.{LooksAt, LooksFrom, found_word};

use crate::reading::Reading;
use st_model::{Dead, PageObject, Word};

/// What the search comes to at some places of a dictionary.
#[derive(Clone, Copy)]
pub enum Search {
    /// It ends there, with this method or without one.
    Ends(Option<Word>),
    /// It goes on to other places.
    GoesOn,
}

/// What was found, if it is a method.
#[tactic(auto, using(st_model::proofs::Runs::runs), unfolding(st_model::specs::Lookup::checked_method))]
fn checked_method<O: Reading>(m: &O, method: Word) -> Result<Option<Word>, Dead>
    ensures { Reads (checked_method O.names (word method)) found_word (O.table m.now) result }
{
    m.header(method)?;
    Ok(Some(method))
}

/// The method that stands for the selector at place k of a dictionary.
#[tactic(auto, using(st_model::proofs::Runs::runs), unfolding(st_model::specs::Lookup::method_at))]
fn method_at<O: Reading>(m: &O, dictionary: Word, k: u32) -> Result<Option<Word>, Dead>
    ensures { Reads (method_at O.names (word dictionary) k) found_word (O.table m.now) result }
{
    let methods = m.field(dictionary, 1)?;
    let method = m.field(methods, k)?;
    checked_method(m, method)
}

/// Looks at place k of a dictionary.
#[tactic(auto, using(st_model::proofs::Runs::runs))]
fn look_at_place<O: Reading>(
    m: &O,
    dictionary: Word,
    selector: Word,
    k: u32,
) -> Result<Search, Dead>
    requires small { k < 262144 }
    ensures { LooksAt O.names (word dictionary) (word selector) k (O.table m.now) result }
{
    let place = m.field(dictionary, 2 + k)?;
    if place.same(selector) {
        return Ok(Search::Ends(method_at(m, dictionary, k)?));
    }
    if place.same(PageObject::NilObject.word()) {
        return Ok(Search::Ends(None));
    }
    Ok(Search::GoesOn)
}

/// Looks at the places of a dictionary from one on up to before another.
fn look_at_places<O: Reading>(
    m: &O,
    dictionary: Word,
    selector: Word,
    from: u32,
    to: u32,
) -> Result<Search, Dead>
    requires order { from ≤ to }
    requires small { to < 262144 }
    ensures { LooksFrom O.names (word dictionary) (word selector) from (to - from) (O.table m.now) result }
{
    let mut k = from;
    while k < to {
        match look_at_place(m, dictionary, selector, k)? {
            Search::Ends(method) => return Ok(Search::Ends(method)),
            Search::GoesOn => k += 1,
        }
    }
    Ok(Search::GoesOn)
}

/// Searches a dictionary from this place on, and from place 0 up to there.
fn search_from<O: Reading>(
    m: &O,
    dictionary: Word,
    selector: Word,
    places: u32,
    start: u32,
) -> Result<Option<Word>, Dead>
    requires order { start < places }
    requires small { places < 262144 }
    ensures { Reads (search_from O.names (word dictionary) (word selector) places start)
        found_word (O.table m.now) result }
{
    match look_at_places(m, dictionary, selector, start, places)? {
        Search::Ends(method) => return Ok(method),
        Search::GoesOn => {}
    }
    match look_at_places(m, dictionary, selector, 0, start)? {
        Search::Ends(method) => Ok(method),
        Search::GoesOn => Ok(None),
    }
}

/// The method for the selector in a dictionary with so many places.
#[tactic(auto, using(st_model::proofs::Runs::runs), unfolding(st_model::specs::Lookup::search_dictionary))]
pub fn search_dictionary<O: Reading>(
    m: &O,
    dictionary: Word,
    selector: Word,
    places: u32,
) -> Result<Option<Word>, Dead>
    requires some { 1 ≤ places }
    requires small { places < 262144 }
    ensures { Reads (search_dictionary O.names (word dictionary) (word selector) places)
        found_word (O.table m.now) result }
{
    let half = m.half(selector);
    search_from(m, dictionary, selector, places, half & (places - 1))
}
