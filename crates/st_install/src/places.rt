//! The places of a method dictionary, and where the search for one ends.

ghost use Rattle.std.specs.Prelude.{◌≡◌, ◌≤◌, ◌<◌, ◌-◌, Ok, IfOk};
ghost use Rattle.st_model.specs.{Values.value, Table.table, Lookup.half_word, inside.Calls.{Reads, itself}};
ghost use Rattle.st_install.specs.Dictionaries.{count_places, seek_from, seek};
ghost use Rattle.st_install.specs.inside.Endings.{SeeksAt, SeeksFrom, ending_of, IsSmallPlace};

use st_memory::Memory;
use st_model::{Dead, Oop};
use st_scope::{count_fields, fetch_field};

/// The place at which a search ends, counted from 0.
#[derive(Clone, Copy, Debug, PartialEq, Eq)]
pub enum DictionaryPlace {
    /// It holds what is sought.
    Holds(u32),
    /// It holds nil, and no place before it what is sought.
    Vacant(u32),
}

/// Looks at place k of a dictionary; none where it holds neither what is sought nor nil.
#[tactic(auto, using(crate::proofs::Seeking::looks))]
fn look_at_place<M: Memory>(
    m: &M,
    dictionary: Oop,
    sought: Oop,
    k: u32,
) -> Result<Option<DictionaryPlace>, Dead>
    requires small { k < 262144 }
    ensures ends { SeeksAt (value dictionary) (value sought) k (M.view m.now).objects result }
    ensures small { IfOk result IsSmallPlace }
{
    let held = fetch_field(m, dictionary, 2 + k)?;
    if held.0 == sought.0 {
        return Ok(Some(DictionaryPlace::Holds(k)));
    }
    if held.0 == Oop::NIL.0 {
        return Ok(Some(DictionaryPlace::Vacant(k)));
    }
    Ok(None)
}

/// Looks at the places of a dictionary from one on up to before another; none where each holds something else.
fn look_at_places<M: Memory>(
    m: &M,
    dictionary: Oop,
    sought: Oop,
    from: u32,
    to: u32,
) -> Result<Option<DictionaryPlace>, Dead>
    requires order { from ≤ to }
    requires small { to < 262144 }
    ensures ends { let t = (M.view m.now).objects in
        SeeksFrom (value dictionary) (value sought) from (to - from) t result }
    ensures small { IfOk result IsSmallPlace }
{
    for k in from..to {
        if let Some(place) = look_at_place(m, dictionary, sought, k)? {
            return Ok(Some(place));
        }
    }
    Ok(None)
}

/// Seeks from one place of a dictionary on, and then from place 0 up to there.
fn seek_from<M: Memory>(
    m: &M,
    dictionary: Oop,
    sought: Oop,
    places: u32,
    start: u32,
) -> Result<Option<DictionaryPlace>, Dead>
    requires order { start ≤ places }
    requires small { places < 262144 }
    ensures ends { let t = (M.view m.now).objects in
        Reads (seek_from table (value dictionary) (value sought) places start) ending_of t result }
    ensures small { IfOk result IsSmallPlace }
{
    if let Some(place) = look_at_places(m, dictionary, sought, start, places)? {
        return Ok(Some(place));
    }
    look_at_places(m, dictionary, sought, 0, start)
}

/// How many places a dictionary has.
#[tactic(auto, using(st_model::proofs::Runs::runs), unfolding(crate::specs::Dictionaries::count_places))]
pub fn count_places<M: Memory>(m: &M, dictionary: Oop) -> Result<u32, Dead>
    ensures counts { Reads (count_places table (value dictionary)) itself (M.view m.now).objects result }
    ensures small { IfOk result (λ n. n < 262144) }
{
    let fields = count_fields(m, dictionary)?;
    Ok(fields.saturating_sub(2))
}

/// Half of a pointer's word; 0 where that names no object.
#[tactic(auto, using(crate::proofs::Seeking::halves))]
fn half_word<M: Memory>(m: &M, o: Oop) -> u32
    ensures { Reads (half_word table (value o)) itself (M.view m.now).objects (Ok result) }
{
    if o.is_small() || m.live(o) {
        u32::from(o.0 / 2)
    } else {
        0
    }
}

/// Where the search of a dictionary ends for what is sought, a selector or nil, from the place at which a selector's search
/// begins; none where each place holds something else (chapter 27).
#[tactic(auto, using(st_model::proofs::Runs::runs), unfolding(crate::specs::Dictionaries::seek))]
pub fn seek<M: Memory>(
    m: &M,
    dictionary: Oop,
    sought: Oop,
    selector: Oop,
) -> Result<Option<DictionaryPlace>, Dead>
    ensures ends { let t = (M.view m.now).objects in
        Reads (seek table (value dictionary) (value sought) (value selector)) ending_of t result }
    ensures small { IfOk result IsSmallPlace }
{
    let places = count_places(m, dictionary)?;
    let half = half_word(m, selector);
    let start = half & places.saturating_sub(1);
    seek_from(m, dictionary, sought, places, start)
}
