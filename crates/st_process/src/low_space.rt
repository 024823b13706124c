ghost use Rattle.std.specs.Prelude.{◌≡◌, ◌≤◌, ◌+◌, false, IfOk};
ghost use Rattle.st_model.specs.Values.{word};
ghost use Rattle.st_model.specs.Input.{low_space, set_low_space, primitive_low_space};
ghost use Rattle.st_model.specs.Deeds.{copies_pixels};
ghost use Rattle.st_process.specs.inside.Timing.{low_in};
ghost use Rattle.st_frames.specs.inside.Answering.{answer_word, answer_deed};
ghost use Rattle.st_frames.specs.inside.Rows.{RowReads, RowLeaves, RowTries, Takes};

use crate::processes::check_fields;
use crate::shapes::Low;
use st_frames::{Answer, Registers, Tried, positive_value, succeed_leaving, top, under};
use st_memory::Objects;
use st_model::{Dead, Deed, Word};

/// A semaphore's conditions, and the numbers of free entries and words that two values say.
#[tactic(auto, using(st_frames::proofs::Doing::rows), unfolding(st_model::specs::Input::low_space))]
fn low_space<O: Objects>(
    m: &O,
    r: &Registers,
    semaphore: Word,
    entries: Word,
    words: Word,
) -> Result<Low, Dead>
    ensures does { RowReads O.Objects.own
        (low_space O.names (word semaphore) (word entries) (word words)) low_in m.now r.now result }
    ensures of { IfOk result (λ low. low.semaphore ≡ semaphore) }
{
    check_fields(m, r, semaphore, 3)?;
    let entries = positive_value(m, r, entries)?;
    let words = positive_value(m, r, words)?;
    Ok(Low {
        semaphore,
        entries: entries as u32,
        words: words as u32,
    })
}

/// A semaphore is to be signalled once space is low, which is left to be done; the receiver is the answer. The semaphore must
/// be there.
#[tactic(auto, using(crate::proofs::Changing::lows))]
fn set_low_space<O: Objects>(m: &O, r: &Registers, low: Low, receiver: Word) -> Result<Answer, Dead>
    ensures does { RowLeaves O.Objects.own
        (set_low_space O.names (word low.semaphore) (low_in low) (word receiver))
        answer_word answer_deed m.now r.now result m.now r.now }
    ensures plain { IfOk result (λ a. copies_pixels a.deed ≡ false) }
{
    if !m.is_there(low.semaphore) {
        return Err(Dead::Kind);
    }
    Ok(Answer {
        word: receiver,
        deed: Deed::SetLowSpace {
            semaphore: low.semaphore,
            entries: low.entries,
            words: low.words,
        },
    })
}

/// Primitive 116: the first argument is to be signalled once fewer entries or words are free than the others say.
#[tactic(auto, using(st_frames::proofs::Tries::effects), unfolding(st_model::specs::Input::primitive_low_space))]
pub fn primitive_low_space<O: Objects>(m: &mut O, r: &mut Registers) -> Result<Tried, Dead>
    requires room { 1 ≤ O.room m.old }
    ensures does { RowTries O.Objects.own (primitive_low_space O.names) m.old r.old result m.new r.new }
    ensures takes { Takes O.Objects.own 1 m.old m.new }
{
    let receiver = under(m, r, 3)?;
    let semaphore = under(m, r, 2)?;
    let entries = under(m, r, 1)?;
    let words = top(m, r)?;
    match low_space(m, r, semaphore, entries, words) {
        Ok(low) => {
            let answer = set_low_space(m, r, low, receiver)?;
            succeed_leaving(m, r, 3, answer)
        }
        Err(_) => Ok(Tried::Failed),
    }
}
