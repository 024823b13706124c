ghost use Rattle.std.specs.Prelude.{◌≡◌, ◌<◌, ◌≤◌, ◌+◌, IfOk, false};
ghost use Rattle.st_model.specs.Values.{word};
ghost use Rattle.st_model.specs.Input.{check_truth, hold_and_answer, primitive_input_semaphore, word_that_waits, take_word, primitive_input_word};
ghost use Rattle.st_model.specs.inside.Calls.{itself};
ghost use Rattle.st_model.specs.Deeds.{copies_pixels};
ghost use Rattle.st_process.specs.inside.Devices.{check_setting, set_device, be_device};
ghost use Rattle.st_frames.specs.inside.Answering.{succeed_by, answer_word, answer_deed};
ghost use Rattle.st_frames.specs.inside.Rows.{RowReads, RowLeaves, RowTries, Takes};

use crate::holding::hold;
use crate::processes::check_fields;
use crate::shapes::Setting;
use st_frames::{
    Answer, Registers, Tried, bits_or_die, number, page, succeed_leaving, succeed_with, top, under,
};
use st_memory::Objects;
use st_model::{Dead, Deed, Device, PageObject, Word};

/// True or false.
#[tactic(auto, using(st_frames::proofs::Doing::rows, st_frames::proofs::Tries::tests, crate::proofs::Changing::truths), unfolding(st_model::specs::Input::check_truth))]
fn check_truth<O: Objects>(m: &O, r: &Registers, v: Word) -> Result<(), Dead>
    ensures does { RowReads O.Objects.own (check_truth O.names (word v)) itself m.now r.now result }
{
    let truth = page(m, PageObject::TrueObject);
    let falsehood = page(m, PageObject::FalseObject);
    if v.same(truth) || v.same(falsehood) {
        Ok(())
    } else {
        Err(Dead::Kind)
    }
}

/// What says a setting: true or false, or a SmallInteger.
#[tactic(auto, using(st_frames::proofs::Doing::rows, crate::proofs::Settings::settings))]
fn check_setting<O: Objects>(m: &O, r: &Registers, setting: Setting, v: Word) -> Result<(), Dead>
    ensures does { RowReads O.Objects.own (check_setting O.names setting (word v))
        itself m.now r.now result }
{
    match setting {
        Setting::CursorLink => check_truth(m, r, v),
        Setting::SampleInterval => {
            bits_or_die(m, r, v)?;
            Ok(())
        }
    }
}

/// Primitives 92 and 94: the argument sets what nothing is seen of.
#[tactic(auto, using(st_frames::proofs::Tries::tries, crate::proofs::Changing::same), unfolding(crate::specs::inside::Devices::set_device))]
pub fn set_device<O: Objects>(m: &mut O, r: &mut Registers, setting: Setting) -> Result<Tried, Dead>
    requires room { 1 ≤ O.room m.old }
    ensures does { RowTries O.Objects.own (set_device O.names setting) m.old r.old result m.new r.new }
    ensures takes { Takes O.Objects.own 1 m.old m.new }
{
    let receiver = under(m, r, 1)?;
    let argument = top(m, r)?;
    match check_setting(m, r, setting, argument) {
        Ok(()) => succeed_with(m, r, 1, receiver),
        Err(_) => Ok(Tried::Failed),
    }
}

/// A device holds an object from now on, and n arguments and the receiver are answered by the receiver.
#[tactic(auto, using(st_frames::proofs::Doing::rows), unfolding(st_frames::specs::inside::Answering::succeed_by, st_model::specs::Input::hold_and_answer))]
fn answer_held<O: Objects>(
    m: &mut O,
    r: &mut Registers,
    n: u32,
    device: Device,
    object: Word,
    receiver: Word,
) -> Result<Tried, Dead>
    requires few { n < 256 }
    requires room { 1 ≤ O.room m.old }
    ensures does { RowTries O.Objects.own
        (succeed_by O.names n (hold_and_answer O.names device (word object) (word receiver)))
        m.old r.old result m.new r.new }
    ensures takes { Takes O.Objects.own 1 m.old m.new }
{
    let deed = hold(m, r, device, object)?;
    let word = receiver;
    succeed_leaving(m, r, n, Answer { word, deed })
}

/// Primitive 93: the argument is the semaphore that is signalled at each input word.
#[tactic(auto, using(st_frames::proofs::Tries::effects), unfolding(st_model::specs::Input::primitive_input_semaphore))]
pub fn primitive_input_semaphore<O: Objects>(m: &mut O, r: &mut Registers) -> Result<Tried, Dead>
    requires room { 1 ≤ O.room m.old }
    ensures does { RowTries O.Objects.own (primitive_input_semaphore O.names) m.old r.old result m.new r.new }
    ensures takes { Takes O.Objects.own 1 m.old m.new }
{
    let receiver = under(m, r, 1)?;
    let argument = top(m, r)?;
    match check_fields(m, r, argument, 3) {
        Ok(()) => answer_held(m, r, 1, Device::InputSemaphore, argument, receiver),
        Err(_) => Ok(Tried::Failed),
    }
}

/// The oldest input word that waits.
#[tactic(auto, using(st_frames::proofs::Doing::rows, crate::proofs::Worlds::worlds, st_frames::proofs::Tries::options), unfolding(st_model::specs::Input::word_that_waits))]
fn word_that_waits<O: Objects>(m: &O, r: &Registers) -> Result<u16, Dead>
    ensures does { RowReads O.Objects.own word_that_waits itself m.now r.now result }
{
    match r.world.oldest_word() {
        Some(word) => Ok(word),
        None => Err(Dead::Field),
    }
}

/// The number of the oldest input word, which is left to be taken away.
#[tactic(auto, using(crate::proofs::Taking::words))]
fn take_word<O: Objects>(m: &mut O, r: &Registers, oldest: u16) -> Result<Answer, Dead>
    requires room { 1 ≤ O.room m.old }
    ensures does { RowLeaves O.Objects.own (take_word O.names oldest)
        answer_word answer_deed m.old r.now result m.new r.now }
    ensures takes { Takes O.Objects.own 1 m.old m.new }
    ensures plain { IfOk result (λ a. copies_pixels a.deed ≡ false) }
{
    let n = u32::from(oldest);
    let answer = number(m, r, u128::from(n))?;
    let word = answer.word;
    let deed = Deed::TakeWord {
        object: word,
        number: n,
    };
    Ok(Answer { word, deed })
}

/// Takes the oldest input word and answers its number.
#[tactic(auto, using(st_frames::proofs::Doing::rows), unfolding(st_frames::specs::inside::Answering::succeed_by))]
fn answer_word_taken<O: Objects>(m: &mut O, r: &mut Registers, oldest: u16) -> Result<Tried, Dead>
    requires room { 2 ≤ O.room m.old }
    ensures does { RowTries O.Objects.own (succeed_by O.names 0 (take_word O.names oldest))
        m.old r.old result m.new r.new }
    ensures takes { Takes O.Objects.own 2 m.old m.new }
{
    let answer = take_word(m, r, oldest)?;
    succeed_leaving(m, r, 0, answer)
}

/// Primitive 95: the oldest input word is taken.
#[tactic(auto, using(st_frames::proofs::Tries::effects), unfolding(st_model::specs::Input::primitive_input_word))]
pub fn primitive_input_word<O: Objects>(m: &mut O, r: &mut Registers) -> Result<Tried, Dead>
    requires room { 2 ≤ O.room m.old }
    ensures does { RowTries O.Objects.own (primitive_input_word O.names) m.old r.old result m.new r.new }
    ensures takes { Takes O.Objects.own 2 m.old m.new }
{
    match word_that_waits(m, r) {
        Ok(oldest) => answer_word_taken(m, r, oldest),
        Err(_) => Ok(Tried::Failed),
    }
}

/// Primitives 101 and 102: the receiver is what this device shows.
#[tactic(auto, using(st_frames::proofs::Tries::effects), unfolding(crate::specs::inside::Devices::be_device))]
pub fn be_device<O: Objects>(m: &mut O, r: &mut Registers, device: Device) -> Result<Tried, Dead>
    requires room { 1 ≤ O.room m.old }
    ensures does { RowTries O.Objects.own (be_device O.names device) m.old r.old result m.new r.new }
    ensures takes { Takes O.Objects.own 1 m.old m.new }
{
    let receiver = top(m, r)?;
    match check_fields(m, r, receiver, 3) {
        Ok(()) => answer_held(m, r, 0, device, receiver, receiver),
        Err(_) => Ok(Tried::Failed),
    }
}
