ghost use Rattle.std.specs.Prelude.{◌≡◌, ◌<◌, ◌≤◌, ◌+◌, pos};
ghost use Rattle.st_model.specs.Values.{word};
ghost use Rattle.st_model.specs.Arithmetic.{new_point};
ghost use Rattle.st_model.specs.Input.{mouse_point, primitive_mouse_point, place_in, move_mouse, primitive_move_mouse};
ghost use Rattle.st_process.specs.inside.Timing as meaning;
ghost use Rattle.st_frames.specs.inside.Answering.{succeed_by};
ghost use Rattle.st_frames.specs.inside.Rows.{RowReads, RowDoes, RowTries, Takes};

use crate::shapes::Place;
use st_frames::{
    Answer, Registers, Tried, page, positive_small, small, succeed_leaving, succeed_with, top,
    under,
};
use st_memory::Objects;
use st_model::{Dead, Deed, PageObject, Word};

/// A new Point of two numbers below 16384.
#[tactic(auto, using(st_frames::proofs::Doing::rows, st_frames::proofs::Doing::pages), unfolding(st_model::specs::Arithmetic::new_point))]
fn new_point<O: Objects>(m: &mut O, r: &Registers, x: u16, y: u16) -> Result<Word, Dead>
    requires left { x ≤ 16383 }
    requires top { y ≤ 16383 }
    requires room { 3 ≤ O.room m.old }
    ensures does { RowDoes O.Objects.own (new_point O.names (pos x) (pos y))
        word m.old r.now result m.new r.now }
    ensures takes { Takes O.Objects.own 3 m.old m.new }
{
    let class = page(m, PageObject::PointClass);
    let point = m.new_object(class, 2)?;
    m.store_field(point, 0, small(u32::from(x)))?;
    m.store_field(point, 1, small(u32::from(y)))?;
    Ok(point)
}

/// A new Point of the mouse's place.
#[tactic(auto, using(st_frames::proofs::Doing::rows, crate::proofs::Worlds::worlds), unfolding(st_model::specs::Input::mouse_point))]
fn mouse_point<O: Objects>(m: &mut O, r: &Registers) -> Result<Word, Dead>
    requires room { 3 ≤ O.room m.old }
    ensures does { RowDoes O.Objects.own (mouse_point O.names) word m.old r.now result m.new r.now }
    ensures takes { Takes O.Objects.own 3 m.old m.new }
{
    new_point(m, r, r.world.mouse_x(), r.world.mouse_y())
}

/// Primitive 90: a new Point of the mouse's place.
#[tactic(auto, using(st_frames::proofs::Doing::rows, crate::proofs::Changing::points))]
pub fn primitive_mouse_point<O: Objects>(m: &mut O, r: &mut Registers) -> Result<Tried, Dead>
    requires room { 4 ≤ O.room m.old }
    ensures does { RowTries O.Objects.own (primitive_mouse_point O.names) m.old r.old result m.new r.new }
    ensures takes { Takes O.Objects.own 4 m.old m.new }
{
    let point = mouse_point(m, r)?;
    succeed_with(m, r, 0, point)
}

/// The place that fields 0 and 1 of an object say.
#[tactic(auto, using(st_frames::proofs::Doing::rows), unfolding(st_model::specs::Input::place_in))]
fn place_in<O: Objects>(m: &O, r: &Registers, a: Word) -> Result<Place, Dead>
    ensures does { RowReads O.Objects.own (place_in O.names (word a)) meaning.place_in m.now r.now result }
{
    let first = m.fetch_field(a, 0)?;
    let x = positive_small(m, r, first)?;
    let second = m.fetch_field(a, 1)?;
    let y = positive_small(m, r, second)?;
    Ok(Place {
        x: x as u16,
        y: y as u16,
    })
}

/// Moves the mouse, and answers the receiver.
#[tactic(auto, using(st_frames::proofs::Doing::rows, crate::proofs::Changing::mice), unfolding(st_frames::specs::inside::Answering::succeed_by))]
fn answer_move<O: Objects>(
    m: &mut O,
    r: &mut Registers,
    receiver: Word,
    place: Place,
) -> Result<Tried, Dead>
    requires room { 1 ≤ O.room m.old }
    ensures does { RowTries O.Objects.own
        (succeed_by O.names 1 (move_mouse O.names (word receiver) (meaning.place_in place)))
        m.old r.old result m.new r.new }
    ensures takes { Takes O.Objects.own 1 m.old m.new }
{
    let deed = Deed::MoveMouse {
        x: place.x,
        y: place.y,
    };
    let word = receiver;
    succeed_leaving(m, r, 1, Answer { word, deed })
}

/// Primitive 91: the mouse is moved to the place that the argument says.
#[tactic(auto, using(st_frames::proofs::Tries::effects), unfolding(st_model::specs::Input::primitive_move_mouse))]
pub fn primitive_move_mouse<O: Objects>(m: &mut O, r: &mut Registers) -> Result<Tried, Dead>
    requires room { 1 ≤ O.room m.old }
    ensures does { RowTries O.Objects.own (primitive_move_mouse O.names) m.old r.old result m.new r.new }
    ensures takes { Takes O.Objects.own 1 m.old m.new }
{
    let receiver = under(m, r, 1)?;
    let argument = top(m, r)?;
    match place_in(m, r, argument) {
        Ok(place) => answer_move(m, r, receiver, place),
        Err(_) => Ok(Tried::Failed),
    }
}
