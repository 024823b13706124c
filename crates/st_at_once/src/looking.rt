ghost use Rattle.std.specs.Prelude.{◌<◌, ◌<ℤ◌};
ghost use Rattle.st_model.specs.Values.{Value, value, word};
ghost use Rattle.st_frames.specs.inside.Shown.{IsFrame};
ghost use Rattle.st_at_once.specs.inside.Known.{KnowsFields, KnowsCode, IsNear, IsThere, ArePlaced};

use crate::known::{Code, Fields, NearPlaces};
use st_frames::Frame;
use st_memory::Memory;
use st_model::{Oop, Word, literals};

/// What is known of an object.
#[tactic(auto, using(st_memory::proofs::Bodies::most_fields))]
fn look_at_fields<M: Memory>(m: &M, object: Oop) -> Fields
    ensures fields { KnowsFields (M.view m.now).objects (value object) result }
    ensures place { 0 < result.number → M.stands m.now (word result.object) result.place }
{
    if !m.live(object) {
        return Fields::NONE;
    }
    if !m.kind(object).is_pointers() {
        return Fields::NONE;
    }
    match m.place(object) {
        Some(place) => Fields {
            object: Word(u32::from(object.0)),
            number: m.size(object),
            place,
        },
        None => Fields::NONE,
    }
}

/// What is known of a method.
fn look_at_code<M: Memory>(m: &M, method: Oop) -> Code
    ensures code { KnowsCode (M.view m.now).objects (value method) result }
    ensures literals { 0 < result.literals → M.stands m.now (word result.method) result.place }
    ensures bytes { result.first <ℤ result.end → M.stands m.now (word result.method) result.place }
{
    if !m.live(method) {
        return Code::NONE;
    }
    if !m.kind(method).is_method() {
        return Code::NONE;
    }
    let count = literals(m.pointer(method, 0));
    match m.place(method) {
        Some(place) => Code {
            method: Word(u32::from(method.0)),
            literals: count,
            first: (2 * count + 2) as i32,
            end: m.size(method).min(16382) as i32,
            place,
        },
        None => Code::NONE,
    }
}

/// What is known of the home context, where this is known of the active one; in a method both are the same.
fn look_at_home<M: Memory>(m: &M, f: &Frame, active: Fields) -> Fields
    requires fields { KnowsFields (M.view m.now).objects (value f.now.active) active }
    requires place { 0 < active.number → M.stands m.now (word active.object) active.place }
    ensures fields { KnowsFields (M.view m.now).objects (value f.now.home) result }
    ensures place { 0 < result.number → M.stands m.now (word result.object) result.place }
{
    if f.home.0 == f.active.0 {
        active
    } else {
        look_at_fields(m, f.home)
    }
}

/// What is known of an object, with the place at which it stands now.
#[inline(always)]
fn place_fields<M: Memory>(m: &M, f: Fields) -> Fields
    requires { 0 < f.number → IsThere (M.view m.now).objects f.object }
    ensures known { (held : Value) → KnowsFields (M.view m.now).objects held f
        → KnowsFields (M.view m.now).objects held result }
    ensures place { 0 < result.number → M.stands m.now (word result.object) result.place }
{
    if f.number == 0 {
        return f;
    }
    match m.place(Oop(f.object.0 as u16)) {
        Some(place) => Fields { place, ..f },
        None => Fields::NONE,
    }
}

/// What is known of a method, with the place at which it stands now.
#[inline(always)]
fn place_code<M: Memory>(m: &M, c: Code) -> Code
    requires literals { 0 < c.literals → IsThere (M.view m.now).objects c.method }
    requires bytes { c.first <ℤ c.end → IsThere (M.view m.now).objects c.method }
    ensures known { (held : Value) → KnowsCode (M.view m.now).objects held c
        → KnowsCode (M.view m.now).objects held result }
    ensures literals { 0 < result.literals → M.stands m.now (word result.method) result.place }
    ensures bytes { result.first <ℤ result.end → M.stands m.now (word result.method) result.place }
{
    if c.literals == 0 && c.end <= c.first {
        return c;
    }
    match m.place(Oop(c.method.0 as u16)) {
        Some(place) => Code { place, ..c },
        None => Code::NONE,
    }
}

/// What is known, with the places at which it stands now.
#[inline(always)]
pub(crate) fn look_at_places<M: Memory>(m: &M, known: NearPlaces) -> NearPlaces
    requires { IsNear (M.view m.now) known }
    ensures near { IsNear (M.view m.now) result }
    ensures places { ArePlaced (M.stands m.now) result }
{
    NearPlaces {
        active: place_fields(m, known.active),
        home: place_fields(m, known.home),
        code: place_code(m, known.code),
        made: place_fields(m, known.made),
    }
}

/// What is known of the object that was made under this word.
#[inline(always)]
#[tactic(auto, using(crate::proofs::Keeping::fields_named))]
fn look_at_made<M: Memory>(m: &M, made: Word) -> Fields
    ensures fields { KnowsFields (M.view m.now).objects (word result.object) result }
    ensures place { 0 < result.number → M.stands m.now (word result.object) result.place }
{
    if made.0 > 65535 {
        return Fields::NONE;
    }
    look_at_fields(m, Oop(made.0 as u16))
}

/// What is known once an object was made under this word, with the places at which all stands now.
#[inline(always)]
pub(crate) fn look_after_make<M: Memory>(m: &M, known: NearPlaces, made: Word) -> NearPlaces
    requires { IsNear (M.view m.now) known }
    ensures near { IsNear (M.view m.now) result }
    ensures places { ArePlaced (M.stands m.now) result }
{
    NearPlaces {
        made: look_at_made(m, made),
        ..look_at_places(m, known)
    }
}

/// What is known of a method, where this was known of one; often that is the same.
#[tactic(auto, using(crate::proofs::Keeping::code_renamed))]
fn look_at_code_again<M: Memory>(m: &M, method: Oop, before: Code) -> Code
    requires { KnowsCode (M.view m.now).objects (word before.method) before }
    ensures code { KnowsCode (M.view m.now).objects (value method) result }
    ensures literals { 0 < result.literals → M.stands m.now (word result.method) result.place }
    ensures bytes { result.first <ℤ result.end → M.stands m.now (word result.method) result.place }
{
    if before.method.0 == u32::from(method.0) {
        place_code(m, before)
    } else {
        look_at_code(m, method)
    }
}

/// What is known of the contexts and the method of a frame that is held, where this was known of a method.
#[inline(always)]
pub fn look<M: Memory>(m: &M, f: &Frame, before: Code) -> NearPlaces
    requires frame { IsFrame (M.view m.now) f.now }
    requires before { KnowsCode (M.view m.now).objects (word before.method) before }
    ensures near { IsNear (M.view m.now) result }
    ensures places { ArePlaced (M.stands m.now) result }
{
    let active = look_at_fields(m, f.active);
    NearPlaces {
        active,
        home: look_at_home(m, f, active),
        code: look_at_code_again(m, f.method, before),
        made: Fields::NONE,
    }
}
