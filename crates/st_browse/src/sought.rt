//! What is asked for, found in an image.

ghost use Rattle.std.specs.Prelude.{◌≡◌, IfSome, option_and_then, option_map};
ghost use Rattle.st_model.specs.Values.{value};
ghost use Rattle.st_scope.specs.Texts.{found};
ghost use Rattle.st_chunk.specs.Asks.{ask_of, side_of};
ghost use Rattle.st_browse.specs.{Display.display_reply, Replies.{methods_text, object_reply}};
ghost use Rattle.st_browse.specs.Asked.{class_of_side, code_text, method_in, method_of_side, reply, source_in};
ghost use Rattle.st_browse.specs.{inside.Entries.IsBody, inside.Founds.{IsSought, sought_text}};
ghost use Rattle.st_browse.specs.{Decompiling.method_place, inside.Placing.{IsCompiled, place_if}};

use crate::classes::{globals, is_class, on_side};
use crate::codes::{Body, body_of};
use crate::display::{Form, find_display};
use crate::methods::methods_of;
use crate::names::Names;
use crate::places::first_named;
use st_chunk::{LentAsk, LentSide};
use st_memory::Memory;
use st_model::Oop;
use st_parts::Compiled;

/// What is asked for, where it is in the image.
#[derive(Clone, Copy)]
pub enum Sought<'a> {
    /// An object.
    Object(Oop),
    /// The Form that is held as the display.
    Display(Form),
    /// The classes among the globals.
    Classes(Names),
    /// The methods of a class.
    Methods(Names),
    /// The text of a method.
    Source(&'a [u8]),
    /// The bytecodes of a method.
    Bytecodes(Body),
    /// The senders of a selector, in the classes among the globals.
    Senders(Names, &'a [u8]),
}

/// The class that a side names.
#[tactic(auto, using(crate::proofs::Sides::sides), unfolding(crate::specs::Classes::class_named))]
fn class_of_side<M: Memory>(m: &M, side: LentSide<'_>) -> Option<Oop>
    ensures { let v = M.view m.now in found result ≡ class_of_side v (side_of side.entry) }
{
    let n = first_named(m, globals(m), side.class)?;
    if is_class(m, n) {
        Some(on_side(m, n.value, side.meta))
    } else {
        None
    }
}

/// The method of a class for a selector.
#[tactic(auto, unfolding(crate::specs::Methods::method_named, crate::specs::Methods::if_method))]
fn method_of<M: Memory>(m: &M, class: Oop, selector: &[u8]) -> Option<Body>
    ensures found { let t = (M.view m.now).objects in
        option_map (λ b. value b.method) result ≡ method_in t selector.now (value class) }
    ensures body { IfSome result (λ b. IsBody (M.view m.now).objects b) }
{
    let n = first_named(m, methods_of(m, class), selector)?;
    body_of(m, n.value)
}

/// Finds the methods of a class.
fn seek_methods<'a, M: Memory>(m: &M, side: LentSide<'_>) -> Option<Sought<'a>>
    ensures sought { let v = M.view m.now in
        let found = class_of_side v (side_of side.entry) in
        option_map (sought_text v.objects) result ≡ option_map (methods_text v.objects) found }
    ensures there { IfSome result (λ s. IsSought (M.view m.now).objects s) }
{
    let class = class_of_side(m, side)?;
    Some(Sought::Methods(methods_of(m, class)))
}

/// Finds a method of a class for a selector, of whose last definition this is the text, if there is one.
#[tactic(auto, unfolding(crate::specs::Methods::method_named))]
fn seek_source<'a, M: Memory>(
    m: &M,
    side: LentSide<'_>,
    selector: &[u8],
    text: Option<&'a [u8]>,
) -> Option<Sought<'a>>
    ensures sought { let v = M.view m.now in let text = option_map (λ t. t.now) text.entry in
        let found = class_of_side v (side_of side.entry) in
        option_map (sought_text v.objects) result
        ≡ option_and_then (source_in v.objects selector.now text) found }
    ensures there { IfSome result (λ s. IsSought (M.view m.now).objects s) }
{
    let class = class_of_side(m, side)?;
    first_named(m, methods_of(m, class), selector)?;
    Some(Sought::Source(text?))
}

/// Finds the bytecodes of a class's method for a selector.
fn seek_bytecodes<'a, M: Memory>(m: &M, side: LentSide<'_>, selector: &[u8]) -> Option<Sought<'a>>
    ensures sought { let v = M.view m.now in
        let method = method_of_side v (side_of side.entry) selector.now in
        option_map (sought_text v.objects) result ≡ option_map (code_text v.objects) method }
    ensures there { IfSome result (λ s. IsSought (M.view m.now).objects s) }
{
    let class = class_of_side(m, side)?;
    let body = method_of(m, class, selector)?;
    Some(Sought::Bytecodes(body))
}

/// The method of a class for a selector, where an object of kind Method is there.
pub fn find_method<M: Memory>(m: &M, side: LentSide<'_>, selector: &[u8]) -> Option<Oop>
    ensures { let v = M.view m.now in found result ≡ method_of_side v (side_of side.entry) selector.now }
{
    let class = class_of_side(m, side)?;
    let body = method_of(m, class, selector)?;
    Some(body.method)
}

/// The method of a class for a selector, and where it stands.
#[tactic(auto, unfolding(crate::specs::Decompiling::method_place))]
pub fn find_compiled<'a, M: Memory>(
    m: &M,
    side: LentSide<'a>,
    selector: &'a [u8],
) -> Option<Compiled<'a>>
    ensures place { place_if result ≡ method_place (M.view m.now) (side_of side.entry) selector.now }
    ensures there { IfSome result (λ c. IsCompiled (M.view m.now).objects c) }
{
    let class = class_of_side(m, side)?;
    let body = method_of(m, class, selector)?;
    Some(Compiled {
        class,
        name: side.class,
        meta: side.meta,
        selector,
        method: body.method,
    })
}

/// Finds an object.
fn seek_object<'a, M: Memory>(m: &M, o: Oop) -> Option<Sought<'a>>
    ensures sought { let t = (M.view m.now).objects in
        option_map (sought_text t) result ≡ object_reply t (value o) }
    ensures there { IfSome result (λ s. IsSought (M.view m.now).objects s) }
{
    if m.live(o) {
        Some(Sought::Object(o))
    } else {
        None
    }
}

/// Finds the display.
#[tactic(auto, unfolding(crate::specs::Display::display_reply))]
fn seek_display<'a, M: Memory>(m: &M) -> Option<Sought<'a>>
    ensures sought { let v = M.view m.now in option_map (sought_text v.objects) result ≡ display_reply v }
    ensures there { IfSome result (λ s. IsSought (M.view m.now).objects s) }
{
    Some(Sought::Display(find_display(m)?))
}

/// Finds what is asked for, with the text of the last definition where a source is asked for.
#[tactic(auto, unfolding(crate::specs::Asked::reply))]
pub fn seek<'a, M: Memory>(m: &M, ask: LentAsk<'a>, text: Option<&'a [u8]>) -> Option<Sought<'a>>
    ensures sought { let v = M.view m.now in let text = option_map (λ t. t.now) text.entry in
        option_map (sought_text v.objects) result ≡ reply v text (ask_of ask.entry) }
    ensures there { IfSome result (λ s. IsSought (M.view m.now).objects s) }
{
    match ask {
        LentAsk::Object(pointer) => seek_object(m, Oop(pointer)),
        LentAsk::Display => seek_display(m),
        LentAsk::Classes => Some(Sought::Classes(globals(m))),
        LentAsk::Methods(side) => seek_methods(m, side),
        LentAsk::Source(side, selector) => seek_source(m, side, selector, text),
        LentAsk::Bytecodes(side, selector) | LentAsk::Until(_, side, selector) => seek_bytecodes(
            m, side, selector,
        ),
        LentAsk::Senders(selector) => Some(Sought::Senders(globals(m), selector)),
    }
}
