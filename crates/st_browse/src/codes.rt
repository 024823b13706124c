//! The bytecodes of a method.

ghost use Rattle.std.specs.Prelude.{◌≡◌, ◌<◌, ◌≤◌, ◌+◌, ◌*◌, Some, true, false, IfSome, IfNone, drop, length, slice_get, take};
ghost use Rattle.std.specs.List.{list_any};
ghost use Rattle.st_model.specs.{Values.value, Text.numbers_text, View.object_of};
ghost use Rattle.st_call.specs.inside.Saying.{Pushes};
ghost use Rattle.st_parts.specs.Cutting.{codes_of};
ghost use Rattle.st_browse.specs.Methods.{has_method};
ghost use Rattle.st_browse.specs.{Replies.{code_line, codes_text}, Senders.is_special, inside.Entries.IsBody};

use st_call::{Output, Pushed, push_number};
use st_host::Host;
use st_memory::{Memory, count_fields, count_units, unit_at};
use st_model::{Kind, Oop};
use st_parts::code_length;

/// The code of the first special send.
const FIRST_SPECIAL: u32 = 176;

/// A method, and how long the two parts of its body are.
#[derive(Clone, Copy)]
pub struct Body {
    /// The method.
    pub method: Oop,
    /// How many fields it has: its header and literals.
    pub fields: u32,
    /// How many bytes its bytecodes have, at most 131066.
    pub units: u32,
}

/// The body of a method, where the value is one.
#[tactic(auto, using(st_memory::proofs::Bodies::bodies, st_memory::proofs::Bodies::most_units))]
pub fn body_of<M: Memory>(m: &M, method: Oop) -> Option<Body>
    ensures none { IfNone result (has_method (M.view m.now).objects (value method) ≡ false) }
    ensures method { IfSome result (λ b. has_method (M.view m.now).objects (value method) ≡ true) }
    ensures same { IfSome result (λ b. b.method ≡ method) }
    ensures body { IfSome result (λ b. IsBody (M.view m.now).objects b) }
{
    if !m.live(method) {
        return None;
    }
    match m.kind(method) {
        Kind::Method => {
            let fields = count_fields(m, method);
            let units = count_units(m, method, fields);
            Some(Body {
                method,
                fields,
                units,
            })
        }
        Kind::Pointers | Kind::Words | Kind::Bytes => None,
    }
}

/// Byte i of a method's bytecodes, counted from 0.
fn unit<M: Memory>(m: &M, body: Body, i: u32) -> u32
    requires body { IsBody (M.view m.now).objects body }
    requires range { i < body.units }
    ensures { let units = (object_of (M.view m.now).objects (value body.method)).units in
        slice_get units i ≡ Some result }
{
    unit_at(m, body.method, body.fields, i)
}

/// How many bytecodes a method has; a last one that is cut off counts too.
pub fn count_codes<M: Memory>(m: &M, body: Body) -> u32
    requires { IsBody (M.view m.now).objects body }
    ensures { let units = (object_of (M.view m.now).objects (value body.method)).units in
        result ≡ length (codes_of units) }
{
    let mut at = 0;
    let mut count = 0;
    while at < body.units {
        at += code_length(unit(m, body, at));
        count += 1;
    }
    count
}

/// Whether a method has the special send of number k.
pub fn has_special<M: Memory>(m: &M, body: Body, k: u32) -> bool
    requires body { IsBody (M.view m.now).objects body }
    requires few { k ≤ 31 }
    ensures { let units = (object_of (M.view m.now).objects (value body.method)).units in
        result ≡ list_any (is_special (Some k)) (codes_of units) }
{
    let mut at = 0;
    while at < body.units {
        let first = unit(m, body, at);
        if first == FIRST_SPECIAL + k {
            return true;
        }
        at += code_length(first);
    }
    false
}

/// Adds so many bytes of a method's bytecodes from one on.
fn push_units<H: Host, M: Memory>(
    out: &mut Output,
    host: &mut H,
    m: &M,
    body: Body,
    from: u32,
    count: u32,
) -> Pushed
    requires body { IsBody (M.view m.now).objects body }
    requires end { from + count ≤ body.units }
    ensures { let units = (object_of (M.view m.now).objects (value body.method)).units in
        let text = numbers_text (take count (drop from units)) in
        Pushes H.Host.own text host.old host.new out.old out.new result }
{
    for i in 0..count {
        push_number(out, host, unit(m, body, from + i))?;
    }
    Ok(())
}

/// Adds the line of the bytecode at this place of the bytes, which has so many of them, or is cut off.
fn push_code<H: Host, M: Memory>(
    out: &mut Output,
    host: &mut H,
    m: &M,
    body: Body,
    at: u32,
    length: u32,
) -> Pushed
    requires body { IsBody (M.view m.now).objects body }
    requires place { at ≤ body.units }
    ensures { let units = (object_of (M.view m.now).objects (value body.method)).units in
        let text = code_line (2 * body.fields + 1 + at) (take length (drop at units)) in
        Pushes H.Host.own text host.old host.new out.old out.new result }
{
    out.push(host, b"code")?;
    push_number(out, host, 2 * body.fields + 1 + at)?;
    push_units(out, host, m, body, at, length.min(body.units - at))?;
    out.push(host, b"\n")
}

/// Adds the lines of a method's bytecodes. Places count its header and literals too.
pub fn push_codes<H: Host, M: Memory>(out: &mut Output, host: &mut H, m: &M, body: Body) -> Pushed
    requires { IsBody (M.view m.now).objects body }
    ensures { let units = (object_of (M.view m.now).objects (value body.method)).units in
        let text = codes_text (2 * body.fields + 1) (codes_of units) in
        Pushes H.Host.own text host.old host.new out.old out.new result }
{
    let mut at = 0;
    while at < body.units {
        let length = code_length(unit(m, body, at));
        push_code(out, host, m, body, at, length)?;
        at += length;
    }
    Ok(())
}
