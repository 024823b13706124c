ghost use Rattle.std.specs.Prelude.{◌≡◌, ◌/◌, ◌++◌, codes, length, true};
ghost use Rattle.st_model.specs.{Values.value, View.{is_live, object_of}};
ghost use Rattle.st_model.specs.Text.{values_text, numbers_text, kind_text, colon_text};
ghost use Rattle.st_model.specs.Text.{heading_text, object_head, object_body, object_text, objects_text};
ghost use Rattle.st_call.specs.inside.Saying.{Pushes};

use crate::output::{Output, Pushed};
use crate::report_words::{push_number, push_value};
use st_host::Host;
use st_memory::{Memory, count_fields, count_units, unit_at};
use st_model::{Kind, Oop};

/// Adds the fields of an object.
fn push_fields<H: Host, M: Memory>(
    out: &mut Output,
    host: &mut H,
    m: &M,
    o: Oop,
    fields: u32,
) -> Pushed
    requires live { is_live (M.view m.now).objects (value o) ≡ true }
    requires fields { fields ≡ length (object_of (M.view m.now).objects (value o)).fields }
    ensures { let text = values_text (object_of (M.view m.now).objects (value o)).fields in
        Pushes H.Host.own text host.old host.new out.old out.new result }
{
    for i in 0..fields {
        push_value(out, host, m.pointer(o, i))?;
    }
    Ok(())
}

/// Adds the words or bytes of an object.
#[tactic(auto, using(st_memory::proofs::Bodies::bodies))]
fn push_units<H: Host, M: Memory>(
    out: &mut Output,
    host: &mut H,
    m: &M,
    o: Oop,
    fields: u32,
) -> Pushed
    requires live { is_live (M.view m.now).objects (value o) ≡ true }
    requires fields { fields ≡ length (object_of (M.view m.now).objects (value o)).fields }
    ensures { let text = numbers_text (object_of (M.view m.now).objects (value o)).units in
        Pushes H.Host.own text host.old host.new out.old out.new result }
{
    let count = count_units(m, o, fields);
    for i in 0..count {
        push_number(out, host, unit_at(m, o, fields, i))?;
    }
    Ok(())
}

/// The letter of a kind, after a space.
fn kind_letter(kind: Kind) -> &'static [u8]
    ensures { result.now ≡ kind_text kind }
{
    match kind {
        Kind::Pointers => b" p",
        Kind::Words => b" w",
        Kind::Bytes => b" b",
        Kind::Method => b" m",
    }
}

/// The colon between a Method's literals and its bytes.
fn colon(kind: Kind) -> &'static [u8]
    ensures { result.now ≡ colon_text kind }
{
    match kind {
        Kind::Pointers | Kind::Words | Kind::Bytes => b"",
        Kind::Method => b" :",
    }
}

/// Adds a pointer, a class and the letter of a kind.
fn push_heading<H: Host>(
    out: &mut Output,
    host: &mut H,
    pointer: u32,
    class: Oop,
    letter: &[u8],
) -> Pushed
    ensures { let text = heading_text pointer (value class) letter.now in
        Pushes H.Host.own text host.old host.new out.old out.new result }
{
    out.push(host, b"object")?;
    push_number(out, host, pointer)?;
    push_value(out, host, class)?;
    out.push(host, letter)
}

/// Adds the pointer of an object, its class and its kind.
fn push_head<H: Host, M: Memory>(out: &mut Output, host: &mut H, m: &M, o: Oop) -> Pushed
    requires { is_live (M.view m.now).objects (value o) ≡ true }
    ensures { let text = object_head (o.0 / 2) (object_of (M.view m.now).objects (value o)) in
        Pushes H.Host.own text host.old host.new out.old out.new result }
{
    push_heading(
        out,
        host,
        u32::from(o.0),
        m.class_of(o),
        kind_letter(m.kind(o)),
    )
}

/// Adds the fields of an object, its words or bytes, and the line's end.
fn push_body<H: Host, M: Memory>(out: &mut Output, host: &mut H, m: &M, o: Oop) -> Pushed
    requires { is_live (M.view m.now).objects (value o) ≡ true }
    ensures { let text = object_body (object_of (M.view m.now).objects (value o)) in
        Pushes H.Host.own text host.old host.new out.old out.new result }
{
    let fields = count_fields(m, o);
    push_fields(out, host, m, o, fields)?;
    out.push(host, colon(m.kind(o)))?;
    push_units(out, host, m, o, fields)?;
    out.push(host, b"\n")
}

/// Adds the line of an object.
pub fn push_object<H: Host, M: Memory>(out: &mut Output, host: &mut H, m: &M, o: Oop) -> Pushed
    requires { is_live (M.view m.now).objects (value o) ≡ true }
    ensures { let text = object_text (o.0 / 2) (object_of (M.view m.now).objects (value o)) in
        Pushes H.Host.own text host.old host.new out.old out.new result }
{
    push_head(out, host, m, o)?;
    push_body(out, host, m, o)
}

/// Adds the lines of all kept objects by rising pointer.
pub fn push_objects<H: Host, M: Memory>(out: &mut Output, host: &mut H, m: &M) -> Pushed
    ensures { let text = objects_text 0 (M.view m.now).objects in
        Pushes H.Host.own text host.old host.new out.old out.new result }
{
    let mut after = 0;
    while let Some(o) = m.next_live(after) {
        push_object(out, host, m, o)?;
        after = u32::from(o.0);
    }
    Ok(())
}
