ghost use Rattle.std.specs.Prelude.{◌≡◌, ◌<◌, [], true, OnOk};
ghost use Rattle.st_model.specs.{Values.value, Objects.is_bytes, View.{is_live, object_of}};
ghost use Rattle.st_model.specs.Text.{hexadecimal, escaped_byte, escaped};
ghost use Rattle.st_call.specs.inside.Saying.{Pushes, said_in};

use crate::output::{Output, Pushed};
use st_host::Host;
use st_memory::Memory;
use st_model::{Kind, Oop};

/// The digit of a number below 16: `0` to `9`, or `a` to `f`.
fn hexadecimal(digit: u8) -> u8
    requires { digit < 16 }
    ensures { result ≡ hexadecimal digit }
{
    if digit < 10 {
        b'0' + digit
    } else {
        b'a' + (digit - 10)
    }
}

/// Adds a byte: those from 32 to 126 but the backslash for themselves, others as a backslash and two digits.
pub fn push_escaped<H: Host>(out: &mut Output, host: &mut H, byte: u8) -> Pushed
    ensures { Pushes H.Host.own (escaped_byte byte) host.old host.new out.old out.new result }
{
    if byte < 32 || byte > 126 || byte == b'\\' {
        let digits = [b'\\', hexadecimal(byte / 16), hexadecimal(byte % 16)];
        out.push(host, &digits)
    } else {
        out.push(host, &[byte])
    }
}

/// Adds the bytes of an object of kind Bytes, escaped.
#[tactic(auto, using(st_memory::proofs::Bodies::bodies))]
pub fn push_bytes<H: Host, M: Memory>(out: &mut Output, host: &mut H, m: &M, o: Oop) -> Pushed
    requires live { is_live (M.view m.now).objects (value o) ≡ true }
    requires kind { is_bytes (object_of (M.view m.now).objects (value o)).kind ≡ true }
    ensures { let text = escaped (object_of (M.view m.now).objects (value o)).units in
        Pushes H.Host.own text host.old host.new out.old out.new result }
{
    let count = m.size(o);
    for i in 0..count {
        push_escaped(out, host, m.byte(o, i))?;
    }
    Ok(())
}

/// Adds the line that says the bytes of an object, which is there and of kind Bytes.
fn push_say<H: Host, M: Memory>(out: &mut Output, host: &mut H, m: &M, o: Oop) -> Pushed
    requires live { is_live (M.view m.now).objects (value o) ≡ true }
    requires kind { is_bytes (object_of (M.view m.now).objects (value o)).kind ≡ true }
    ensures { let text = said_in (M.view m.now).objects (value o) in
        Pushes H.Host.own text host.old host.new out.old out.new result }
{
    out.push(host, b"say ")?;
    push_bytes(out, host, m, o)?;
    out.push(host, b"\n")
}

/// Adds the line that says the bytes of an object, where one of kind Bytes is there.
fn push_said<H: Host, M: Memory>(out: &mut Output, host: &mut H, m: &M, o: Oop) -> Pushed
    ensures { let text = said_in (M.view m.now).objects (value o) in
        Pushes H.Host.own text host.old host.new out.old out.new result }
{
    if !m.live(o) {
        return Ok(());
    }
    match m.kind(o) {
        Kind::Bytes => push_say(out, host, m, o),
        Kind::Pointers | Kind::Words | Kind::Method => Ok(()),
    }
}

/// Adds the line that says the bytes of an object, where one of kind Bytes is there, and says it at once, behind all that was held
/// back.
pub fn say_at_once<H: Host, M: Memory>(out: &mut Output, host: &mut H, m: &M, o: Oop) -> Pushed
    ensures says { let text = said_in (M.view m.now).objects (value o) in
        Pushes H.Host.own text host.old host.new out.old out.new result }
    ensures at_once { OnOk result (out.new ≡ []) }
{
    push_said(out, host, m, o)?;
    out.flush(host)
}
