// The bytecode that comes next.
ghost use Rattle.std.specs.Prelude.{◌≡◌, option_map};
ghost use Rattle.st_model.specs.{Values.value, Machine.World};
ghost use Rattle.st_frames.specs.inside.Shown.{IsFrame, shown};
ghost use Rattle.st_call.specs.inside.Saying.{Pushes};
ghost use Rattle.st_debug.specs.Watched.{at_of, at_text, is_entered, is_first, watched};

use st_call::{Output, Pushed, push_integer, push_number, push_values};
use st_frames::Frame;
use st_host::Host;
use st_memory::{Memory, Objects, count_fields};
use st_model::{Kind, Oop, Word};

/// Where a machine stands before a bytecode.
#[derive(Clone, Copy, Debug, PartialEq, Eq)]
pub struct At {
    /// The active context.
    pub active: Oop,
    /// Its method.
    pub method: Oop,
    /// The place of the bytecode's first byte among the method's bytes, as a context stores it: counted from 1, header and literals
    /// too.
    pub place: i32,
    /// That byte.
    pub code: u8,
}

/// The bytecode that comes; none where its byte can't be fetched.
pub fn watch<M: Memory>(m: &M, f: &Frame) -> Option<At>
    requires { IsFrame (M.view m.now) f.now }
    ensures { (w : World) → option_map at_of result ≡ watched (shown (M.view m.now) f.now w) }
{
    match m.byte_at(Word::from(f.method), f.ip) {
        Ok(code) => Some(At {
            active: f.active,
            method: f.method,
            place: f.ip + 1,
            code,
        }),
        Err(_) => None,
    }
}

/// Whether there is a method under this pointer whose first bytecode has this number, from 0, among its bytes.
fn is_first<M: Memory>(m: &M, method: Oop, ip: i32) -> bool
    ensures { result ≡ is_first (M.view m.now).objects (value method) ip }
{
    if !m.live(method) {
        return false;
    }
    match m.kind(method) {
        Kind::Method => i64::from(ip) == 2 * i64::from(count_fields(m, method)),
        Kind::Pointers | Kind::Words | Kind::Bytes => false,
    }
}

/// Whether the machine stands before the first bytecode of the method under this pointer, in a context of its own. In a block it
/// doesn't.
#[tactic(auto, using(st_model::proofs::Words::same_words))]
pub fn entered<M: Memory>(m: &M, f: &Frame, method: Oop) -> bool
    ensures { (w : World) → result ≡ is_entered (shown (M.view m.now) f.now w) (value method) }
{
    f.method == method && f.active == f.home && is_first(m, method, f.ip)
}

/// Adds the line of a bytecode that comes.
pub fn push_at<H: Host>(out: &mut Output, host: &mut H, at: At) -> Pushed
    ensures { Pushes H.Host.own (at_text (at_of at)) host.old host.new out.old out.new result }
{
    out.push(host, b"at")?;
    push_values(out, host, &[at.active, at.method])?;
    push_integer(out, host, at.place)?;
    push_number(out, host, u32::from(at.code))?;
    out.push(host, b"\n")
}
