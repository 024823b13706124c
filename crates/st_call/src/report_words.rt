ghost use Rattle.std.specs.Prelude.{◌≡◌, ◌++◌, codes, decimal};
ghost use Rattle.std.specs.Fmt.{signed_decimal};
ghost use Rattle.st_model.specs.Values.{value};
ghost use Rattle.st_model.specs.Text.{value_text};
ghost use Rattle.st_call.specs.inside.Saying.{Pushes};

use crate::output::{Output, Pushed};
use itoa::Buffer;
use st_host::Host;
use st_model::Oop;

/// Adds a number after a space.
pub fn push_number<H: Host>(out: &mut Output, host: &mut H, n: u32) -> Pushed
    ensures { Pushes H.Host.own (codes " " ++ decimal n) host.old host.new out.old out.new result }
{
    let mut buffer = Buffer::new();
    out.push(host, b" ")?;
    out.push(host, buffer.format(n).as_bytes())
}

/// Adds a number of up to 64 bits after a space.
pub fn push_long_number<H: Host>(out: &mut Output, host: &mut H, n: u64) -> Pushed
    ensures { Pushes H.Host.own (codes " " ++ decimal n) host.old host.new out.old out.new result }
{
    let mut buffer = Buffer::new();
    out.push(host, b" ")?;
    out.push(host, buffer.format(n).as_bytes())
}

/// Adds an integer after a space.
pub fn push_integer<H: Host>(out: &mut Output, host: &mut H, n: i32) -> Pushed
    ensures { Pushes H.Host.own (codes " " ++ signed_decimal n) host.old host.new out.old out.new result }
{
    let mut buffer = Buffer::new();
    out.push(host, b" ")?;
    out.push(host, buffer.format(n).as_bytes())
}

/// Adds a pointer after a space, as @60.
fn push_pointer<H: Host>(out: &mut Output, host: &mut H, o: Oop) -> Pushed
    ensures { Pushes H.Host.own (codes " @" ++ decimal o.0) host.old host.new out.old out.new result }
{
    let mut buffer = Buffer::new();
    out.push(host, b" @")?;
    out.push(host, buffer.format(o.0).as_bytes())
}

/// Adds a value after a space: a pointer as @60, a SmallInteger as its number.
#[tactic(auto, using(st_model::proofs::Words::texts))]
pub fn push_value<H: Host>(out: &mut Output, host: &mut H, o: Oop) -> Pushed
    ensures { Pushes H.Host.own (codes " " ++ value_text (value o))
        host.old host.new out.old out.new result }
{
    if o.is_small() {
        push_integer(out, host, o.integer())
    } else {
        push_pointer(out, host, o)
    }
}
