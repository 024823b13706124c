ghost use Rattle.std.specs.Prelude.{◌≡◌};
ghost use Rattle.st_model.specs.Text.{pointers_text, registers_text, input_text, held_text, used_text, state_text};
ghost use Rattle.st_frames.specs.inside.Shown.{IsFrame, IsReady, registers_of, shown};
ghost use Rattle.st_call.specs.inside.Saying.{Pushes};

use crate::lines::{push_line, push_values, push_values_line};
use crate::objects::push_objects;
use crate::output::{Output, Pushed};
use crate::report_words::{push_integer, push_number};
use st_frames::{Frame, World};
use st_host::Host;
use st_memory::Memory;
use st_model::RootPlace;

/// Adds an instruction pointer and a stack pointer, and the line's end.
fn push_pointers<H: Host>(out: &mut Output, host: &mut H, ip: i32, sp: u32) -> Pushed
    ensures { Pushes H.Host.own (pointers_text ip sp) host.old host.new out.old out.new result }
{
    push_integer(out, host, ip)?;
    push_number(out, host, sp)?;
    out.push(host, b"\n")
}

/// Adds the line of the registers; the instruction and stack pointers as a context stores them.
pub fn push_registers<H: Host, M: Memory>(
    out: &mut Output,
    host: &mut H,
    m: &M,
    f: &Frame,
) -> Pushed
    requires { IsFrame (M.view m.now) f.now }
    ensures { let text = registers_text (registers_of f.now) in
        Pushes H.Host.own text host.old host.new out.old out.new result }
{
    out.push(host, b"registers")?;
    push_values(out, host, &[f.active, f.home, f.method, f.receiver])?;
    push_pointers(out, host, f.ip + 1, f.sp - 5)
}

/// Adds the line of the input state: how many words wait and how many signals are pending, the mouse, and the clocks.
pub fn push_input<H: Host>(out: &mut Output, host: &mut H, w: &World) -> Pushed
    ensures { Pushes H.Host.own (input_text w.now) host.old host.new out.old out.new result }
{
    let numbers = [
        w.waiting_count(),
        w.pending_count(),
        u32::from(w.mouse_x()),
        u32::from(w.mouse_y()),
        w.second_clock(),
        w.millisecond_clock(),
    ];
    push_line(out, host, b"input", &numbers)
}

/// Adds the line of what is held.
pub fn push_held<H: Host, M: Memory>(out: &mut Output, host: &mut H, m: &M) -> Pushed
    ensures { let text = held_text (M.view m.now).held.devices in
        Pushes H.Host.own text host.old host.new out.old out.new result }
{
    let display = m.held(RootPlace::Display);
    let cursor = m.held(RootPlace::Cursor);
    let input = m.held(RootPlace::InputSemaphore);
    let timer = m.held(RootPlace::Timer);
    let low_space = m.held(RootPlace::LowSpace);
    push_values_line(
        out,
        host,
        b"held",
        &[display, cursor, input, timer, low_space],
    )
}

/// Adds the line of what is used.
pub fn push_used<H: Host, M: Memory>(out: &mut Output, host: &mut H, m: &M) -> Pushed
    ensures { let text = used_text (M.view m.now).objects in
        Pushes H.Host.own text host.old host.new out.old out.new result }
{
    let used = m.used();
    push_line(out, host, b"used", &[used.entries, used.words])
}

/// Adds the registers, the input state, what is held, what is used, and every object.
pub fn push_state<H: Host, M: Memory>(
    out: &mut Output,
    host: &mut H,
    m: &M,
    f: &Frame,
    w: &World,
) -> Pushed
    requires ready { IsReady (M.view m.now) f.now w.now }
    ensures { let text = state_text (shown (M.view m.now) f.now w.now) in
        Pushes H.Host.own text host.old host.new out.old out.new result }
{
    push_registers(out, host, m, f)?;
    push_input(out, host, w)?;
    push_held(out, host, m)?;
    push_used(out, host, m)?;
    push_objects(out, host, m)
}
