// The lines of the stack.
ghost use Rattle.std.specs.{Prelude.{◌≡◌, ◌≤◌, length, IfOk, OnOk}, List.flat_map};
ghost use Rattle.st_host.specs.{Counts.HasCause, Runs.SaysAll, inside.Telling.Says};
ghost use Rattle.st_model.specs.Values.{value};
ghost use Rattle.st_call.specs.inside.Saying.{Pushes};
ghost use Rattle.st_debug.specs.Stack.{calls, frame_line, stack_text};

use crate::context::call_at;
use st_call::{Output, Pushed, push_line, push_values_line};
use st_frames::Frame;
use st_host::{Host, SayFault};
use st_memory::Memory;
use st_model::Oop;

/// The most contexts that are shown.
const MOST: u32 = 100;

/// How many contexts the stack has from this one on, at most so many.
fn count_calls<M: Memory>(m: &M, active: Oop, most: u32) -> u32
    ensures { result ≡ length (calls (M.view m.now).objects most (value active)) }
{
    let mut context = active;
    let mut count = 0;
    'contexts: while count < most {
        match call_at(m, context) {
            Some(call) => context = call.sender,
            None => return count,
        }
        count += 1;
    }
    most
}

/// Adds the lines of the contexts from this one on, at most so many.
fn push_calls<H: Host, M: Memory>(
    out: &mut Output,
    host: &mut H,
    m: &M,
    active: Oop,
    most: u32,
) -> Pushed
    ensures { let cs = calls (M.view m.now).objects most (value active) in
        Pushes H.Host.own (flat_map frame_line cs) host.old host.new out.old out.new result }
{
    let mut context = active;
    let mut count = 0;
    'contexts: while count < most {
        let Some(call) = call_at(m, context) else {
            return Ok(());
        };
        push_values_line(out, host, b"frame", &[call.context, call.method])?;
        context = call.sender;
        count += 1;
    }
    Ok(())
}

/// Says how many contexts the stack has, at most 100, and the line of each: the active one, the one that it returns to, and so on, up
/// to the first word that is no context. It answers how many there are.
pub fn frames<M: Memory, H: Host>(m: &M, f: &Frame, host: &mut H) -> Result<u32, SayFault>
    ensures count { IfOk result (λ n. n ≡ length (calls (M.view m.now).objects 100 (value f.now.active))) }
    ensures all { let text = stack_text (M.view m.now).objects (value f.now.active) in
        OnOk result (SaysAll H.Host.own text host.old host.new) }
    ensures says { let text = stack_text (M.view m.now).objects (value f.now.active) in
        Says H.Host.own text host.old host.new }
    ensures cause { HasCause (H.say_faults host.old) (H.say_faults host.new) result }
{
    let mut out = Output::new();
    let count = count_calls(m, f.active, MOST);
    push_line(&mut out, host, b"stack", &[count])?;
    push_calls(&mut out, host, m, f.active, MOST)?;
    out.finish(host)?;
    Ok(count)
}
