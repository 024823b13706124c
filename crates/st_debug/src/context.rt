// A context of the stack.
ghost use Rattle.std.specs.Prelude.{◌≡◌, ◌<◌, option_map};
ghost use Rattle.st_model.specs.Values.{value};
ghost use Rattle.st_debug.specs.Stack.{call_in, field_of, has_fields, home_in, method_in};
ghost use Rattle.st_debug.specs.inside.Calls.{call_of};

use st_memory::Memory;
use st_model::Oop;

/// The method of a context, and the context that it returns to.
#[derive(Clone, Copy)]
pub struct Call {
    /// The context.
    pub context: Oop,
    /// Field 3 of its home.
    pub method: Oop,
    /// Its field 0.
    pub sender: Oop,
}

/// Whether an object of kind Pointers with 6 fields or more is there.
fn has_fields<M: Memory>(m: &M, o: Oop) -> bool
    ensures { result ≡ has_fields (M.view m.now).objects (value o) }
{
    m.live(o) && m.kind(o).is_pointers() && m.size(o) >= 6
}

/// One of the first 6 fields of such an object.
#[tactic(auto, unfolding(crate::specs::Stack::field_of))]
fn field_of<M: Memory>(m: &M, o: Oop, i: u32) -> Option<Oop>
    requires { i < 6 }
    ensures { option_map value result ≡ field_of (M.view m.now).objects (value o) i }
{
    if has_fields(m, o) {
        Some(m.pointer(o, i))
    } else {
        None
    }
}

/// The home of a context: itself, or that of its block.
fn home_of<M: Memory>(m: &M, context: Oop) -> Option<Oop>
    ensures { option_map value result ≡ home_in (M.view m.now).objects (value context) }
{
    if field_of(m, context, 3)?.is_small() {
        field_of(m, context, 5)
    } else {
        Some(context)
    }
}

/// The method of a context's home.
#[tactic(auto, unfolding(crate::specs::Stack::method_in))]
fn method_of<M: Memory>(m: &M, context: Oop) -> Option<Oop>
    ensures { option_map value result ≡ method_in (M.view m.now).objects (value context) }
{
    field_of(m, home_of(m, context)?, 3)
}

/// A context with its method and its sender; none where it or its home hasn't the form of a context.
#[tactic(auto, unfolding(crate::specs::Stack::call_in))]
pub fn call_at<M: Memory>(m: &M, context: Oop) -> Option<Call>
    ensures { option_map call_of result ≡ call_in (M.view m.now).objects (value context) }
{
    let method = method_of(m, context)?;
    let sender = field_of(m, context, 0)?;
    Some(Call {
        context,
        method,
        sender,
    })
}
