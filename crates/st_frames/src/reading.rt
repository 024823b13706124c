ghost use Rattle.std.specs.Prelude.{◌≡◌, ◌≤◌, ◌≤ℤ◌, ◌+ℤ◌, pos, negsuc, true, Ok, Err, IfOk, IfErr, IfSome};
ghost use Rattle.st_model.specs.{Values.word, Machine.is_there};
ghost use Rattle.st_model.specs.Steps.{are_there, fetch_field, fetch_integer, count_fields};
ghost use Rattle.st_model.specs.Contexts.{home_of, stack_place, fetch_stack_pointer, context_registers, fetch_context_registers};
ghost use Rattle.st_model.specs.inside.Calls.{Reads, itself};
ghost use Rattle.st_frames.specs.inside.Rows.{fetched_in};

use crate::context::home_of;
use crate::fetched::Fetched;
use crate::fetching::{fetch_integer, integer_or_die};
use st_memory::Objects;
use st_model::{Dead, Word};

/// What a context and its home keep of the registers, as it stands in their fields.
#[derive(Clone, Copy)]
struct Kept {
    /// The home context.
    home: Word,
    /// Field 3 of the home context, its method.
    method: Word,
    /// Field 5 of the home context, its receiver.
    receiver: Word,
    /// Field 1 of the context.
    instruction_pointer: Word,
    /// Field 2 of the context.
    stack_pointer: Word,
    /// How many fields the context has.
    count: u32,
}

/// The stack pointer of a context with so many fields, which keeps it less 5: from 5 to its last field, and at most 16388.
#[inline(always)]
#[tactic(auto, using(st_model::proofs::Runs::runs), unfolding(st_model::specs::Contexts::stack_place))]
fn stack_place<O: Objects>(_m: &O, _context: Word, stored: i32, fields: u32) -> Result<u32, Dead>
    requires count { Reads (count_fields O.names (word _context)) itself (O.table _m.now) (Ok fields) }
    requires low { negsuc 16383 ≤ℤ stored }
    requires high { stored ≤ℤ pos 16383 }
    ensures place { Reads (stack_place O.names (word _context) (stored +ℤ pos 5)) itself
        (O.table _m.now) result }
    ensures low { IfOk result (λ n. 5 ≤ n) }
    ensures high { IfOk result (λ n. n ≤ 16388) }
{
    if stored < 0 {
        return Err(Dead::Sp);
    }
    let sp = stored as u32 + 5;
    if 16388 < sp {
        return Err(Dead::Sp);
    }
    if fields <= sp {
        return Err(Dead::Sp);
    }
    Ok(sp)
}

/// The stack pointer of a context, from 5 to its last field and at most 16388.
#[tactic(auto, using(st_model::proofs::Runs::runs), unfolding(st_model::specs::Contexts::fetch_stack_pointer, st_model::specs::Contexts::stack_place))]
fn fetch_stack_pointer<O: Objects>(m: &O, context: Word) -> Result<u32, Dead>
    ensures place { Reads (fetch_stack_pointer O.names (word context)) itself (O.table m.now) result }
    ensures low { IfOk result (λ n. 5 ≤ n) }
    ensures high { IfOk result (λ n. n ≤ 16388) }
{
    let stored = fetch_integer(m, context, 2)?;
    if stored < -5 {
        return Err(Dead::Sp);
    }
    let fields = m.count_fields(context)?;
    stack_place(m, context, stored, fields)
}

/// The registers that a context gives, each field read by itself.
#[tactic(auto, using(st_model::proofs::Runs::runs), unfolding(st_model::specs::Contexts::context_registers))]
fn read_fields<O: Objects>(m: &O, context: Word) -> Result<Fetched, Dead>
    ensures { Reads (context_registers O.names (word context)) fetched_in (O.table m.now) result }
{
    let home = home_of(m, context)?;
    let method = m.fetch_field(home, 3)?;
    let receiver = m.fetch_field(home, 5)?;
    let ip = fetch_integer(m, context, 1)?;
    let sp = fetch_stack_pointer(m, context)?;
    Ok(Fetched {
        active: context,
        home,
        method,
        receiver,
        ip: ip - 1,
        sp,
    })
}

/// Whether all of them are there.
fn are_there<O: Objects>(m: &O, new: &Fetched) -> bool
    ensures { result ≡ are_there O.names (O.table m.now) (fetched_in new.now) }
{
    m.is_there(new.active)
        && m.is_there(new.home)
        && m.is_there(new.method)
        && m.is_there(new.receiver)
}

/// The registers that a context gives, each field read by itself, where all of them are there.
#[inline(never)]
#[tactic(auto, using(crate::proofs::Unfetched::fetches))]
fn read_by_fields<O: Objects>(m: &O, context: Word) -> Result<Fetched, Dead>
    ensures registers { IfOk result (λ new. Reads (context_registers O.names (word context)) fetched_in
        (O.table m.now) (Ok new)) }
    ensures there { IfOk result (λ new. are_there O.names (O.table m.now) (fetched_in new) ≡ true) }
    ensures dead { IfErr result (λ cause. Reads (fetch_context_registers O.names (word context)) itself
        (O.table m.now) (Err cause)) }
{
    let new = read_fields(m, context)?;
    if !are_there(m, &new) {
        return Err(Dead::Kind);
    }
    Ok(new)
}

/// What a context and its home keep, where both can be read at one look.
#[inline(always)]
#[tactic(auto, using(st_model::proofs::Runs::runs, crate::proofs::Homes::homes), unfolding(st_model::specs::Contexts::home_of))]
fn kept_registers<O: Objects>(m: &O, context: Word) -> Option<Kept>
    ensures home { IfSome result (λ kept. Reads (home_of O.names (word context)) word
        (O.table m.now) (Ok kept.home)) }
    ensures method { IfSome result (λ kept. Reads (fetch_field O.names (word kept.home) 3) word
        (O.table m.now) (Ok kept.method)) }
    ensures receiver { IfSome result (λ kept. Reads (fetch_field O.names (word kept.home) 5) word
        (O.table m.now) (Ok kept.receiver)) }
    ensures instruction_pointer { IfSome result (λ kept. Reads (fetch_field O.names (word context) 1) word
        (O.table m.now) (Ok kept.instruction_pointer)) }
    ensures stack_pointer { IfSome result (λ kept. Reads (fetch_field O.names (word context) 2) word
        (O.table m.now) (Ok kept.stack_pointer)) }
    ensures count { IfSome result (λ kept. Reads (count_fields O.names (word context)) itself
        (O.table m.now) (Ok kept.count)) }
    ensures active_there { IfSome result (λ kept. is_there O.names (O.table m.now) (word context) ≡ true) }
    ensures home_there { IfSome result (λ kept. is_there O.names (O.table m.now) (word kept.home) ≡ true) }
    ensures method_there { IfSome result (λ kept. is_there O.names (O.table m.now) (word kept.method)
        ≡ true) }
    ensures receiver_there { IfSome result (λ kept. is_there O.names (O.table m.now) (word kept.receiver)
        ≡ true) }
{
    let own = m.context_fields(context)?;
    if !own.method.is_small() {
        return Some(Kept {
            home: context,
            method: own.method,
            receiver: own.receiver,
            instruction_pointer: own.instruction_pointer,
            stack_pointer: own.stack_pointer,
            count: own.count,
        });
    }
    let home = m.context_fields(own.receiver)?;
    Some(Kept {
        home: own.receiver,
        method: home.method,
        receiver: home.receiver,
        instruction_pointer: own.instruction_pointer,
        stack_pointer: own.stack_pointer,
        count: own.count,
    })
}

/// The integer that field i of a context holds, whose word this is.
#[inline(always)]
#[tactic(auto, using(st_model::proofs::Runs::runs), unfolding(st_model::specs::Steps::fetch_integer))]
fn kept_integer<O: Objects>(_m: &O, _context: Word, _i: u32, x: Word) -> Result<i32, Dead>
    requires { Reads (fetch_field O.names (word _context) _i) word (O.table _m.now) (Ok x) }
    ensures integer { Reads (fetch_integer O.names (word _context) _i) itself (O.table _m.now) result }
    ensures low { IfOk result (λ n. negsuc 16383 ≤ℤ n) }
    ensures high { IfOk result (λ n. n ≤ℤ pos 16383) }
{
    integer_or_die(x)
}

/// The stack pointer of a context, of what it keeps.
#[inline(always)]
#[tactic(auto, using(st_model::proofs::Runs::runs), unfolding(st_model::specs::Contexts::fetch_stack_pointer))]
fn kept_stack_pointer<O: Objects>(m: &O, context: Word, kept: &Kept) -> Result<u32, Dead>
    requires stack_pointer { Reads (fetch_field O.names (word context) 2) word
        (O.table m.now) (Ok kept.now.stack_pointer) }
    requires count { Reads (count_fields O.names (word context)) itself (O.table m.now) (Ok kept.now.count) }
    ensures place { Reads (fetch_stack_pointer O.names (word context)) itself (O.table m.now) result }
    ensures low { IfOk result (λ n. 5 ≤ n) }
    ensures high { IfOk result (λ n. n ≤ 16388) }
{
    let stored = kept_integer(m, context, 2, kept.stack_pointer)?;
    stack_place(m, context, stored, kept.count)
}

/// The registers of a context, of what it and its home keep.
#[inline(always)]
#[tactic(auto, using(st_model::proofs::Runs::runs, crate::proofs::There::all_four), unfolding(st_model::specs::Contexts::context_registers))]
fn read_kept<O: Objects>(m: &O, context: Word, kept: &Kept) -> Result<Fetched, Dead>
    requires home { Reads (home_of O.names (word context)) word (O.table m.now) (Ok kept.now.home) }
    requires method { Reads (fetch_field O.names (word kept.now.home) 3) word
        (O.table m.now) (Ok kept.now.method) }
    requires receiver { Reads (fetch_field O.names (word kept.now.home) 5) word
        (O.table m.now) (Ok kept.now.receiver) }
    requires instruction_pointer { Reads (fetch_field O.names (word context) 1) word
        (O.table m.now) (Ok kept.now.instruction_pointer) }
    requires stack_pointer { Reads (fetch_field O.names (word context) 2) word
        (O.table m.now) (Ok kept.now.stack_pointer) }
    requires count { Reads (count_fields O.names (word context)) itself (O.table m.now) (Ok kept.now.count) }
    requires active_there { is_there O.names (O.table m.now) (word context) ≡ true }
    requires home_there { is_there O.names (O.table m.now) (word kept.now.home) ≡ true }
    requires method_there { is_there O.names (O.table m.now) (word kept.now.method) ≡ true }
    requires receiver_there { is_there O.names (O.table m.now) (word kept.now.receiver) ≡ true }
    ensures registers { Reads (context_registers O.names (word context)) fetched_in (O.table m.now) result }
    ensures there { IfOk result (λ new. are_there O.names (O.table m.now) (fetched_in new) ≡ true) }
{
    let ip = kept_integer(m, context, 1, kept.instruction_pointer)?;
    let sp = kept_stack_pointer(m, context, kept)?;
    Ok(Fetched {
        active: context,
        home: kept.home,
        method: kept.method,
        receiver: kept.receiver,
        ip: ip - 1,
        sp,
    })
}

/// The registers that a context gives, where all of them are there.
#[inline(always)]
#[tactic(auto, using(crate::proofs::Unfetched::fetches))]
pub fn read_registers<O: Objects>(m: &O, context: Word) -> Result<Fetched, Dead>
    ensures registers { IfOk result (λ new. Reads (context_registers O.names (word context)) fetched_in
        (O.table m.now) (Ok new)) }
    ensures there { IfOk result (λ new. are_there O.names (O.table m.now) (fetched_in new) ≡ true) }
    ensures dead { IfErr result (λ cause. Reads (fetch_context_registers O.names (word context)) itself
        (O.table m.now) (Err cause)) }
{
    match kept_registers(m, context) {
        Some(kept) => read_kept(m, context, &kept),
        None => read_by_fields(m, context),
    }
}
