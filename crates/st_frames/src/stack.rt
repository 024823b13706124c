ghost use Rattle.std.specs.Prelude.{◌≡◌, ℕ, Err, ◌<◌, ◌≤◌, ◌+◌, ◌≤ℤ◌, pos, negsuc, OnOk};
ghost use Rattle.st_model.specs.Values.{Value, word};
ghost use Rattle.st_model.specs.Steps.{put, push, top, pop, under, look_at_words, drop_words, jump, set_sp};
ghost use Rattle.st_model.specs.inside.Calls.{Reads, itself};
ghost use Rattle.st_frames.specs.inside.Rows.{RowReads, RowMoves, RowDoes, Takes};

use crate::registers::Registers;
use st_memory::Objects;
use st_model::{Dead, Word};

/// Why nothing is put in a place above 16388: the cause of which a count of the fields dies, else the place.
#[inline(never)]
fn fault_above<O: Objects>(m: &O, context: Word) -> Dead
    ensures { (at : ℕ) (x : Value) → 16388 < at → Reads (put O.names (word context) at x) itself
        (O.table m.now) (Err result) }
{
    match m.count_fields(context) {
        Ok(_) => Dead::Sp,
        Err(cause) => cause,
    }
}

/// Puts x in a place of a context's stack: within its fields, and at most 16388.
#[inline(always)]
#[tactic(auto, using(crate::proofs::Doing::rows, crate::proofs::Putting::puts))]
fn put<O: Objects>(m: &mut O, r: &Registers, context: Word, at: u32, x: Word) -> Result<(), Dead>
    requires room { 1 ≤ O.room m.old }
    ensures does { RowDoes O.Objects.own (put O.names (word context) at (word x))
        itself m.old r.now result m.new r.now }
    ensures high { OnOk result (at ≤ 16388) }
    ensures takes { Takes O.Objects.own 1 m.old m.new }
{
    if 16388 < at {
        return Err(fault_above(m, context));
    }
    match m.store_field(context, at, x) {
        Err(Dead::Field) => Err(Dead::Sp),
        done => done,
    }
}

/// Moves the top of the stack to a place of the active context.
#[inline(always)]
#[tactic(auto, unfolding(crate::specs::inside::Rows::row_state, st_model::specs::Steps::set_sp))]
pub fn set_stack_pointer<O: Objects>(m: &O, r: &mut Registers, sp: u32)
    requires low { 5 ≤ sp }
    requires high { sp ≤ 16388 }
    ensures does { RowMoves O.Objects.own (set_sp sp) itself m.now r.old (Ok tt) r.new }
{
    r.sp = sp;
}

/// Pushes x on the active context's stack.
#[inline(always)]
#[tactic(auto, using(crate::proofs::Doing::rows), unfolding(st_model::specs::Steps::push))]
pub fn push<O: Objects>(m: &mut O, r: &mut Registers, x: Word) -> Result<(), Dead>
    requires room { 1 ≤ O.room m.old }
    ensures does { RowDoes O.Objects.own (push O.names (word x)) itself m.old r.old result m.new r.new }
    ensures takes { Takes O.Objects.own 1 m.old m.new }
{
    put(m, r, r.active, r.sp + 1, x)?;
    set_stack_pointer(m, r, r.sp + 1);
    Ok(())
}

/// The word at the top of the stack.
#[inline(always)]
#[tactic(auto, using(crate::proofs::Doing::checks), unfolding(st_model::specs::Steps::top))]
pub fn top<O: Objects>(m: &O, r: &Registers) -> Result<Word, Dead>
    ensures does { RowReads O.Objects.own (top O.names) word m.now r.now result }
    ensures above { OnOk result (6 ≤ r.now.sp) }
{
    if r.sp < 6 {
        return Err(Dead::Sp);
    }
    m.fetch_field(r.active, r.sp)
}

/// The word k words below the top of the stack.
#[inline(always)]
#[tactic(auto, using(crate::proofs::Doing::checks), unfolding(st_model::specs::Steps::under))]
pub fn under<O: Objects>(m: &O, r: &Registers, k: u32) -> Result<Word, Dead>
    requires few { k < 32768 }
    ensures does { RowReads O.Objects.own (under O.names k) word m.now r.now result }
    ensures above { OnOk result (6 + k ≤ r.now.sp) }
{
    if r.sp <= 5 + k {
        return Err(Dead::Sp);
    }
    m.fetch_field(r.active, r.sp - k)
}

/// Looks at the top word and the n words below it.
#[inline(always)]
#[tactic(auto, using(crate::proofs::Doing::rows), unfolding(st_model::specs::Steps::look_at_words))]
pub fn look_at_words<O: Objects>(m: &O, r: &Registers, n: u32) -> Result<(), Dead>
    requires few { n < 32768 }
    ensures does { RowReads O.Objects.own (look_at_words O.names n) itself m.now r.now result }
{
    under(m, r, n)?;
    top(m, r)?;
    Ok(())
}

/// Pops n words that were looked at.
#[tactic(auto, using(crate::proofs::Doing::checks), unfolding(st_model::specs::Steps::drop_words))]
pub fn drop_words<O: Objects>(m: &O, r: &mut Registers, n: u32) -> Result<(), Dead>
    requires few { n < 32768 }
    ensures does { RowMoves O.Objects.own (drop_words n) itself m.now r.old result r.new }
{
    if r.sp < 5 + n {
        return Err(Dead::Sp);
    }
    set_stack_pointer(m, r, r.sp - n);
    Ok(())
}

/// Pops the word at the top of the stack, which stays in its field.
#[inline(always)]
#[tactic(auto, using(crate::proofs::Doing::rows), unfolding(st_model::specs::Steps::pop))]
pub fn pop<O: Objects>(m: &O, r: &mut Registers) -> Result<Word, Dead>
    ensures does { RowMoves O.Objects.own (pop O.names) word m.now r.old result r.new }
{
    let x = top(m, r)?;
    set_stack_pointer(m, r, r.sp - 1);
    Ok(x)
}

/// Moves the instruction pointer by d, to a place from 0 to 16382.
#[tactic(auto, using(crate::proofs::Doing::jumps), unfolding(st_model::specs::Steps::jump, crate::specs::inside::Rows::row_state))]
pub fn jump<O: Objects>(m: &O, r: &mut Registers, d: i32) -> Result<(), Dead>
    requires low { negsuc 1023 ≤ℤ d }
    requires high { d ≤ℤ pos 1023 }
    ensures does { RowMoves O.Objects.own (jump d) itself m.now r.old result r.new }
{
    let ip = r.ip + d;
    if ip < 0 {
        return Err(Dead::Ip);
    }
    if 16382 < ip {
        return Err(Dead::Ip);
    }
    r.ip = ip;
    Ok(())
}
