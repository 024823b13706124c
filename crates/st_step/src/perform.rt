ghost use Rattle.std.specs.Prelude.{◌<◌, ◌≤◌, ◌+◌, IfOk};
ghost use Rattle.st_model.specs.{Values.word, Sends.call_of};
ghost use Rattle.st_model.specs.Executing.{respond, execute_by, takes, drop_selector, spread_array, perform, primitive_perform, spreading, primitive_perform_with};
ghost use Rattle.st_model.specs.inside.Calls.{itself};
ghost use Rattle.st_step.specs.inside.Responding.{execute_sent, RowResponds, StaysIfFailed, number_changes};
ghost use Rattle.st_lookup.specs.inside.Places.{found_word};
ghost use Rattle.st_frames.specs.inside.Rows.{RowReads, RowDoes, RowEnds, Takes, send_changes, response_changes, execution_changes};

use crate::flags::{activated, by_flag};
use crate::numbers::respond;
use st_control::{Called, Sent, find_method, method_primitive, not_understood};
use st_frames::{Registers, RowEnd, check_class, drop_words, set_stack_pointer, top, under};
use st_memory::Objects;
use st_method::{Header, method_arguments};
use st_model::{Call, Dead, PageObject, Word};

/// Whether the method takes n arguments, where one was found; where none was, whatever is given is taken.
#[tactic(auto, using(st_frames::proofs::Doing::rows), unfolding(st_model::specs::Executing::takes))]
fn takes<O: Objects>(m: &O, r: &Registers, n: u32, found: Option<Word>) -> Result<bool, Dead>
    ensures does { RowReads O.Objects.own (takes O.names n (found_word found)) itself m.now r.now result }
{
    match found {
        None => Ok(true),
        Some(method) => {
            let taken = method_arguments(m, method)?;
            Ok(taken == n)
        }
    }
}

/// Executes the method that primitive 83 or 84 performs: of its primitives these two fail.
#[tactic(auto, using(st_frames::proofs::Doing::rows), unfolding(st_model::specs::Executing::execute_by, st_model::specs::Executing::respond_by_extension, st_model::specs::Executing::or_activate))]
fn execute_performed<O: Objects>(m: &mut O, r: &mut Registers, call: Call) -> Result<RowEnd, Dead>
    requires room { response_changes ≤ O.room m.old }
    ensures does { RowEnds O.Objects.own (execute_by O.names (respond O.names) (call_of call))
        m.old r.old result m.new r.new }
    ensures takes { Takes O.Objects.own response_changes m.old m.new }
{
    let header = Header(m.method_header(call.method)?);
    let called = Called { call, header };
    if header.flag() != 7 {
        return by_flag(m, r, called);
    }
    let primitive = method_primitive(m, r, call.method)?;
    match respond(m, r, primitive, call.arguments)? {
        Some(end) => Ok(end),
        None => activated(m, r, called),
    }
}

/// Executes the method with the n arguments at the top, or tells that the selector isn't understood.
#[tactic(auto, using(st_frames::proofs::Doing::rows), unfolding(st_model::specs::Executing::execute_found))]
fn execute_found<O: Objects>(
    m: &mut O,
    r: &mut Registers,
    sent: Sent,
    found: Option<Word>,
) -> Result<RowEnd, Dead>
    requires room { send_changes + response_changes ≤ O.room m.old }
    ensures does { RowEnds O.Objects.own (execute_sent O.names sent found) m.old r.old result m.new r.new }
    ensures takes { Takes O.Objects.own (send_changes + response_changes) m.old m.new }
{
    match found {
        Some(method) => execute_performed(
            m,
            r,
            Call {
                method,
                arguments: sent.arguments,
            },
        ),
        None => {
            let call = not_understood(m, r, sent)?;
            execute_performed(m, r, call)
        }
    }
}

/// The selector leaves, which has n arguments above it.
#[tactic(auto, using(st_frames::proofs::Doing::rows), unfolding(st_model::specs::Executing::drop_selector))]
fn drop_selector<O: Objects>(m: &mut O, r: &mut Registers, n: u32) -> Result<(), Dead>
    requires few { n < 16384 }
    requires room { 1 ≤ O.room m.old }
    ensures does { RowDoes O.Objects.own (drop_selector O.names n) itself m.old r.old result m.new r.new }
    ensures takes { Takes O.Objects.own 1 m.old m.new }
{
    let from = (r.sp + 1).saturating_sub(n);
    m.transfer(n, r.active, from, r.active, r.sp.saturating_sub(n))?;
    drop_words(m, r, 1)
}

/// How many fields an Array has, where the active context has room for them in place of selector and Array.
#[tactic(auto, using(st_frames::proofs::Doing::checks), unfolding(st_model::specs::Executing::spreading))]
fn spreading<O: Objects>(m: &O, r: &Registers, array: Word) -> Result<u32, Dead>
    ensures does { RowReads O.Objects.own (spreading O.names (word array)) itself m.now r.now result }
    ensures size { IfOk result (λ n. n ≤ 65533) }
{
    check_class(m, r, array, PageObject::ArrayClass)?;
    let n = m.count_fields(array)?;
    let fields = m.count_fields(r.active)?;
    if fields <= r.sp - 2 + n {
        return Err(Dead::Sp);
    }
    Ok(n)
}

/// The n fields of an Array take the places of selector and Array.
#[tactic(auto, using(st_frames::proofs::Doing::checks), unfolding(st_model::specs::Executing::spread_array))]
fn spread_array<O: Objects>(m: &mut O, r: &mut Registers, array: Word, n: u32) -> Result<(), Dead>
    requires size { n ≤ 65533 }
    requires above { 7 ≤ r.old.sp }
    requires room { 1 ≤ O.room m.old }
    ensures does { RowDoes O.Objects.own (spread_array O.names (word array) n)
        itself m.old r.old result m.new r.new }
    ensures few { IfOk result (λ u. n < 16384) }
    ensures takes { Takes O.Objects.own 1 m.old m.new }
{
    let end = r.sp - 2 + n;
    if 16388 < end {
        return Err(Dead::Sp);
    }
    m.transfer(n, array, 0, r.active, r.sp - 1)?;
    set_stack_pointer(m, r, end);
    Ok(())
}

/// The selector is performed with the n arguments above it; none says that its method doesn't take as many, so that the
/// primitive fails.
#[tactic(auto, using(st_frames::proofs::Doing::rows), unfolding(st_model::specs::Executing::perform, st_model::specs::Executing::perform_found, st_model::specs::Executing::succeeds))]
fn perform_above<O: Objects>(
    m: &mut O,
    r: &mut Registers,
    receiver: Word,
    selector: Word,
    n: u32,
) -> Result<Option<RowEnd>, Dead>
    requires few { n < 16384 }
    requires room { execution_changes ≤ O.room m.old }
    ensures does { RowResponds O.Objects.own
        (perform O.names (word receiver) (word selector) n (drop_selector O.names n))
        m.old r.old result m.new r.new }
    ensures takes { Takes O.Objects.own (number_changes execution_changes result) m.old m.new }
    ensures still { StaysIfFailed O.Objects.own m.old r.old result m.new r.new }
{
    let class = m.fetch_class(receiver)?;
    let found = find_method(m, r, class, selector)?;
    if !takes(m, r, n, found)? {
        return Ok(None);
    }
    drop_selector(m, r, n)?;
    let sent = Sent {
        class,
        selector,
        arguments: n,
    };
    let end = execute_found(m, r, sent, found)?;
    Ok(Some(end))
}

/// Tries primitive 83 with n + 1 arguments: the first is performed with the others.
#[tactic(auto, using(st_frames::proofs::Doing::rows), unfolding(st_model::specs::Executing::primitive_perform))]
pub fn primitive_perform<O: Objects>(
    m: &mut O,
    r: &mut Registers,
    n: u32,
) -> Result<Option<RowEnd>, Dead>
    requires few { n < 16383 }
    requires room { execution_changes ≤ O.room m.old }
    ensures does { RowResponds O.Objects.own (primitive_perform O.names n) m.old r.old result m.new r.new }
    ensures takes { Takes O.Objects.own (number_changes execution_changes result) m.old m.new }
    ensures still { StaysIfFailed O.Objects.own m.old r.old result m.new r.new }
{
    let receiver = under(m, r, n + 1)?;
    let selector = under(m, r, n)?;
    perform_above(m, r, receiver, selector, n)
}

/// The selector is performed with the n fields of an Array, which stands above it; none says that its method doesn't take as
/// many.
#[tactic(auto, using(st_frames::proofs::Doing::rows), unfolding(st_model::specs::Executing::perform, st_model::specs::Executing::perform_found, st_model::specs::Executing::succeeds))]
fn perform_fields<O: Objects>(
    m: &mut O,
    r: &mut Registers,
    receiver: Word,
    selector: Word,
    array: Word,
    n: u32,
) -> Result<Option<RowEnd>, Dead>
    requires size { n ≤ 65533 }
    requires above { 7 ≤ r.old.sp }
    requires room { execution_changes ≤ O.room m.old }
    ensures does { RowResponds O.Objects.own
        (perform O.names (word receiver) (word selector) n (spread_array O.names (word array) n))
        m.old r.old result m.new r.new }
    ensures takes { Takes O.Objects.own (number_changes execution_changes result) m.old m.new }
    ensures still { StaysIfFailed O.Objects.own m.old r.old result m.new r.new }
{
    let class = m.fetch_class(receiver)?;
    let found = find_method(m, r, class, selector)?;
    if !takes(m, r, n, found)? {
        return Ok(None);
    }
    spread_array(m, r, array, n)?;
    let sent = Sent {
        class,
        selector,
        arguments: n,
    };
    let end = execute_found(m, r, sent, found)?;
    Ok(Some(end))
}

/// Tries primitive 84: the first argument is performed with the fields of the second.
#[tactic(auto, using(st_frames::proofs::Doing::rows), unfolding(st_model::specs::Executing::primitive_perform_with))]
pub fn primitive_perform_with<O: Objects>(
    m: &mut O,
    r: &mut Registers,
) -> Result<Option<RowEnd>, Dead>
    requires room { execution_changes ≤ O.room m.old }
    ensures does { RowResponds O.Objects.own (primitive_perform_with O.names) m.old r.old result m.new r.new }
    ensures takes { Takes O.Objects.own (number_changes execution_changes result) m.old m.new }
    ensures still { StaysIfFailed O.Objects.own m.old r.old result m.new r.new }
{
    let receiver = under(m, r, 2)?;
    let selector = under(m, r, 1)?;
    let array = top(m, r)?;
    match spreading(m, r, array) {
        Ok(n) => perform_fields(m, r, receiver, selector, array, n),
        Err(_) => Ok(None),
    }
}
