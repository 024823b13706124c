ghost use Rattle.std.specs.Prelude.{◌≡◌, ◌<◌, ◌≤◌, ◌+◌};
ghost use Rattle.st_model.specs.Values.{word};
ghost use Rattle.st_model.specs.Sends.{not_understood, send_from, send, class_above, send_to_super, special_send, call_of};
ghost use Rattle.st_frames.specs.inside.Rows.{RowReads, RowDoes, Takes, send_changes};

use crate::finding::find_method;
use crate::messages::replace_by_message;
use crate::sent::Sent;
use st_frames::{Registers, fetch_integer, page, under};
use st_memory::Objects;
use st_model::{Call, Dead, PageObject, Word};

/// The message isn't understood: the method for doesNotUnderstand: is called with a Message as its argument. Dead without one.
#[tactic(auto, using(st_frames::proofs::Doing::rows), unfolding(st_model::specs::Sends::not_understood, st_model::specs::Sends::call_not_understood))]
pub fn not_understood<O: Objects>(m: &mut O, r: &mut Registers, sent: Sent) -> Result<Call, Dead>
    requires room { send_changes ≤ O.room m.old }
    ensures does { RowDoes O.Objects.own
        (not_understood O.names (word sent.class) (word sent.selector) sent.arguments)
        call_of m.old r.old result m.new r.new }
    ensures takes { Takes O.Objects.own send_changes m.old m.new }
{
    let understand = page(m, PageObject::NotUnderstood);
    match find_method(m, r, sent.class, understand)? {
        Some(method) => {
            replace_by_message(m, r, sent)?;
            Ok(Call {
                method,
                arguments: 1,
            })
        }
        None => Err(Dead::Unanswered),
    }
}

/// Sends a message: the method is called, if there is one.
#[inline(always)]
#[tactic(auto, using(st_frames::proofs::Doing::rows), unfolding(st_model::specs::Sends::send_from, st_model::specs::Sends::call_found))]
fn send_from<O: Objects>(m: &mut O, r: &mut Registers, sent: Sent) -> Result<Call, Dead>
    requires room { send_changes ≤ O.room m.old }
    ensures does { RowDoes O.Objects.own
        (send_from O.names (word sent.class) (word sent.selector) sent.arguments)
        call_of m.old r.old result m.new r.new }
    ensures takes { Takes O.Objects.own send_changes m.old m.new }
{
    match find_method(m, r, sent.class, sent.selector)? {
        Some(method) => Ok(Call {
            method,
            arguments: sent.arguments,
        }),
        None => not_understood(m, r, sent),
    }
}

/// Sends the selector with n arguments to the word n words below the top.
#[inline(always)]
#[tactic(auto, using(st_frames::proofs::Doing::rows), unfolding(st_model::specs::Sends::send))]
pub fn send<O: Objects>(m: &mut O, r: &mut Registers, selector: Word, n: u32) -> Result<Call, Dead>
    requires few { n < 16384 }
    requires room { send_changes ≤ O.room m.old }
    ensures does { RowDoes O.Objects.own (send O.names (word selector) n)
        call_of m.old r.old result m.new r.new }
    ensures takes { Takes O.Objects.own send_changes m.old m.new }
{
    let receiver = under(m, r, n)?;
    let class = m.fetch_class(receiver)?;
    let sent = Sent {
        class,
        selector,
        arguments: n,
    };
    send_from(m, r, sent)
}

/// The superclass of the class of the method that runs.
#[tactic(auto, using(st_frames::proofs::Doing::rows), unfolding(st_model::specs::Sends::class_above))]
fn class_above<O: Objects>(m: &O, r: &Registers) -> Result<Word, Dead>
    ensures does { RowReads O.Objects.own (class_above O.names) word m.now r.now result }
{
    let association = m.literal_from_last(r.method, 0)?;
    let class = m.fetch_field(association, 1)?;
    m.fetch_field(class, 0)
}

/// Sends the selector with n arguments to super.
#[tactic(auto, using(st_frames::proofs::Doing::rows), unfolding(st_model::specs::Sends::send_to_super))]
pub fn send_to_super<O: Objects>(
    m: &mut O,
    r: &mut Registers,
    selector: Word,
    n: u32,
) -> Result<Call, Dead>
    requires few { n < 16384 }
    requires room { send_changes ≤ O.room m.old }
    ensures does { RowDoes O.Objects.own (send_to_super O.names (word selector) n)
        call_of m.old r.old result m.new r.new }
    ensures takes { Takes O.Objects.own send_changes m.old m.new }
{
    under(m, r, n)?;
    let class = class_above(m, r)?;
    let sent = Sent {
        class,
        selector,
        arguments: n,
    };
    send_from(m, r, sent)
}

/// Sends the special selector of this number.
#[tactic(auto, using(st_frames::proofs::Doing::rows), unfolding(st_model::specs::Sends::special_send, st_model::specs::Sends::argument_count))]
pub fn special_send<O: Objects>(m: &mut O, r: &mut Registers, k: u32) -> Result<Call, Dead>
    requires number { k < 32 }
    requires room { send_changes ≤ O.room m.old }
    ensures does { RowDoes O.Objects.own (special_send O.names k) call_of m.old r.old result m.new r.new }
    ensures takes { Takes O.Objects.own send_changes m.old m.new }
{
    let selectors = page(m, PageObject::Selectors);
    let selector = m.fetch_field(selectors, 2 * k)?;
    let count = fetch_integer(m, selectors, 2 * k + 1)?;
    if count < 0 {
        return Err(Dead::Field);
    }
    send(m, r, selector, count as u32)
}
