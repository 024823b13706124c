//! Messages as they are read.

ghost use Rattle.std.specs.Prelude.{◌≡◌, ◌++◌, ◌∷◌, [], IfOk, OnOk};
ghost use Rattle.st_scan.specs.Views.{expression_view, messages_view, send};
ghost use Rattle.st_emit.specs.{Nodes.is_above, Selectors.{colons, arity}};
ghost use Rattle.st_expression_stack.specs.{Items.again, Messages.{to_receiver, sends, doubled, popped}};
ghost use Rattle.st_expression_stack.specs.inside.Sent.{sent_by, finished_by};
ghost use Rattle.st_expression_stack.specs.inside.Stacks.{stack_view, piece_view, item_view, Acts, ArgumentsTaken};

use crate::item::{Item, NO_ARGUMENTS, Piece, Stack, is_low, pop_piece};
use crate::make::received;
use st_emit::{Lookup, sum};
use st_scan::{Expression, ExpressionList, Message, MessageList};
use std::alloc::{AllocError, Global};

/// The arguments of a message, with the least number of a block argument within and one more than their height.
#[derive(Drop)]
pub struct Arguments {
    list: ExpressionList,
    least: usize,
    height: usize,
}

/// A message as it is read, with the least number of a block argument within and its height.
#[derive(Drop)]
pub struct Received {
    pub message: Message,
    pub least: usize,
    pub height: usize,
}

/// How many colons a text has.
fn colons(text: &[u8]) -> Result<usize, AllocError>
    ensures { IfOk result (λ n. n ≡ colons text.now) }
{
    let mut count: usize = 0;
    for byte in text {
        if *byte == 58 {
            count = count.checked_add(1).ok_or(AllocError)?;
        }
    }
    Ok(count)
}

/// How many arguments a selector has.
pub fn arity(selector: &[u8]) -> Result<usize, AllocError>
    ensures { IfOk result (λ n. n ≡ arity selector.now) }
{
    match selector {
        [] => Ok(0),
        [first, ..] => if first.is_ascii_alphabetic() {
            colons(selector)
        } else {
            Ok(1)
        },
    }
}

/// The last pieces as arguments.
fn take_arguments(
    alloc: Global,
    count: usize,
    items: &mut Stack,
) -> Result<Option<Arguments>, AllocError>
    ensures { IfOk result (ArgumentsTaken count items.old.items items.new.items) }
{
    let mut arguments = Arguments {
        list: Vec::new(alloc),
        least: NO_ARGUMENTS,
        height: 0,
    };
    for i in 0..count {
        let Some(piece) = pop_piece(items)? else {
            return Ok(None);
        };
        let height = sum(1, piece.height)?;
        arguments.list.push(piece.tree)?;
        arguments.least = arguments.least.min(piece.least);
        arguments.height = arguments.height.max(height);
    }
    arguments.list.reverse();
    Ok(Some(arguments))
}

/// A receiver of messages, with one more message.
fn to_receiver(
    alloc: Global,
    lookup: Lookup,
    receiver: Piece,
    least: usize,
    height: usize,
) -> Result<Piece, AllocError>
    ensures { IfOk result
        (λ p. piece_view p ≡ to_receiver (is_above lookup) least height (piece_view receiver)) }
{
    let tree = received(alloc, lookup, receiver.tree)?;
    Ok(Piece {
        returns: receiver.returns,
        tree,
        start: receiver.start,
        least: receiver.least.min(least),
        height: receiver.height.max(height),
    })
}

/// Messages to a receiver.
fn sent(alloc: Global, receiver: Piece, messages: MessageList) -> Result<Piece, AllocError>
    ensures { IfOk result (λ p. piece_view p ≡ record (piece_view receiver) {
      tree = send (expression_view receiver.tree) (messages_view messages.items);
    }) }
{
    let tree = Expression::send(alloc, receiver.tree, messages)?;
    Ok(Piece {
        returns: receiver.returns,
        tree,
        start: receiver.start,
        least: receiver.least,
        height: receiver.height,
    })
}

/// A message of a cascade, where its receiver is what was below.
fn cascaded(
    alloc: Global,
    lookup: Lookup,
    message: Received,
    below: Item,
    items: &mut Stack,
) -> Result<bool, AllocError>
    ensures { Acts result items.new (sent_by lookup message
        (again ∷ stack_view (items.old.items ++ below ∷ []))) }
{
    match below {
        Item::Cascade(receiver, earlier) => {
            let receiver = to_receiver(alloc, lookup, receiver, message.least, message.height)?;
            let mut messages = earlier;
            messages.push(message.message)?;
            items.push(Item::Cascade(receiver, messages))?;
            items.push(Item::Answered)?;
            Ok(true)
        }
        _other => Ok(false),
    }
}

/// A message to the receiver of a cascade, which lies below.
fn cascaded_below(
    alloc: Global,
    lookup: Lookup,
    message: Received,
    items: &mut Stack,
) -> Result<bool, AllocError>
    ensures { Acts result items.new (sent_by lookup message (again ∷ stack_view items.old.items)) }
{
    match items.pop() {
        Some(below) => cascaded(alloc, lookup, message, below, items),
        None => Ok(false),
    }
}

/// A message to a piece: messages so far, and this one.
fn finished(
    alloc: Global,
    lookup: Lookup,
    receiver: Piece,
    earlier: MessageList,
    message: Received,
) -> Result<Item, AllocError>
    ensures { IfOk result (λ x. item_view x ≡ finished_by lookup receiver earlier message) }
{
    let receiver = to_receiver(alloc, lookup, receiver, message.least, message.height)?;
    let mut messages = earlier;
    messages.push(message.message)?;
    Ok(Item::Piece(sent(alloc, receiver, messages)?))
}

/// A message to what was on top: to a piece, or as one of a cascade.
fn sent_to_item(
    alloc: Global,
    lookup: Lookup,
    message: Received,
    top: Item,
    items: &mut Stack,
) -> Result<bool, AllocError>
    ensures { Acts result items.new (sent_by lookup message (stack_view (items.old.items ++ top ∷ []))) }
{
    match top {
        Item::Piece(receiver) => {
            items.push(finished(alloc, lookup, receiver, Vec::new(alloc), message)?)?;
            Ok(true)
        }
        Item::Cascade(receiver, earlier) => {
            items.push(finished(alloc, lookup, receiver, earlier, message)?)?;
            Ok(true)
        }
        Item::Again => cascaded_below(alloc, lookup, message, items),
        _other => Ok(false),
    }
}

/// A message to what lies on top.
fn sent_to(
    alloc: Global,
    lookup: Lookup,
    message: Received,
    items: &mut Stack,
) -> Result<bool, AllocError>
    ensures { Acts result items.new (sent_by lookup message (stack_view items.old.items)) }
{
    match items.pop() {
        Some(top) => sent_to_item(alloc, lookup, message, top, items),
        None => Ok(false),
    }
}

/// A send: as many pieces as the selector says are its arguments, if a text may have these.
pub fn sends(
    alloc: Global,
    lookup: Lookup,
    selector: &[u8],
    items: &mut Stack,
) -> Result<bool, AllocError>
    ensures { Acts result items.new (sends (is_above lookup) selector.now (stack_view items.old.items)) }
{
    let count = arity(selector)?;
    let Some(arguments) = take_arguments(alloc, count, items)? else {
        return Ok(false);
    };
    if !is_low(arguments.height) {
        return Ok(false);
    }
    let message = Received {
        message: Message {
            selector: selector.to_vec(alloc)?,
            arguments: arguments.list,
        },
        least: arguments.least,
        height: arguments.height,
    };
    sent_to(alloc, lookup, message, items)
}

/// What was on top once more, as the receiver of a cascade.
fn doubled_item(alloc: Global, top: Item, items: &mut Stack) -> Result<bool, AllocError>
    ensures { Acts result items.new (doubled (stack_view (items.old.items ++ top ∷ []))) }
{
    match top {
        Item::Piece(receiver) => {
            items.push(Item::Cascade(receiver, Vec::new(alloc)))?;
            items.push(Item::Again)?;
            Ok(true)
        }
        Item::Cascade(receiver, messages) => {
            items.push(Item::Cascade(receiver, messages))?;
            items.push(Item::Again)?;
            Ok(true)
        }
        _other => Ok(false),
    }
}

/// The top once more, as the receiver of a cascade.
pub fn doubled(alloc: Global, items: &mut Stack) -> Result<bool, AllocError>
    ensures { Acts result items.new (doubled (stack_view items.old.items)) }
{
    match items.pop() {
        Some(top) => doubled_item(alloc, top, items),
        None => Ok(false),
    }
}

/// What was on top is put back, but for the answer of a cascade's message.
fn popped_item(top: Item, items: &mut Stack) -> Result<(), AllocError>
    ensures { OnOk result (stack_view items.new.items ≡ popped (stack_view (items.old.items ++ top ∷ []))) }
{
    match top {
        Item::Answered => Ok(()),
        other => {
            items.push(other)?;
            Ok(())
        }
    }
}

/// A value that isn't used stays as a statement, but for the answer of a cascade's message.
pub fn popped(items: &mut Stack) -> Result<(), AllocError>
    ensures { OnOk result (stack_view items.new.items ≡ popped (stack_view items.old.items)) }
{
    match items.pop() {
        Some(top) => popped_item(top, items),
        None => Ok(()),
    }
}
