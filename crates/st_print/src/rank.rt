//! How loosely an expression binds.

ghost use Rattle.std.specs.Prelude.{◌≡◌};
ghost use Rattle.st_scan.specs.Views.{messages_view};
ghost use Rattle.st_scan.specs.inside.Chains.{link_view, links_view};
ghost use Rattle.st_print.specs.Printed.{is_loose, is_word, rank_of_messages, receiver_rank};
ghost use Rattle.st_print.specs.inside.Chained.{rank_of_link, inner_rank, wanted_by};
ghost use Rattle.st_print.specs.inside.Putting.{sent_rank};

use st_scan::{Expression, Link, Message};

/// What an expression is: a unary expression, as a primary is; a binary one; or any other, as an assignment, a keyword
/// expression and a cascade are.
#[derive(Clone, Copy)]
pub enum Rank {
    Unary,
    Binary,
    Any,
}

impl Rank {
    /// Whether an expression of another rank stands in parentheses where one of this rank is wanted.
    pub fn is_loose(self, made: Rank) -> bool
        ensures { result ≡ is_loose self made }
    {
        match (self, made) {
            (Rank::Any, _) => false,
            (Rank::Binary, Rank::Any) => true,
            (Rank::Binary, _) => false,
            (Rank::Unary, Rank::Unary) => false,
            (Rank::Unary, _) => true,
        }
    }
}

/// Whether a selector is a name or keywords.
pub fn is_word(selector: &[u8]) -> bool
    ensures { result ≡ is_word selector.now }
{
    matches!(selector, [first, ..] if first.is_ascii_alphabetic())
}

/// What one message makes.
fn rank_of_message(message: &Message) -> Rank
    ensures { result ≡ sent_rank message.now }
{
    match message.arguments.as_slice() {
        [] => Rank::Unary,
        [_, ..] => {
            if is_word(&message.selector) {
                Rank::Any
            } else {
                Rank::Binary
            }
        }
    }
}

/// What messages make.
fn rank_of_messages(messages: &[Message]) -> Rank
    ensures { result ≡ rank_of_messages (messages_view messages.now) }
{
    match messages {
        [] => Rank::Any,
        [message] => rank_of_message(message),
        [_, _, ..] => Rank::Any,
    }
}

/// What the receiver of messages may be.
fn receiver_rank(messages: &[Message]) -> Rank
    ensures { result ≡ receiver_rank (messages_view messages.now) }
{
    match messages {
        [] => Rank::Any,
        [first, ..] => match first.arguments.as_slice() {
            [] => Rank::Unary,
            [_, ..] => Rank::Binary,
        },
    }
}

/// What a link makes.
pub fn rank_of_link(link: Link<'_>) -> Rank
    ensures { result ≡ rank_of_link (link_view link.entry) }
{
    match link {
        Link::Assign(_) => Rank::Any,
        Link::Send(messages) => rank_of_messages(messages),
    }
}

/// What it is made of.
fn inner_rank(link: Link<'_>) -> Rank
    ensures { result ≡ inner_rank (link_view link.entry) }
{
    match link {
        Link::Assign(_) => Rank::Any,
        Link::Send(messages) => receiver_rank(messages),
    }
}

/// What is wanted of an expression to which these links are still to be done.
pub fn wanted_by(outer: Rank, links: &[Link<'_>]) -> Rank
    ensures { result ≡ wanted_by outer (links_view links.now) }
{
    match links {
        [] => outer,
        [link, ..] => inner_rank(*link),
    }
}
