//! The trees of methods.
//!
//! A tree may be as deep as its text is long, in receivers and in values of assignments, as `x y y ..` and
//! `a _ b _ ..` show: only brackets are bounded. So an expression is dropped by a loop down these two, and a walk goes along
//! its `chain`.

ghost use Rattle.std.specs.Prelude.{◌≡◌, IfOk};
ghost use Rattle.st_scan.specs.Views.{expression_view, expressions_view, with_sent};

use crate::token::Signed;
use std::alloc::AllocError;

/// A text, as its bytes.
pub type Text = Vec<u8>;

pub type NameList = Vec<Name>;

pub type StatementList = Vec<Statement>;

pub type MessageList = Vec<Message>;

pub type ExpressionList = Vec<Expression>;

pub type ElementList = Vec<Element>;

/// A name, and the place of its token, counted from 1.
#[derive(Drop)]
pub struct Name {
    pub text: Text,
    pub place: u32,
}

/// A method.
#[derive(Drop)]
pub struct MethodTree {
    pub selector: Text,
    pub arguments: NameList,
    pub temporaries: NameList,
    pub primitive: Option<Signed>,
    pub body: StatementList,
}

/// An expression as a statement. `returns` is true for the one after `^`.
#[derive(Drop)]
#[cycle(tree)]
pub struct Statement {
    pub returns: bool,
    pub value: Expression,
}

/// An expression. Parentheses leave nothing in it. A `Send` has one message, or several for a cascade, all to the one
/// receiver.
#[cycle(tree)]
pub enum Expression {
    Variable(Name),
    Literal(Element),
    Block {
        names: NameList,
        body: StatementList,
    },
    Assign {
        target: Name,
        value: Box<Expression>,
    },
    Send {
        receiver: Box<Expression>,
        messages: MessageList,
    },
}

/// A message: its whole selector, and an argument for each of the selector's colons or for its operator.
#[derive(Drop)]
#[cycle(tree)]
pub struct Message {
    pub selector: Text,
    pub arguments: ExpressionList,
}

/// A literal, and the place of its first token, counted from 1.
#[derive(Drop)]
#[cycle(element)]
pub struct Element {
    pub place: u32,
    pub what: Content,
}

/// What a literal is. `Nil`, `False` and `True` stand only in an `Array`.
#[derive(Drop)]
#[cycle(element)]
pub enum Content {
    Number(Signed),
    Character(u8),
    Bytes(Text),
    Symbol(Text),
    Array(ElementList),
    Nil,
    False,
    True,
}

impl Expression {
    /// One more message to the receiver of this message, which becomes a cascade. Another expression stays as it is.
    #[tactic(auto, using(crate::proofs::Views::views))]
    pub fn with_sent(self, message: Message) -> Result<Expression, AllocError>
        ensures { IfOk result (λ e. expression_view e ≡ with_sent (expression_view self)
            message.selector.items (expressions_view message.arguments.items)) }
    {
        match self {
            Expression::Send {
                receiver,
                mut messages,
            } => {
                messages.push(message)?;
                Ok(Expression::Send { receiver, messages })
            }
            _ => Ok(self),
        }
    }
}

impl Drop for Expression {
    #[cycle(tree)]
    fn drop(mut self) {
        'down: loop {
            match self {
                Expression::Variable(_) => return,
                Expression::Literal(_) => return,
                Expression::Block { names: _, body: _ } => return,
                Expression::Assign { target: _, value } => self = Box::into_inner(value),
                Expression::Send {
                    receiver,
                    messages: _,
                } => self = Box::into_inner(receiver),
            }
        }
    }
}
