//! Trees that are made of their parts.

ghost use Rattle.std.specs.Prelude.{◌≡◌, IfOk};
ghost use Rattle.st_scan.specs.Views.{name_view, names_view, content_view, array, elements_view};
ghost use Rattle.st_scan.specs.Views.{expression_view, block, statements_view, assign, send, messages_view};

use crate::tree::{Content, ElementList, Expression, MessageList, Name, NameList, StatementList};
use std::alloc::{AllocError, Global};

impl Content {
    /// A literal array.
    #[tactic(auto, using(crate::proofs::Views::views))]
    pub fn array(elements: ElementList) -> Content
        ensures { content_view result ≡ array (elements_view elements.items) }
    {
        Content::Array(elements)
    }
}

impl Expression {
    /// A block with its argument names.
    #[tactic(auto, using(crate::proofs::Views::views))]
    pub fn block(names: NameList, body: StatementList) -> Expression
        ensures { expression_view result ≡ block (names_view names.items) (statements_view body.items) }
    {
        Expression::Block { names, body }
    }

    /// An assignment.
    pub fn assign(alloc: Global, target: Name, value: Expression) -> Result<Expression, AllocError>
        ensures { IfOk result (λ e.
            expression_view e ≡ assign (name_view target) (expression_view value)) }
    {
        let value = Box::new(alloc, value)?;
        Ok(Expression::Assign { target, value })
    }

    /// One message, or the messages of a cascade, to a receiver.
    #[tactic(auto, using(crate::proofs::Views::views))]
    pub fn send(
        alloc: Global,
        receiver: Expression,
        messages: MessageList,
    ) -> Result<Expression, AllocError>
        ensures { IfOk result (λ e.
            expression_view e ≡ send (expression_view receiver) (messages_view messages.items)) }
    {
        let receiver = Box::new(alloc, receiver)?;
        Ok(Expression::Send { receiver, messages })
    }
}
