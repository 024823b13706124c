//! An expression from the inside out.

ghost use Rattle.std.specs.Prelude.{◌≡◌, IfOk};
ghost use Rattle.st_scan.specs.Views.{expression_view};
ghost use Rattle.st_scan.specs.inside.Chains.{IsStart, IsWithin, linked, links_view};

use crate::tree::{Expression, Message, Name};
use std::alloc::{AllocError, Global};

/// What is done to an expression: it is assigned to a name, or messages are sent to it.
#[derive(Clone, Copy)]
pub enum Link<'a> {
    Assign(&'a Name),
    Send(&'a [Message]),
}

/// An expression from the inside out: a variable, a literal or a block, and what is done to it, in the order in which
/// it is done. An expression may be as deep as its text is long, and its links are walked by a loop.
#[derive(Drop)]
pub struct Chain<'a> {
    pub start: &'a Expression,
    pub links: Vec<Link<'a>>,
}

impl Expression {
    /// The chain of this expression.
    #[tactic(auto, using(crate::proofs::Views::views))]
    pub fn chain(&self, alloc: Global) -> Result<Chain<'_>, AllocError>
        ensures start { IfOk result (λ c. IsStart (expression_view c.start.now)) }
        ensures whole { IfOk result (λ c.
            linked (expression_view c.start.now) (links_view c.links.items) ≡ expression_view self.now) }
        ensures within { IfOk result (IsWithin self.now) }
    {
        let mut start = self;
        let mut links = Vec::new(alloc);
        loop {
            match start {
                Expression::Assign { target, value } => {
                    links.push(Link::Assign(target))?;
                    start = value;
                }
                Expression::Send { receiver, messages } => {
                    links.push(Link::Send(messages))?;
                    start = receiver;
                }
                Expression::Variable(_) | Expression::Literal(_) | Expression::Block { .. } =>
                    break,
            }
        }
        links.reverse();
        Ok(Chain { start, links })
    }
}
