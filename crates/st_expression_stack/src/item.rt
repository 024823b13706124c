//! What has been read of a method's code: a stack of items, the last one on top.

ghost use Rattle.std.specs.Prelude.{◌≡◌, ◌++◌, ◌∷◌, [], IfOk, OnOk};
ghost use Rattle.st_scan.specs.Views.{no_statements};
ghost use Rattle.st_expression_stack.specs.Items.{statements_of, is_low, put_low, statements_from};
ghost use Rattle.st_expression_stack.specs.inside.Stacks.{stack_view, piece_view, IsPopped, IsArgumentPopped};
ghost use Rattle.st_expression_stack.specs.inside.Stacks.{taken_view, taken_if, put_statement, Chooses};

use st_emit::InstructionOperand;
use st_scan::{Expression, MessageList, Statement, StatementList};
use std::alloc::{AllocError, Global};

/// More than each number of a block argument.
pub const NO_ARGUMENTS: usize = 64;

/// How many arguments and blocks may stand in one another. A text has at most 200 brackets in one another, and between two of
/// them a keyword's argument may hold an operator's.
const MOST_HIGH: usize = 602;

/// An expression, or a statement: whether it is returned, where its code starts, the least number of a block argument
/// within, 64 where there is none, and how many arguments and blocks stand in one another at most.
#[derive(Drop)]
pub struct Piece {
    pub returns: bool,
    pub tree: Expression,
    pub start: usize,
    pub least: usize,
    pub height: usize,
}

/// What lies on the stack: a piece; a receiver with the messages of a cascade so far; that receiver once more; the answer
/// of a message that isn't the last one; an argument of a block; a jump at the end of a region, forward or back.
#[derive(Drop)]
pub enum Item {
    Piece(Piece),
    Cascade(Piece, MessageList),
    Again,
    Answered,
    Argument(InstructionOperand),
    Over(usize),
    Back(usize),
}

/// The items of a region.
pub type Stack = Vec<Item>;

/// Statements, with the least number of a block argument within and their height. While they are taken from a stack the
/// last one stands first.
#[derive(Drop)]
pub struct Statements {
    pub list: StatementList,
    pub least: usize,
    pub height: usize,
}

/// An item that was on top, if it is a piece. Another one is put back.
fn piece_or_back(items: &mut Stack, item: Item) -> Result<Option<Piece>, AllocError>
    ensures { IfOk result (IsPopped (items.old.items ++ item ∷ []) items.new.items) }
{
    match item {
        Item::Piece(piece) => Ok(Some(piece)),
        other => {
            items.push(other)?;
            Ok(None)
        }
    }
}

/// The piece on top, which is taken off. What is no piece stays.
pub fn pop_piece(items: &mut Stack) -> Result<Option<Piece>, AllocError>
    ensures { IfOk result (IsPopped items.old.items items.new.items) }
{
    match items.pop() {
        Some(item) => piece_or_back(items, item),
        None => Ok(None),
    }
}

/// An item that was on top, if it is the argument of a block. Another one is put back.
fn argument_or_back(items: &mut Stack, item: Item) -> Result<Option<InstructionOperand>, AllocError>
    ensures { IfOk result (IsArgumentPopped (items.old.items ++ item ∷ []) items.new.items) }
{
    match item {
        Item::Argument(place) => Ok(Some(place)),
        other => {
            items.push(other)?;
            Ok(None)
        }
    }
}

/// The argument of a block on top, which is taken off. What is no argument stays.
pub fn pop_argument(items: &mut Stack) -> Result<Option<InstructionOperand>, AllocError>
    ensures { IfOk result (IsArgumentPopped items.old.items items.new.items) }
{
    match items.pop() {
        Some(item) => argument_or_back(items, item),
        None => Ok(None),
    }
}

impl Statements {
    /// None.
    fn none(alloc: Global) -> Statements
        ensures list { result.list.items ≡ [] }
        ensures least { result.least ≡ 64 }
        ensures height { result.height ≡ 0 }
    {
        Statements {
            list: Vec::new(alloc),
            least: NO_ARGUMENTS,
            height: 0,
        }
    }

    /// A statement before these, which stand in the other order.
    fn put(&mut self, piece: Piece) -> Result<(), AllocError>
        ensures { OnOk result (put_statement (piece_view piece) self.old self.new) }
    {
        self.least = self.least.min(piece.least);
        self.height = self.height.max(piece.height);
        self.list.push(Statement {
            returns: piece.returns,
            value: piece.tree,
        })?;
        Ok(())
    }
}

/// The statements from the top down to what is none.
pub fn statements_of(alloc: Global, items: &mut Stack) -> Result<Statements, AllocError>
    ensures { IfOk result (λ t. taken_view t items.new.items ≡ statements_of (stack_view items.old.items)) }
{
    let mut taken = Statements::none(alloc);
    while let Some(piece) = pop_piece(items)? {
        taken.put(piece)?;
    }
    taken.list.reverse();
    Ok(taken)
}

/// The statements from the top down to the one whose code starts at a place.
pub fn statements_from(
    alloc: Global,
    at: usize,
    items: &mut Stack,
) -> Result<Option<Statements>, AllocError>
    ensures { IfOk result (λ t. taken_if t items.new.items
        ≡ statements_from at no_statements 64 0 (stack_view items.old.items)) }
{
    let mut taken = Statements::none(alloc);
    while let Some(piece) = pop_piece(items)? {
        let is_last = piece.start == at;
        taken.put(piece)?;
        if is_last {
            taken.list.reverse();
            return Ok(Some(taken));
        }
    }
    Ok(None)
}

/// Whether a text may have so many arguments and blocks in one another.
pub fn is_low(height: usize) -> bool
    ensures { result ≡ is_low height }
{
    height <= MOST_HIGH
}

/// A piece more, if a text may have it.
pub fn put_low(piece: Piece, items: &mut Stack) -> Result<bool, AllocError>
    ensures { Chooses result items.new (put_low (piece_view piece) (stack_view items.old.items)) }
{
    let low = is_low(piece.height);
    if low {
        items.push(Item::Piece(piece))?;
        Ok(true)
    } else {
        Ok(false)
    }
}
