//! From instructions to what they are made of, with a stack of what has been read.

ghost use Rattle.std.specs.Prelude.{◌≡◌, ◌-◌, ◌++◌, ◌∷◌, true, map, slice_get, IfOk, OnOk};
ghost use Rattle.std.specs.Prelude.{option_map, ℕ, List};
ghost use Rattle.st_scan.specs.Views.{expression_view, names_view};
ghost use Rattle.st_emit.specs.{declared.instruction.Instruction.{Instruction as StepView}, Nodes.is_above, Selectors.sends_now};
ghost use Rattle.st_emit.specs.Resolving.{special_selectors, first_special};
ghost use Rattle.st_emit.specs.inside.Views.{literal_view, literals_view};
ghost use Rattle.st_resolved.specs.Instructions.{on_some};
ghost use Rattle.st_expression_stack.specs.{Items.{leaf, piece}, Choosing.{literal_tree, constant_tree}};
ghost use Rattle.st_expression_stack.specs.Items.{goes_on};
ghost use Rattle.st_expression_stack.specs.inside.Stacks.{stack_view, piece_view, item_view, acted_if, acted_by, Acts, text_now};
ghost use Rattle.st_decompile.specs.{inside.Methods.literal_now, Reading.{symbol_of, argument_number}};
ghost use Rattle.st_decompile.specs.inside.Read.{AreDeclared, IsPieceStart, IsBlockStart, selector_now};
ghost use Rattle.st_decompile.specs.inside.Read.{act_by, assigned_by, pushed_by};
ghost use Rattle.st_decompile.specs.inside.Read.{popped_by, popped_into_by, stored_into_by};
ghost use Rattle.st_decompile.specs.inside.Read.{pushes_by, arguments_by, selector_in, sends_by, special_sends_by};
ghost use Rattle.st_decompile.specs.inside.Read.{returns_top_by, IsPlain, block_by};

use st_emit::{Constant, Instruction, InstructionOperand, Literal, Lookup, SPECIAL_SENDS, sum};
use st_expression_stack::{
    Calling, Item, NO_ARGUMENTS, Piece, Stack, constant_tree, doubled, literal_tree, pop_argument,
    pop_piece, popped, sends, small_tree, statements_of,
};
use st_scan::{Expression, NameList};
use std::alloc::{AllocError, Global};

/// The code of the first special selector.
const FIRST_SPECIAL: u8 = 176;

/// What the code of a method is read with: what variables are called, and the literals.
#[derive(Clone, Copy)]
pub struct Reading<'a> {
    pub calling: &'a Calling,
    pub literals: &'a [Literal],
}

/// The arguments of a block as names, and the number of the first one.
#[derive(Drop)]
struct Declared {
    names: NameList,
    least: usize,
}

/// A piece of one instruction.
fn leaf(tree: Expression, at: usize) -> Piece
    ensures { piece_view result ≡ leaf (expression_view tree) at }
{
    Piece {
        returns: false,
        tree,
        start: at,
        least: NO_ARGUMENTS,
        height: 0,
    }
}

/// A piece whose value is returned.
fn returned(piece: Piece) -> Piece
    ensures { piece_view result ≡ record (piece_view piece) { returns = true } }
{
    Piece {
        returns: true,
        tree: piece.tree,
        start: piece.start,
        least: piece.least,
        height: piece.height,
    }
}

/// A literal as an expression, if there is one.
fn literal_as_tree(
    alloc: Global,
    literal: Option<&Literal>,
) -> Result<Option<Expression>, AllocError>
    ensures { IfOk result (λ e.
        option_map expression_view e ≡ option_map literal_tree (option_map literal_now literal.entry)) }
{
    match literal {
        Some(literal) => Ok(Some(literal_tree(alloc, literal)?)),
        None => Ok(None),
    }
}

/// What an instruction pushes.
fn pushed_tree(
    alloc: Global,
    reading: Reading<'_>,
    place: InstructionOperand,
) -> Result<Option<Expression>, AllocError>
    ensures { IfOk result (λ e. option_map expression_view e ≡ pushed_by reading.entry place) }
{
    if let InstructionOperand::Literal(n) = place {
        return literal_as_tree(alloc, reading.literals.get(n));
    }
    let name = reading.calling.name_of(alloc, place)?;
    Ok(Some(Expression::Variable(name)))
}

/// An assignment of a value.
fn assigned(
    alloc: Global,
    reading: Reading<'_>,
    place: InstructionOperand,
    value: Piece,
) -> Result<Piece, AllocError>
    ensures { IfOk result (λ p. piece_view p ≡ assigned_by reading.entry place (piece_view value)) }
{
    let target = reading.calling.name_of(alloc, place)?;
    let tree = Expression::assign(alloc, target, value.tree)?;
    Ok(Piece {
        returns: value.returns,
        tree,
        start: value.start,
        least: value.least,
        height: value.height,
    })
}

/// What is popped into a variable: an assignment, or an argument of a block where no value stands before it.
fn popped_as(
    alloc: Global,
    reading: Reading<'_>,
    place: InstructionOperand,
    value: Option<Piece>,
) -> Result<Item, AllocError>
    ensures { IfOk result (λ x. item_view x ≡ popped_by reading.entry place (option_map piece_view value)) }
{
    match value {
        Some(value) => {
            let piece = assigned(alloc, reading, place, value)?;
            Ok(Item::Piece(piece))
        }
        None => Ok(Item::Argument(place)),
    }
}

/// A pop into a variable.
fn popped_into(
    alloc: Global,
    reading: Reading<'_>,
    place: InstructionOperand,
    items: &mut Stack,
) -> Result<(), AllocError>
    ensures { OnOk result
        (acted_if true items.new.items ≡ popped_into_by reading.entry place (stack_view items.old.items)) }
{
    let value = pop_piece(items)?;
    let item = popped_as(alloc, reading, place, value)?;
    items.push(item)?;
    Ok(())
}

/// A store that leaves its value: an assignment.
fn stored_into(
    alloc: Global,
    reading: Reading<'_>,
    place: InstructionOperand,
    items: &mut Stack,
) -> Result<bool, AllocError>
    ensures { Acts result items.new (stored_into_by reading.entry place (stack_view items.old.items)) }
{
    let Some(value) = pop_piece(items)? else {
        return Ok(false);
    };
    let piece = assigned(alloc, reading, place, value)?;
    items.push(Item::Piece(piece))?;
    Ok(true)
}

/// A push of what an instruction names.
fn pushes(
    alloc: Global,
    reading: Reading<'_>,
    place: InstructionOperand,
    at: usize,
    items: &mut Stack,
) -> Result<bool, AllocError>
    ensures { Acts result items.new (pushes_by reading.entry place at (stack_view items.old.items)) }
{
    let Some(tree) = pushed_tree(alloc, reading, place)? else {
        return Ok(false);
    };
    items.push(Item::Piece(leaf(tree, at)))?;
    Ok(true)
}

/// The text of a Symbol.
fn symbol_of(literal: &Literal) -> Option<&[u8]>
    ensures { option_map text_now result ≡ symbol_of (literal_view literal.now) }
{
    match literal {
        Literal::Symbol(text) => Some(text.as_slice()),
        _ => None,
    }
}

/// The text of a Symbol, if there is one.
fn symbol_in(literal: Option<&Literal>) -> Option<&[u8]>
    ensures { option_map text_now result ≡ on_some (option_map literal_now literal.entry) symbol_of }
{
    match literal {
        Some(literal) => symbol_of(literal),
        None => None,
    }
}

/// The selector among the literals.
fn selector_at(literals: &[Literal], place: usize) -> Option<&[u8]>
    ensures { option_map text_now result ≡ selector_in (literals_view literals.now) place }
{
    symbol_in(literals.get(place))
}

/// A send by the place of its selector.
fn sends_at(
    alloc: Global,
    reading: Reading<'_>,
    lookup: Lookup,
    place: usize,
    items: &mut Stack,
) -> Result<bool, AllocError>
    ensures { Acts result items.new (sends_by reading.entry (is_above lookup) place
        (stack_view items.old.items)) }
{
    match selector_at(reading.literals, place) {
        Some(selector) => sends(alloc, lookup, selector, items),
        None => Ok(false),
    }
}

/// The selector of a row of special selectors, if there is one.
fn selector_of<'a>(row: Option<&(&'a [u8], u8)>) -> Option<&'a [u8]>
    ensures { option_map text_now result ≡ option_map selector_now row.entry }
{
    match row {
        Some((selector, _)) => Some(*selector),
        None => None,
    }
}

/// The selector at a place in a table of special selectors.
fn special_in<'a>(table: &[(&'a [u8], u8)], place: usize) -> Option<&'a [u8]>
    ensures { option_map text_now result ≡ slice_get (map (λ s. s.0) (sends_now table.now)) place }
{
    selector_of(table.get(place))
}

/// The special selector of a code.
fn special_selector(code: u8) -> Option<&'static [u8]>
    ensures { option_map text_now result ≡ slice_get special_selectors (code - first_special) }
{
    special_in(&SPECIAL_SENDS, code.saturating_sub(FIRST_SPECIAL) as usize)
}

/// A send by a special selector that is no `blockCopy:`.
fn sends_special(alloc: Global, code: u8, items: &mut Stack) -> Result<bool, AllocError>
    ensures { Acts result items.new (special_sends_by code (stack_view items.old.items)) }
{
    match special_selector(code) {
        Some(selector) => sends(alloc, Lookup::InClass, selector, items),
        None => Ok(false),
    }
}

/// The top as what is returned.
fn returns_top(items: &mut Stack) -> Result<bool, AllocError>
    ensures { Acts result items.new (returns_top_by (stack_view items.old.items)) }
{
    let Some(value) = pop_piece(items)? else {
        return Ok(false);
    };
    items.push(Item::Piece(returned(value)))?;
    Ok(true)
}

/// An item more.
fn put(item: Item, items: &mut Stack) -> Result<bool, AllocError>
    ensures { Acts result items.new (goes_on (item_view item ∷ stack_view items.old.items)) }
{
    items.push(item)?;
    Ok(true)
}

/// A push of a constant.
fn pushes_constant(
    alloc: Global,
    constant: Constant,
    at: usize,
    items: &mut Stack,
) -> Result<bool, AllocError>
    ensures { Acts result items.new (goes_on
        (piece (leaf (constant_tree constant) at) ∷ stack_view items.old.items)) }
{
    let tree = constant_tree(alloc, constant)?;
    put(Item::Piece(leaf(tree, at)), items)
}

/// A return of a constant.
fn returns_constant(
    alloc: Global,
    constant: Constant,
    at: usize,
    items: &mut Stack,
) -> Result<bool, AllocError>
    ensures { Acts result items.new (goes_on
        (piece (record (leaf (constant_tree constant) at) { returns = true })
        ∷ stack_view items.old.items)) }
{
    let tree = constant_tree(alloc, constant)?;
    put(Item::Piece(returned(leaf(tree, at))), items)
}

/// An instruction that only changes what lies on the stack.
fn plain_act(
    alloc: Global,
    reading: Reading<'_>,
    step: Instruction,
    at: usize,
    items: &mut Stack,
) -> Result<bool, AllocError>
    requires { IsPlain step }
    ensures { IfOk result (λ ok. (depth next : ℕ) (rest : List StepView) →
        acted_if ok items.new.items
        ≡ act_by reading.entry depth step at next rest (stack_view items.old.items)) }
{
    match step {
        Instruction::Push(place) => pushes(alloc, reading, place, at, items),
        Instruction::PushConstant(constant) => pushes_constant(alloc, constant, at, items),
        Instruction::PushNumber(n) => put(Item::Piece(leaf(small_tree(n), at)), items),
        Instruction::Store(place) => stored_into(alloc, reading, place, items),
        Instruction::PopStore(place) => {
            popped_into(alloc, reading, place, items)?;
            Ok(true)
        }
        Instruction::Pop => {
            popped(items)?;
            Ok(true)
        }
        Instruction::Duplicate => doubled(alloc, items),
        Instruction::Send { selector, .. } => sends_at(
            alloc,
            reading,
            Lookup::InClass,
            selector,
            items,
        ),
        Instruction::SendSuper { selector, .. } => {
            sends_at(alloc, reading, Lookup::InSuperclass, selector, items)
        }
        Instruction::SendSpecial(code) => sends_special(alloc, code, items),
        Instruction::ReturnConstant(constant) => returns_constant(alloc, constant, at, items),
        Instruction::ReturnTop => returns_top(items),
        Instruction::ReturnBlock => Ok(true),
        Instruction::Jump(d) => put(Item::Over(d), items),
        Instruction::JumpPast(d) => put(Item::Over(d), items),
        Instruction::JumpBack(d) => put(Item::Back(d), items),
        Instruction::JumpIf(_, _) => Ok(false),
    }
}

/// An instruction that begins no region. Nothing is passed then.
pub fn acts_plainly(
    alloc: Global,
    reading: Reading<'_>,
    step: Instruction,
    at: usize,
    items: &mut Stack,
) -> Result<Option<usize>, AllocError>
    requires { IsPlain step }
    ensures { IfOk result (λ skip. (depth next : ℕ) (rest : List StepView) →
        acted_by skip items.new.items
        ≡ act_by reading.entry depth step at next rest (stack_view items.old.items)) }
{
    let acted = plain_act(alloc, reading, step, at, items)?;
    if acted { Ok(Some(0)) } else { Ok(None) }
}

/// More arguments of a block, the first one on top, as names.
fn other_arguments(
    alloc: Global,
    reading: Reading<'_>,
    first: NameList,
    items: &mut Stack,
) -> Result<NameList, AllocError>
    ensures { IfOk result (λ ns.
        names_view ns.items
        ≡ names_view first.items ++ arguments_by reading.entry (stack_view items.old.items)) }
{
    let mut names = first;
    while let Some(place) = pop_argument(items)? {
        let name = reading.calling.name_of(alloc, place)?;
        names.push(name)?;
    }
    Ok(names)
}

/// The number of an argument of a block.
fn argument_number(place: InstructionOperand) -> usize
    ensures { result ≡ argument_number place }
{
    match place {
        InstructionOperand::Temporary(n) => n,
        _ => NO_ARGUMENTS,
    }
}

/// The arguments of a block as names, the first one on top; and the number of the first one, or else the least within.
fn arguments_of(
    alloc: Global,
    reading: Reading<'_>,
    least: usize,
    items: &mut Stack,
) -> Result<Declared, AllocError>
    ensures { IfOk result (AreDeclared reading.entry (stack_view items.old.items) least) }
{
    let mut names = Vec::new(alloc);
    let Some(place) = pop_argument(items)? else {
        return Ok(Declared { names, least });
    };
    let first = reading.calling.name_of(alloc, place)?;
    names.push(first)?;
    let names = other_arguments(alloc, reading, names, items)?;
    let least = argument_number(place);
    Ok(Declared { names, least })
}

/// A block, given what was read of its body.
pub fn block_piece(
    alloc: Global,
    reading: Reading<'_>,
    at: usize,
    made: Stack,
) -> Result<Piece, AllocError>
    ensures { IfOk result (λ p. piece_view p ≡ block_by reading.entry at (stack_view made.items)) }
{
    let mut items = made;
    let body = statements_of(alloc, &mut items)?;
    let declared = arguments_of(alloc, reading, body.least, &mut items)?;
    let height = sum(1, body.height)?;
    let tree = Expression::block(declared.names, body.list);
    Ok(Piece {
        returns: false,
        tree,
        start: at,
        least: declared.least,
        height,
    })
}

/// Where the code of the top piece starts. It is taken.
fn piece_start(items: &mut Stack) -> Result<Option<usize>, AllocError>
    ensures { IfOk result (IsPieceStart items.old.items items.new.items) }
{
    match pop_piece(items)? {
        Some(piece) => Ok(Some(piece.start)),
        None => Ok(None),
    }
}

/// Where the code of a block starts: with the active context, which lies below the count of its arguments.
pub fn block_start(items: &mut Stack) -> Result<Option<usize>, AllocError>
    ensures { IfOk result (IsBlockStart items.old.items items.new.items) }
{
    match piece_start(items)? {
        Some(_) => piece_start(items),
        None => Ok(None),
    }
}
