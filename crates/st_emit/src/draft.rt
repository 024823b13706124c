//! Code as it is made: its instructions so far, its literals, and how many words it has on the stack.

ghost use Rattle.std.specs.Prelude.{◌≡◌, ◌≤◌, ◌+◌, [], length, drop, IfOk, OnOk};
ghost use Rattle.st_emit.specs.Depths.{pushed, popped, ended};
ghost use Rattle.st_emit.specs.Literals.{named_literal};
ghost use Rattle.st_emit.specs.Steps.{size};
ghost use Rattle.st_emit.specs.inside.Views.{literal_view, literals_view};
ghost use Rattle.st_emit.specs.inside.Drafts.{Adds, Resolves, step_part};

use crate::instruction::{Instruction, size_of};
use crate::level::Level;
use crate::literal::Literal;
use crate::literal_table::LiteralTable;
use std::alloc::{AllocError, Global};

/// Code as it is made. After an error it is no code.
#[derive(Drop)]
pub struct Draft {
    pub steps: Vec<Instruction>,
    pub literals: LiteralTable,
    pub level: Level,
}

/// One word more. A count that passes every memory is want of memory.
fn pushed(level: Level) -> Result<Level, AllocError>
    ensures { IfOk result (λ l. l ≡ pushed level) }
{
    if !level.live {
        return Ok(level);
    }
    let height = level.height.checked_add(1).ok_or(AllocError)?;
    let greatest = level.greatest.max(height);
    Ok(Level {
        height,
        greatest,
        ..level
    })
}

impl Draft {
    /// Nothing yet.
    pub fn new(alloc: Global) -> Draft
        ensures steps { result.steps.items ≡ [] }
        ensures literals { literals_view result.literals.items ≡ [] }
        ensures level { result.level ≡ Rattle.st_emit.specs.Depths.empty }
    {
        let level = Level {
            height: 0,
            live: true,
            greatest: 0,
            blocks: 0,
        };
        Draft {
            steps: Vec::new(alloc),
            literals: LiteralTable::new(alloc),
            level,
        }
    }

    /// An instruction that leaves as many words on the stack.
    pub fn put(&mut self, step: Instruction) -> Result<(), AllocError>
        ensures added { OnOk result (Adds (step_part step (λ l. l)) self.old self.new) }
    {
        self.steps.push(step)?;
        Ok(())
    }

    /// An instruction that pushes a word.
    pub fn put_push(&mut self, step: Instruction) -> Result<(), AllocError>
        ensures added { OnOk result (Adds (step_part step pushed) self.old self.new) }
    {
        self.steps.push(step)?;
        self.level = pushed(self.level)?;
        Ok(())
    }

    /// An instruction that leaves n words fewer.
    pub fn put_pop(&mut self, step: Instruction, n: usize) -> Result<(), AllocError>
        ensures added { OnOk result (Adds (step_part step (popped n)) self.old self.new) }
    {
        self.steps.push(step)?;
        self.level.height = self.level.height.saturating_sub(n);
        Ok(())
    }

    /// A return.
    pub fn put_end(&mut self, step: Instruction) -> Result<(), AllocError>
        ensures added { OnOk result (Adds (step_part step ended) self.old self.new) }
    {
        self.steps.push(step)?;
        self.level.live = false;
        Ok(())
    }

    /// The place of a literal, where it stands from now on.
    pub fn named(&mut self, literal: Literal) -> Result<usize, AllocError>
        ensures { IfOk result (Resolves (named_literal (literal_view literal)) self.old self.new) }
    {
        if let Some(place) = self.literals.place_of(&literal)? {
            return Ok(place);
        }
        let place = self.literals.len();
        self.literals.put(literal)?;
        Ok(place)
    }

    /// How many bytes the instructions from a place on have. A count that passes every memory is want of memory.
    pub fn size_from(&self, from: usize) -> Result<usize, AllocError>
        requires { from ≤ length self.now.steps.items }
        ensures { IfOk result (λ n. n ≡ size (drop from self.now.steps.items)) }
    {
        let mut total: usize = 0;
        for step in &self.steps[from..] {
            total = total.checked_add(size_of(*step)).ok_or(AllocError)?;
        }
        Ok(total)
    }
}
