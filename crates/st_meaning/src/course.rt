//! How far a walk has come.

ghost use Rattle.std.specs.Prelude.{◌≡◌, ◌==◌, ◌+◌, ◌++◌, [], ◌∷◌, true, false, length, IfOk, IfErr, OnOk};
ghost use Rattle.st_meaning.specs.inside.Deeds.{deed_view, deeds_view, answers_view};
ghost use Rattle.st_meaning.specs.inside.Runs.{did, ends, take_answer, over, went, long, assign_to, answer_to, make_block, jump_back};
ghost use Rattle.st_meaning.specs.inside.Meanings.{most, start_of, before_all};
ghost use Rattle.st_meaning.specs.inside.Courses.{going_view, with_deed, with_back, Goes, IsLong, IsSound};

use crate::deed::{Answer, Deed, Deeds, Value, ValueList, Variable};
use crate::fault::MeaningFault;
use crate::held::Held;
use st_emit::sum;
use std::alloc::{AllocError, Global};

/// The most deeds, and the most jumps back.
pub const MOST: usize = 1_000_000;

/// How far a walk has come: its deeds, the answers that are left, what variables hold, how many blocks were made, and how
/// many jumps went back.
#[derive(Drop)]
pub struct Course<'a> {
    pub deeds: Deeds,
    pub answers: &'a [Answer],
    pub held: Held,
    pub blocks: u32,
    pub backs: usize,
}

impl<'a> Course<'a> {
    /// Before anything is done, where so many variables are arguments.
    pub fn before_all(
        alloc: Global,
        arguments: usize,
        answers: &'a [Answer],
    ) -> Result<Course<'a>, AllocError>
        ensures begins { IfOk result (λ c.
            going_view c ≡ before_all (start_of arguments) (answers_view answers.now)) }
        ensures sound { IfOk result IsSound }
    {
        Ok(Course {
            deeds: Vec::new(alloc),
            answers,
            held: Held::at_start(alloc, arguments)?,
            blocks: 0,
            backs: 0,
        })
    }

    /// One more deed.
    #[tactic(auto, using(crate::proofs::Coursing::one_more, crate::proofs::Coursing::many_deeds))]
    pub fn did(&mut self, deed: Deed) -> Result<(), MeaningFault>
        requires { IsSound self.old }
        ensures went { OnOk result (going_view self.new ≡ with_deed (deed_view deed) (going_view self.old)) }
        ensures few { OnOk result ((length self.old.deeds.items == most) ≡ false) }
        ensures long { IfErr result (IsLong ((length self.old.deeds.items == most) ≡ true)) }
        ensures one_more { OnOk result (length self.new.deeds.items ≡ length self.old.deeds.items + 1) }
        ensures blocks { self.new.blocks ≡ self.old.blocks }
        ensures held { self.new.held ≡ self.old.held }
        ensures sound { IsSound self.new }
    {
        if self.deeds.len() == MOST {
            return Err(MeaningFault::Long);
        }
        self.deeds.push(deed)?;
        Ok(())
    }

    /// A value is assigned to a variable.
    #[tactic(auto, using(crate::proofs::Coursing::assign_on, crate::proofs::Coursing::assign_long, crate::proofs::Coursing::many_deeds))]
    pub fn assign(&mut self, variable: Variable, value: Value) -> Result<(), MeaningFault>
        requires { IsSound self.old }
        ensures went { OnOk result (
            assign_to most variable value (going_view self.old) ≡ went value (going_view self.new)) }
        ensures long { IfErr result (IsLong (assign_to most variable value (going_view self.old) ≡ long)) }
        ensures sound { IsSound self.new }
    {
        self.did(Deed::Assign { variable, value })?;
        self.held.change(variable, value);
        Ok(())
    }

    /// The next answer to a message, if there is one.
    #[tactic(auto, using(crate::proofs::Coursing::answer_follows, crate::proofs::Coursing::answer_long, crate::proofs::Coursing::many_deeds))]
    pub fn answer(
        &mut self,
        alloc: Global,
        receiver: Value,
        selector: &[u8],
        arguments: ValueList,
        above: bool,
    ) -> Result<Option<Value>, MeaningFault>
        requires { IsSound self.old }
        ensures went { IfOk result (λ o. Goes (answer_to most receiver selector.now arguments.items above
            (going_view self.old)) o (going_view self.new)) }
        ensures long { IfErr result (IsLong (answer_to most receiver selector.now arguments.items above
            (going_view self.old) ≡ long)) }
        ensures sound { IsSound self.new }
    {
        let selector = selector.to_vec(alloc)?;
        self.did(Deed::Send {
            receiver,
            selector,
            arguments,
            above,
        })?;
        Ok(self.take_answer())
    }

    /// The next answer, if there is one.
    fn take_answer(&mut self) -> Option<Value>
        requires { IsSound self.old }
        ensures went { Goes (take_answer (going_view self.old).answers (going_view self.old)) result
            (going_view self.new) }
        ensures sound { IsSound self.new }
    {
        match self.answers {
            [] => None,
            [answer, rest @ ..] => {
                self.held.change_all(&answer.changes);
                self.answers = rest;
                Some(answer.value)
            }
        }
    }

    /// A block is made.
    #[tactic(auto, using(crate::proofs::Coursing::make_on, crate::proofs::Coursing::make_long, crate::proofs::Coursing::many_deeds))]
    pub fn make(&mut self) -> Result<Value, MeaningFault>
        requires { IsSound self.old }
        ensures went { IfOk result (λ v.
            make_block most (going_view self.old) ≡ went v (going_view self.new)) }
        ensures long { IfErr result (IsLong (make_block most (going_view self.old) ≡ long)) }
        ensures sound { IsSound self.new }
    {
        let number = self.blocks;
        self.did(Deed::Block { number })?;
        self.blocks = number + 1;
        Ok(Value::Block(number))
    }

    /// One more jump back.
    pub fn back(&mut self) -> Result<(), MeaningFault>
        requires { IsSound self.old }
        ensures went { OnOk result (going_view self.new ≡ with_back (going_view self.old)) }
        ensures few { OnOk result ((self.old.backs == most) ≡ false) }
        ensures long { IfErr result (IsLong ((self.old.backs == most) ≡ true)) }
        ensures sound { IsSound self.new }
    {
        if self.backs == MOST {
            return Err(MeaningFault::Long);
        }
        self.backs = sum(self.backs, 1)?;
        Ok(())
    }
}
