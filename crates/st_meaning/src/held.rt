//! What variables hold.

ghost use Rattle.std.specs.Prelude.{◌≡◌, ◌<◌, IfOk, length, slice_get};
ghost use Rattle.st_meaning.specs.inside.Runs.{changed, all_changed};
ghost use Rattle.st_meaning.specs.inside.Meanings.{start_of};
ghost use Rattle.st_meaning.specs.inside.Courses.{known, held_of, IsTable, IsPut};

use crate::deed::{NIL, Value, Variable};
use std::alloc::{AllocError, Global};

/// How many variables of a kind code can name.
const NAMED: usize = 64;

/// What the variables that code can name hold, where they have another value than at the start.
#[derive(Drop)]
pub struct Held {
    arguments: usize,
    fields: Vec<Option<Value>>,
    temporaries: Vec<Option<Value>>,
    shared: Vec<Option<Value>>,
}

/// What a variable holds at the start: so many temporaries are arguments, and the others nil.
fn start_of(arguments: usize, variable: Variable) -> Value
    ensures { result ≡ start_of arguments variable }
{
    match variable {
        Variable::Temporary(n) => if (n as usize) < arguments {
            Value::First(variable)
        } else {
            NIL
        },
        Variable::Field(_) | Variable::Shared(_) => Value::First(variable),
    }
}

fn known(list: &[Option<Value>], n: usize, start: Value) -> Value
    ensures { result ≡ known (slice_get list.now n) start }
{
    match list.get(n) {
        Some(Some(value)) => *value,
        _ => start,
    }
}

fn put(list: &mut Vec<Option<Value>>, n: usize, value: Value)
    requires { n < length list.old.items }
    ensures { IsPut list.old.items list.new.items n value }
{
    list[n] = Some(value);
}

impl Held {
    /// What is held at the start.
    #[tactic(auto, using(crate::proofs::Puts::at_start))]
    pub fn at_start(alloc: Global, arguments: usize) -> Result<Held, AllocError>
        ensures start { IfOk result (λ h. held_of h ≡ start_of arguments) }
        ensures table { IfOk result IsTable }
    {
        Ok(Held {
            arguments,
            fields: vec![in alloc; None; NAMED]?,
            temporaries: vec![in alloc; None; NAMED]?,
            shared: vec![in alloc; None; NAMED]?,
        })
    }

    /// What a variable holds.
    pub fn value(&self, variable: Variable) -> Value
        ensures { result ≡ held_of self.now variable }
    {
        let start = start_of(self.arguments, variable);
        match variable {
            Variable::Field(n) => known(&self.fields, n as usize, start),
            Variable::Temporary(n) => known(&self.temporaries, n as usize, start),
            Variable::Shared(n) => known(&self.shared, n as usize, start),
        }
    }

    /// Gives a variable another value.
    #[tactic(auto, using(crate::proofs::Puts::field_put, crate::proofs::Puts::temporary_put, crate::proofs::Puts::shared_put, crate::proofs::Puts::far))]
    pub fn change(&mut self, variable: Variable, value: Value)
        requires { IsTable self.old }
        ensures held { held_of self.new ≡ changed variable value (held_of self.old) }
        ensures table { IsTable self.new }
    {
        match variable {
            Variable::Field(n) => if (n as usize) < NAMED {
                put(&mut self.fields, n as usize, value);
            },
            Variable::Temporary(n) => if (n as usize) < NAMED {
                put(&mut self.temporaries, n as usize, value);
            },
            Variable::Shared(n) => if (n as usize) < NAMED {
                put(&mut self.shared, n as usize, value);
            },
        }
    }

    /// Makes changes, one behind the other.
    pub fn change_all(&mut self, changes: &[(Variable, Value)])
        requires { IsTable self.old }
        ensures held { held_of self.new ≡ all_changed changes.now (held_of self.old) }
        ensures table { IsTable self.new }
    {
        for change in changes {
            self.change(change.0, change.1);
        }
    }
}
