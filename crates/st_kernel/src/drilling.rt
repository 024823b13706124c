// The kernel text of a drill.
ghost use Rattle.std.specs.Prelude.{◌≡◌, ◌≤◌, ◌+◌, ◌^◌, ◌++◌, length, OnOk, IfOk};
ghost use Rattle.st_kernel.specs.Drills.{class_behind, behaviour, drill_text};

use itoa::Buffer;
use std::alloc::{AllocError, Global};

/// Object, the classes that a kernel needs, and the first class of the drill.
const DECLARATIONS: &[u8] = b"\
class Object super nil fixed!\n\
class UndefinedObject super Object fixed!\n\
class False super Object fixed!\n\
class True super Object fixed!\n\
class SmallInteger super Object fixed!\n\
class Metaclass super Object fixed!\n\
class Association super Object fixed a b!\n\
class Point super Object fixed a b!\n\
class Message super Object fixed a b!\n\
class ProcessorScheduler super Object fixed a b!\n\
class LinkedList super Object fixed a b!\n\
class Process super Object fixed a b c d!\n\
class Character super Object fixed a!\n\
class Array super Object indexed!\n\
class MethodContext super Object indexed a b c d e f!\n\
class BlockContext super Object indexed a b c d e f!\n\
class MethodDictionary super Object indexed a b!\n\
class String super Object bytes!\n\
class Symbol super Object bytes!\n\
class LargePositiveInteger super Object bytes!\n\
class CompiledMethod super Object bytes!\n\
class D0 super Object fixed!\n";

/// The methods, up to the class that is asked for instances.
const METHODS: &[u8] = b"\
global Start!\n\
!Object class methodsFor: 'd'!new <primitive: 70>! !\n\
!D0 methodsFor: 'd'!bump: n ^n >= 1000 ifTrue: [0] ifFalse: [n + 1]! !\n\
!UndefinedObject methodsFor: 'd'!run | d n | n _ 0. [true] whileTrue: [d _ D";

/// What stands behind that class.
const START: &[u8] = b" new. n _ d bump: n]! !\nstart Start run!\n";

/// The class of a drill that has the most before it.
const LAST_CLASS: u32 = 999;

/// Adds the class behind this one, which is its subclass.
fn push_class(text: &mut Vec<u8>, number: u32) -> Result<(), AllocError>
    requires { number ≤ 999 }
    ensures text { OnOk result (text.new.items ≡ text.old.items ++ class_behind number) }
    ensures short { OnOk result (length text.new.items ≤ length text.old.items + 100) }
{
    let mut digits = Buffer::new();
    text.extend_from_slice(b"class D")?;
    text.extend_from_slice(digits.format(number + 1).as_bytes())?;
    text.extend_from_slice(b" super D")?;
    text.extend_from_slice(digits.format(number).as_bytes())?;
    text.extend_from_slice(b" fixed!\n")
}

/// Adds the methods, and the start, for a drill whose last class is this.
fn push_behaviour(text: &mut Vec<u8>, last: u32) -> Result<(), AllocError>
    ensures text { OnOk result (text.new.items ≡ text.old.items ++ behaviour last) }
    ensures short { OnOk result (length text.new.items ≤ length text.old.items + 400) }
{
    let mut digits = Buffer::new();
    text.extend_from_slice(METHODS)?;
    text.extend_from_slice(digits.format(last).as_bytes())?;
    text.extend_from_slice(START)
}

/// The kernel text of the drill of n, which has 1 + n modulo 1000 classes that are each below the one before.
pub fn drill_text(alloc: Global, n: u32) -> Result<Vec<u8>, AllocError>
    ensures text { IfOk result (λ text. text.items ≡ drill_text n) }
    ensures short { IfOk result (λ text. length text.items ≤ 2 ^ 17) }
{
    let last = n % (LAST_CLASS + 1);
    let mut text = Vec::from_slice(alloc, DECLARATIONS)?;
    for number in 0..last {
        push_class(&mut text, number)?;
    }
    push_behaviour(&mut text, last)?;
    Ok(text)
}
