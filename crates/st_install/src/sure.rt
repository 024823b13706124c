//! Objects of a memory, where it is sure that a step goes: it reads and stores without a check.

ghost use Rattle.std.specs.Prelude.{◌≡◌, Ok};
ghost use Rattle.st_model.specs.{Values.value, Formed.IsHeader, Table.table};
ghost use Rattle.st_model.specs.Steps.{fetch_field, store_field, store_method_field, store_byte};
ghost use Rattle.st_model.specs.{inside.Calls.Reads, View.{IsKnown, object_of}};
ghost use Rattle.st_install.specs.inside.Carried.{Goes, Becomes, KeepsFields};

use st_memory::Memory;
use st_model::Oop;

/// Field i of an object of kind Pointers.
pub fn field<M: Memory>(m: &M, o: Oop, i: u32) -> Oop
    requires { Goes (fetch_field table (value o) i) (M.view m.now) }
    ensures { Reads (fetch_field table (value o) i) value (M.view m.now).objects (Ok result) }
{
    m.pointer(o, i)
}

/// Stores x in field i of an object of kind Pointers.
pub fn store_field<M: Memory>(m: &mut M, o: Oop, i: u32, x: Oop)
    requires { Goes (store_field table (value o) i (value x)) (M.view m.old) }
    ensures becomes { Becomes (store_field table (value o) i (value x)) (M.view m.old) tt (M.view m.new) }
    ensures fields { KeepsFields (M.view m.old).objects (M.view m.new).objects }
{
    m.set_pointer(o, i, x);
}

/// Stores x in field i of a Method: in its header, which counts its literals, or in literal i - 1.
pub fn store_method_field<M: Memory>(m: &mut M, o: Oop, i: u32, x: Oop)
    requires goes { Goes (store_method_field table (value o) i (value x)) (M.view m.old) }
    requires header { IsHeader (object_of (M.view m.old).objects (value o)) i (value x) }
    ensures becomes { Becomes (store_method_field table (value o) i (value x))
        (M.view m.old) tt (M.view m.new) }
    ensures fields { KeepsFields (M.view m.old).objects (M.view m.new).objects }
{
    m.set_pointer(o, i, x);
}

/// Stores byte i of an object of kind Bytes or Method; of a Method header and literals count.
pub fn store_byte<M: Memory>(m: &mut M, o: Oop, i: u32, byte: u8)
    requires { Goes (store_byte table (value o) i byte) (M.view m.old) }
    ensures becomes { Becomes (store_byte table (value o) i byte) (M.view m.old) tt (M.view m.new) }
    ensures fields { KeepsFields (M.view m.old).objects (M.view m.new).objects }
{
    m.set_byte(o, i, byte);
}
