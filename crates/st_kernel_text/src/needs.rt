// The classes that a kernel text has to declare.
use crate::shape::Shape;

/// A shape and a number of fields, where these are asked for, and the names of the classes that have to have them.
pub(crate) type Need = (Option<(Shape, u8)>, &'static [&'static [u8]]);

/// The classes that are needed.
pub(crate) const NEEDS: [Need; 8] = [
    (
        None,
        &[
            b"UndefinedObject",
            b"False",
            b"True",
            b"SmallInteger",
            b"Metaclass",
        ],
    ),
    (
        Some((Shape::Fixed, 2)),
        &[
            b"Association",
            b"Point",
            b"Message",
            b"ProcessorScheduler",
            b"LinkedList",
        ],
    ),
    (Some((Shape::Fixed, 4)), &[b"Process"]),
    (Some((Shape::Fixed, 1)), &[b"Character"]),
    (Some((Shape::Indexed, 0)), &[b"Array"]),
    (
        Some((Shape::Indexed, 6)),
        &[b"MethodContext", b"BlockContext"],
    ),
    (Some((Shape::Indexed, 2)), &[b"MethodDictionary"]),
    (
        Some((Shape::Bytes, 0)),
        &[
            b"String",
            b"Symbol",
            b"LargePositiveInteger",
            b"CompiledMethod",
        ],
    ),
];
