/// What a primitive on two integers from 0 up answers. Its integers are below 2^128.
#[derive(Clone, Copy, Debug, PartialEq, Eq)]
pub enum LargeAnswer {
    /// This integer.
    Number(u128),
    /// true or false.
    Truth(bool),
}

/// What a primitive on two SmallIntegers answers. Its integers are from -16384 to 16383.
#[derive(Clone, Copy, Debug, PartialEq, Eq)]
pub enum IntAnswer {
    /// This SmallInteger.
    Number(i16),
    /// true or false.
    Truth(bool),
    /// The Point of these two.
    Point(i16, i16),
}
