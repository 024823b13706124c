// The shape of a class's instances.

/// What the instances of a class have.
#[derive(Clone, Copy, Debug, PartialEq, Eq)]
pub enum Shape {
    /// Fields.
    Fixed,
    /// Fields, and further ones behind them.
    Indexed,
    /// Words of 16 bits.
    Words,
    /// Bytes.
    Bytes,
}
