//! How many words code has on the stack.

ghost use Rattle.std.specs.Prelude.{◌≡◌};
ghost use Rattle.st_emit.specs.Depths.{around, beside, joined, within};

/// How many words are on the stack at a place, whether some path comes there, how many were on it at most, and the
/// greatest depth of a block so far.
#[derive(Clone, Copy)]
pub struct Level {
    pub height: usize,
    pub live: bool,
    pub greatest: usize,
    pub blocks: usize,
}

/// Where the second side begins, given where the first began and ended.
pub fn beside(start: Level, first: Level) -> Level
    ensures { result ≡ beside start first }
{
    Level {
        height: start.height,
        live: start.live,
        ..first
    }
}

/// Behind both sides, given where they ended.
pub fn joined(first: Level, second: Level) -> Level
    ensures { result ≡ joined first second }
{
    let height = if second.live {
        second.height
    } else {
        first.height
    };
    Level {
        height,
        live: first.live || second.live,
        ..second
    }
}

/// Where the body of a block begins, with its arguments on the stack.
pub fn within(arguments: usize, outside: Level) -> Level
    ensures { result ≡ within arguments outside }
{
    Level {
        height: arguments,
        live: true,
        greatest: arguments,
        blocks: outside.blocks,
    }
}

/// Behind a block, given where its body ended.
pub fn around_block(outside: Level, body: Level) -> Level
    ensures { result ≡ around outside body }
{
    Level {
        blocks: body.blocks.max(body.greatest),
        ..outside
    }
}
