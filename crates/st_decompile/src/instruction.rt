//! Bytes as instructions.

ghost use Rattle.std.specs.Prelude.{◌≡◌, drop, IfOk};
ghost use Rattle.st_decompile.specs.inside.Decoded.{AreSteps};

use st_emit::Instruction;
use st_resolved::instruction;
use std::alloc::{AllocError, Global};

/// The bytes behind so many.
fn behind(count: usize, bytes: &[u8]) -> &[u8]
    ensures { result.now ≡ drop count bytes.now }
{
    if count <= bytes.len() {
        &bytes[count..]
    } else {
        &[]
    }
}

/// Bytes as instructions.
pub fn steps_of(alloc: Global, bytes: &[u8]) -> Result<Option<Vec<Instruction>>, AllocError>
    ensures { IfOk result (AreSteps bytes.now) }
{
    let mut steps = Vec::new(alloc);
    let mut rest = bytes;
    for i in 0..bytes.len() {
        if rest.is_empty() {
            return Ok(Some(steps));
        }
        let Some(found) = instruction(rest) else {
            return Ok(None);
        };
        steps.push(found.step)?;
        rest = behind(found.size, rest);
    }
    if rest.is_empty() {
        Ok(Some(steps))
    } else {
        Ok(None)
    }
}
