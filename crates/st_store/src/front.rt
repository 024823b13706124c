// The first bytes of a roots file: its letters, its gate and its roots.
ghost use Rattle.std.specs.Prelude.{◌≤◌, ◌+◌, ◌*◌, ◌<◌, MatchOption, IfOk, IfErr, Some};
ghost use Rattle.st_store.specs.Roots.{HasLetters, Chooses};
ghost use Rattle.st_store.specs.Refusals.{IsWrongLetter, IsWrongFront};

use crate::Root;
use crate::root::read_root;

pub(crate) const LETTERS: [u8; 8] = *b"ST80ROOT";

/// A root, and which of the two it is.
#[derive(Clone, Copy)]
pub(crate) struct Chosen {
    pub(crate) number: u64,
    pub(crate) root: Root,
}

/// The place of the first letter that is wrong or not there.
pub(crate) fn find_wrong_letter(front: &[u8]) -> Option<u64>
    ensures { MatchOption result (HasLetters front.now) (λ at. IsWrongLetter front.now at) }
{
    for i in 0..8 {
        if i >= front.len() {
            return Some(i as u64);
        }
        if front[i] != LETTERS[i] {
            return Some(i as u64);
        }
    }
    None
}

/// The root that the first 80 bytes choose, or the first wrong place.
pub(crate) fn choose(front: &[u8]) -> Result<Chosen, u64>
    ensures number { IfOk result (λ chosen. chosen.number ≤ 1) }
    ensures slot { IfOk result (λ chosen. chosen.root.slot ≤ 3) }
    ensures chooses { IfOk result (λ chosen. Chooses chosen.number chosen.root (Some front.now)) }
    ensures wrong { IfErr result (λ at. IsWrongFront front.now at) }
{
    if let Some(at) = find_wrong_letter(front) {
        return Err(at);
    }
    if front.len() < 80 {
        return Err(front.len() as u64);
    }
    let number = u64::from(front[8] % 2);
    let at = 16 + 32 * number as usize;
    let root = read_root(front, at);
    if root.slot > 3 {
        return Err(at as u64);
    }
    Ok(Chosen { number, root })
}
