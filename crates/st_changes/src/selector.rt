// The selector of a definition's text.
ghost use Rattle.std.specs.Prelude.{◌≡◌, ◌≤◌, ◌^◌, ◌-◌, IfOk, length};
ghost use Rattle.std.specs.Option.{option_map};
ghost use Rattle.st_changes.specs.Last.{FindsSelector};

use st_parse::parse;
use st_scan::{MethodTree, SyntaxFault, Text};
use std::alloc::{AllocError, Global};

/// The selector of the tree that a method's text means, or none where it means none.
pub fn find_selector(alloc: Global, text: &[u8]) -> Result<Option<Text>, AllocError>
    requires { length text.now ≤ 2 ^ 32 - 2 }
    ensures { IfOk result (λ s. FindsSelector text.now (option_map (λ v. v.items) s)) }
{
    match parse(alloc, text) {
        Ok(tree) => {
            let MethodTree { selector, .. } = tree;
            Ok(Some(selector))
        }
        Err(SyntaxFault::At { .. }) => Ok(None),
        Err(SyntaxFault::OutOfMemory) => Err(AllocError),
    }
}
