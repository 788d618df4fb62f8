// Reads bytes as JSON.
ghost use Rattle.std.specs.Prelude.{◌≡◌, Some, None, Err, IfOk};
ghost use Rattle.vms_json.specs.Nodes.{tree_view};
ghost use Rattle.vms_json.specs.Texts.{value_in};

use crate::Tree;
use crate::parse::{NoNode, read_node};
use json::Scratch;
use std::alloc::Global;
use std::str;

/// Reads the JSON value of `bytes`. Texts with escapes are stored in `scratch`.
///
/// # Errors
///
/// - [`NoNode::Syntax`]: `bytes` isn't UTF-8 or no JSON value.
/// - [`NoNode::NoMemory`]: out of memory.
pub fn read_bytes<'a>(
    alloc: Global,
    bytes: &'a [u8],
    scratch: &'a mut Scratch,
) -> Result<Tree<'a>, NoNode>
    ensures ok { IfOk result (λ v. value_in bytes.now ≡ Some (tree_view v)) }
    ensures err { result ≡ Err NoNode.Syntax → value_in bytes.now ≡ None }
{
    match str::from_utf8(bytes) {
        Ok(text) => read_node(alloc, text, scratch),
        Err(_) => Err(NoNode::Syntax),
    }
}
