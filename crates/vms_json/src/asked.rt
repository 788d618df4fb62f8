// Whether a walk looks up names of fields.
ghost use Rattle.std.specs.Prelude.{◌≡◌, ◌&&◌, ◌||◌, codes, option_and_then};
ghost use Rattle.std.specs.List.{list_any};
ghost use Rattle.serde_json.specs.Find.{get, as_array};
ghost use Rattle.vms_json.specs.Keys.{has};
ghost use Rattle.vms_json.specs.Nodes.{view, items_left};
ghost use Rattle.vms_json.specs.Asked.{asks_a_name, some_ask, asks_in, asks_names};

use crate::keys::{has, has_either};
use crate::node::{Items, Node};

/// Returns whether a walk that looks up names finds one in the description `value`: in a
/// validation, a subsection, or a test or a count of a field.
///
/// If `asks` is false, the walk looks up no names and the answer is false.
pub fn is_asked(asks: bool, value: &Node) -> bool
    ensures { result ≡ (asks && asks_names (view value.now)) }
{
    asks && (has(value, "validate") || has(value, "subsections") || fields_ask(value))
}

fn fields_ask(value: &Node) -> bool
    ensures { result ≡ asks_in (option_and_then as_array (get (codes "fields") (view value.now))) }
{
    match value.get("fields").and_then(Node::as_list) {
        Some(fields) => any_asks(fields),
        None => false,
    }
}

fn any_asks(mut fields: Items) -> bool
    ensures { result ≡ some_ask (items_left fields.entry) }
{
    while let Some(field) = fields.next() {
        if asks_a_name(&field) {
            return true;
        }
    }
    false
}

fn asks_a_name(field: &Node) -> bool
    ensures { result ≡ asks_a_name (view field.now) }
{
    has_either(field, "test", "counted")
}
