// What is written of a description, as JSON without spaces.
ghost use Rattle.std.specs.Prelude.{◌≡◌, ◌++◌, true, pos, codes, int_lt, IfOk, string_capacity};
ghost use Rattle.serde_json.specs.Data.{string, boolean, number};
ghost use Rattle.serde_json.specs.Find.{of_integer};
ghost use Rattle.serde_json.specs.Written.{compact_text};
ghost use Rattle.vms_selfdesc.specs.Calls.{ArePlain};
ghost use Rattle.vms_selfdesc.specs.Drafts.{Begins, Extends, IsNew, IsPlain, Puts, Spells};
ghost use Rattle.vms_selfdesc.specs.Needs.{IsWide};
ghost use Rattle.vms_selfdesc.specs.Tree.{natural};

use crate::path::Path;
use crate::text::Text;
use itoa::Buffer;
use std::alloc::{AllocError, Global};

// The text so far, the path of the next element, and whether the next one isn't the first in its array.
#[derive(Drop)]
pub(crate) struct Draft {
    pub(crate) text: Text,
    pub(crate) path: Path,
    pub(crate) later: bool,
}

impl Draft {
    // Returns an empty draft with room for `capacity` bytes.
    pub(crate) fn with_capacity(alloc: Global, capacity: usize) -> Result<Self, AllocError>
        ensures { IfOk result (λ d. IsNew d capacity) }
    {
        let written = String::with_capacity(alloc, capacity)?;
        let path = Path::new(alloc)?;
        Ok(Draft {
            text: Text {
                written,
                whole: true,
            },
            path,
            later: false,
        })
    }

    // Removes everything that was written. The room stays.
    pub(crate) fn clear(&mut self)
        ensures { IsNew self.new (string_capacity self.old.text.written) }
    {
        self.text.clear();
        self.path.clear();
        self.later = false;
    }
}

// Begins an object of an array.
pub(crate) fn begin(draft: &mut Draft, front: &str)
    ensures { Begins draft.old draft.new front.now }
{
    if draft.later {
        draft.text.push(",");
    }
    draft.text.push(front);
}

fn put_key(text: &mut Text, key: &str)
    ensures { Extends text.old text.new (codes ",\"" ++ (key.now ++ codes "\":")) }
{
    text.push(",\"");
    text.push(key);
    text.push("\":");
}

/// Appends a member with a text.
pub(crate) fn put_text(text: &mut Text, key: &str, value: &str)
    requires { ArePlain key.now value.now }
    ensures { Puts text.old text.new key.now (string value.now) }
{
    put_key(text, key);
    text.push("\"");
    text.push(value);
    text.push("\"");
}

fn flag_word(flag: bool) -> &'static str
    ensures { result.now ≡ compact_text (boolean flag) }
{
    if flag { "true" } else { "false" }
}

/// Appends a member with a truth value.
pub(crate) fn put_flag(text: &mut Text, key: &str, flag: bool)
    requires { IsPlain key.now }
    ensures { Puts text.old text.new key.now (boolean flag) }
{
    put_key(text, key);
    text.push(flag_word(flag));
}

/// Appends a member with a natural number.
pub(crate) fn put_natural(text: &mut Text, key: &str, number: u64)
    requires { IsPlain key.now }
    ensures { Puts text.old text.new key.now (natural number) }
{
    put_key(text, key);
    put_digits(text, number);
}

fn put_digits(text: &mut Text, number: u64)
    ensures { Spells text.old text.new (natural number) }
{
    let mut digits = Buffer::new();
    text.push(digits.format(number));
}

// Appends a number of 64 bits, with or without a sign.
pub(crate) fn put_integer(text: &mut Text, value: i128)
    requires { IsWide value }
    ensures { Spells text.old text.new (number (of_integer value)) }
{
    if value < 0 {
        put_negative(text, value as i64);
    } else {
        put_digits(text, value as u64);
    }
}

fn put_negative(text: &mut Text, value: i64)
    requires { int_lt value (pos 0) ≡ true }
    ensures { Spells text.old text.new (number (of_integer value)) }
{
    let mut digits = Buffer::new();
    text.push(digits.format(value));
}
