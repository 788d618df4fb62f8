// JSON values as rows over their text.
ghost use Rattle.std.specs.Prelude.{◌≡◌, ◌<◌, ◌≤◌, length, take, drop, MatchOption, IfSome, OnSome, IsNone, option_map, option_and_then};
ghost use Rattle.serde_json.specs.Data as Data;
ghost use Rattle.serde_json.specs.Data.{no_items, item, put};
ghost use Rattle.std.specs.Str.{bytes_eq};
ghost use Rattle.serde_json.specs.Find.{as_number, as_str, as_array, as_object, as_bool, as_u64, get, get_member};
ghost use Rattle.serde_json.specs.Events.{items_len};
ghost use Rattle.serde_json.specs.View.{number_view};
ghost use Rattle.vms_json.specs.Nodes.{count_at, flag_at, is_list, is_object, key_at, number_at, text_at, front, view, tree_view, items_left, members_left, members_on};

use serde_json::Number;

/// A row of a tree.
///
/// The rows of a list's items follow the list's row, and so do those of an object's members. A
/// member's key comes before the rows of its value.
#[derive(Clone, Copy, Drop)]
pub enum Row<'a> {
    /// The value `null`.
    Null,
    /// A bool.
    Bool(bool),
    /// A number.
    Number(Number),
    /// A text.
    Text(&'a str),
    /// The key of a member.
    Key(&'a str),
    /// A list, with the number of its rows, its own included.
    List(usize),
    /// An object, with the number of its rows, its own included.
    Object(usize),
}

impl<'a> Row<'a> {
    // Returns the number of rows of the value that begins with this row.
    #[inline(always)]
    fn count(&self) -> usize
        ensures { result ≡ count_at self.now }
    {
        match self {
            Row::List(count) => *count,
            Row::Object(count) => *count,
            _ => 1,
        }
    }

    fn number(&self) -> Option<&Number>
        ensures { option_map (λ n. number_view n.now) result ≡ number_at self.now }
    {
        match self {
            Row::Number(number) => Some(number),
            _ => None,
        }
    }

    fn text(&self) -> Option<&'a str>
        ensures { option_map (λ s. s.now) result ≡ text_at self.now }
    {
        match self {
            Row::Text(text) => Some(*text),
            _ => None,
        }
    }

    fn flag(&self) -> Option<bool>
        ensures { result ≡ flag_at self.now }
    {
        match self {
            Row::Bool(flag) => Some(*flag),
            _ => None,
        }
    }

    #[inline(always)]
    pub(crate) fn is_list(&self) -> bool
        ensures { result ≡ is_list self.now }
    {
        matches!(self, Row::List(_))
    }

    fn is_object(&self) -> bool
        ensures { result ≡ is_object self.now }
    {
        matches!(self, Row::Object(_))
    }

    // Returns the key, if the row is one.
    #[inline(always)]
    fn key(&self) -> Option<&'a str>
        ensures { result ≡ key_at self.now }
    {
        match self {
            Row::Key(key) => Some(*key),
            _ => None,
        }
    }
}

/// The value of a JSON text. Its texts borrow from the text that was read, or from the scratch.
#[derive(Drop)]
pub struct Tree<'a> {
    pub(crate) rows: Vec<Row<'a>>,
}

impl<'a> Tree<'a> {
    /// Returns the whole value.
    pub fn root(&self) -> Node<'_, 'a>
        ensures { view result ≡ tree_view self.now }
    {
        Node {
            rows: self.rows.as_slice(),
        }
    }
}

/// A value of a tree.
///
/// The members of an object are in the order of the text. If a key comes twice, the last one
/// counts.
#[derive(Clone, Copy, Drop)]
pub struct Node<'t, 'a> {
    pub(crate) rows: &'t [Row<'a>],
}

impl<'t, 'a> Node<'t, 'a> {
    /// Returns the number, or `None` if the value is no number.
    pub fn as_number(self) -> Option<&'t Number>
        ensures { option_map (λ n. number_view n.now) result ≡ as_number (view self.entry) }
    {
        match self.rows.split_first() {
            Some((row, _inside)) => row.number(),
            None => None,
        }
    }

    /// Returns the number as a `u64`, or `None` if the value is no whole number in that range.
    pub fn as_u64(self) -> Option<u64>
        ensures { result ≡ option_and_then as_u64 (as_number (view self.entry)) }
    {
        match self.as_number() {
            Some(number) => number.as_u64(),
            None => None,
        }
    }

    /// Returns the text, or `None` if the value is no text.
    pub fn as_str(self) -> Option<&'a str>
        ensures { option_map (λ s. s.now) result ≡ as_str (view self.entry) }
    {
        match self.rows.split_first() {
            Some((row, _inside)) => row.text(),
            None => None,
        }
    }

    /// Returns the bool, or `None` if the value is no bool.
    pub fn as_bool(self) -> Option<bool>
        ensures { result ≡ as_bool (view self.entry) }
    {
        match self.rows.split_first() {
            Some((row, _inside)) => row.flag(),
            None => None,
        }
    }

    /// Returns the items, or `None` if the value is no list.
    pub fn as_list(self) -> Option<Items<'t, 'a>>
        ensures { option_map items_left result ≡ as_array (view self.entry) }
    {
        match self.rows.split_first() {
            Some((row, rows)) if row.is_list() => Some(Items { rows }),
            _ => None,
        }
    }

    /// Returns the members in the order of the text, or `None` if the value is no object.
    pub fn as_members(self) -> Option<Members<'t, 'a>>
        ensures { option_map members_left result ≡ as_object (view self.entry) }
    {
        match self.rows.split_first() {
            Some((row, rows)) if row.is_object() => Some(Members { rows }),
            _ => None,
        }
    }

    /// Returns the member `key`, or `None` if the value is no object that has one. If the key comes
    /// twice, it is the last.
    #[inline(always)]
    pub fn get(self, key: &str) -> Option<Node<'t, 'a>>
        ensures { option_map view result ≡ get key.now (view self.entry) }
    {
        match self.as_members() {
            Some(members) => find(members, key),
            None => None,
        }
    }
}

/// The rest of a list's items.
#[derive(Clone, Copy, Drop)]
pub struct Items<'t, 'a> {
    rows: &'t [Row<'a>],
}

impl<'t, 'a> Items<'t, 'a> {
    /// Returns the number of items.
    pub fn count(self) -> usize
        ensures { result ≡ items_len (items_left self.entry) }
    {
        let mut left = self;
        let mut count: usize = 0;
        while let Some(_item) = left.next() {
            count += 1;
        }
        count
    }

    /// Returns the next item, or `None` if there is none.
    #[inline(always)]
    pub fn next(&mut self) -> Option<Node<'t, 'a>>
        ensures value { MatchOption result (items_left self.old ≡ no_items)
            (λ v. items_left self.old ≡ item (view v) (items_left self.new)) }
        ensures fewer { OnSome result (length self.new.rows.now < length self.old.rows.now) }
        ensures end { IsNone result → self.new ≡ self.old }
    {
        if self.rows.is_empty() {
            return None;
        }
        let parted = cut(self.rows);
        *self = Items { rows: parted.rest };
        Some(Node { rows: parted.first })
    }
}

/// The rest of an object's members.
#[derive(Clone, Copy, Drop)]
pub struct Members<'t, 'a> {
    rows: &'t [Row<'a>],
}

impl<'t, 'a> Members<'t, 'a> {
    /// Returns the next member with its key, or `None` if there is none.
    #[inline(always)]
    pub fn next(&mut self) -> Option<(&'a str, Node<'t, 'a>)>
        ensures value { (found : Data.Members)
            → MatchOption result (members_on self.old found ≡ found)
            (λ m. members_on self.old found
            ≡ members_on self.new (put m.0.now (view m.1) found)) }
        ensures fewer { OnSome result (length self.new.rows.now < length self.old.rows.now) }
        ensures end { IsNone result → self.new ≡ self.old }
    {
        let Some((row, rows)) = self.rows.split_first() else {
            return None;
        };
        let Some(key) = row.key() else {
            return None;
        };
        let parted = cut(rows);
        *self = Members { rows: parted.rest };
        Some((key, Node { rows: parted.first }))
    }

    /// Returns the next member's value, or `None` if there is no next member or it has another key.
    #[inline(always)]
    pub fn next_of(&mut self, key: &str) -> Option<Node<'t, 'a>>
        ensures { IfSome result (λ v. (found : Data.Members)
            → members_on self.old found ≡ members_on self.new (put key.now (view v) found)) }
    {
        let (name, value) = self.next()?;
        if name == key { Some(value) } else { None }
    }
}

// The rows of the first value, and those after them.
#[derive(Clone, Copy, Drop)]
struct Parted<'t, 'a> {
    first: &'t [Row<'a>],
    rest: &'t [Row<'a>],
}

#[inline(always)]
fn cut<'t, 'a>(rows: &'t [Row<'a>]) -> Parted<'t, 'a>
    ensures first { result.first.now ≡ take (front rows.now) rows.now }
    ensures rest { result.rest.now ≡ drop (front rows.now) rows.now }
    ensures fewer { 0 < length rows.now → length result.rest.now < length rows.now }
{
    let (first, rest) = rows.split_at(front(rows));
    Parted { first, rest }
}

// Returns the number of rows of the first value.
#[inline(always)]
fn front(rows: &[Row]) -> usize
    ensures value { result ≡ front rows.now }
    ensures within { result ≤ length rows.now }
    ensures some { 0 < length rows.now → 0 < result }
{
    match rows.first() {
        Some(row) => row.count().max(1).min(rows.len()),
        None => 0,
    }
}

fn find<'t, 'a>(mut members: Members<'t, 'a>, key: &str) -> Option<Node<'t, 'a>>
    ensures { option_map view result ≡ get_member key.now (members_left members.entry) }
{
    let mut found = None;
    while let Some((name, value)) = members.next() {
        if is_key(name, key) {
            found = Some(value);
        }
    }
    found
}

// Returns whether two keys are equal. Most differ in length.
pub(crate) fn is_key(key: &str, other: &str) -> bool
    ensures { result ≡ bytes_eq key.now other.now }
{
    key.len() == other.len() && key == other
}
