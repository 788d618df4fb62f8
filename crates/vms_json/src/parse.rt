// Reads JSON texts as trees.
ghost use Rattle.std.specs.Prelude.{◌≡◌, ◌≤◌, ◌++◌, ◌∷◌, [], ℕ, List, length, get_or, true, false, Option, Some, None, Err, IfOk, IfErr, OnOk, MatchBool};
ghost use Rattle.json.specs.Json.{value};
ghost use Rattle.json.specs.Reads.{token_of};
ghost use Rattle.json.specs.Token.{Token as TokenRead};
ghost use Rattle.serde_json.specs.Data.{Data, array, object, no_items, Members};
ghost use Rattle.serde_json.specs.Read.{of_json, converted, read};
ghost use Rattle.vms_json.specs.Frames.{Frame, before};
ghost use Rattle.vms_json.specs.Laying.{AreBelow, InList, InObject, IsLaid, HasValue, IsRowOf, is_in_list, IsUnder, HasEnded, IsWhole};
ghost use Rattle.vms_json.specs.Nodes.{is_list, tree_view};
ghost use Rattle.vms_json.specs.declared.node.Row.{Row as RowRead};

use crate::node::{Row, Tree};
use crate::number::number_of;
use json::{Invalid, Reader, Scratch, Token};
use std::alloc::{AllocError, AllocFailed, Global};

/// The greatest number of levels of lists and objects in a value. `serde_json` has the same limit.
pub const DEEPEST: usize = 127;

/// A reason why a text gives no tree.
#[derive(Clone, Copy, Drop)]
pub enum NoNode {
    /// The text is no JSON value.
    Syntax,
    /// Out of memory.
    NoMemory,
}

impl From<Invalid> for NoNode {
    ghost use Rattle.vms_json.specs.declared.parse.NoNode.TheVariants.{Syntax};

    ghost from_gives = { λ _ e. e ≡ Syntax };

    fn from(_: Invalid) -> Self {
        NoNode::Syntax
    }
}

impl From<AllocError> for NoNode {
    ghost use Rattle.vms_json.specs.declared.parse.NoNode.TheVariants.{NoMemory};

    ghost from_gives = { λ _ e. e ≡ NoMemory };

    fn from(_: AllocError) -> Self {
        NoNode::NoMemory
    }
}

impl<T: Drop> From<AllocFailed<T>> for NoNode {
    ghost use Rattle.vms_json.specs.declared.parse.NoNode.TheVariants.{NoMemory};

    ghost from_gives = { λ _ e. e ≡ NoMemory };

    fn from(_: AllocFailed<T>) -> Self {
        NoNode::NoMemory
    }
}

/// Reads the JSON value of `text`. Texts with escapes are stored in `scratch`.
///
/// # Errors
///
/// - [`NoNode::Syntax`]: `text` is no JSON value, or it has more than [`DEEPEST`] levels.
/// - [`NoNode::NoMemory`]: out of memory.
pub fn read_node<'a>(
    alloc: Global,
    text: &'a str,
    scratch: &'a mut Scratch,
) -> Result<Tree<'a>, NoNode>
    ensures ok { IfOk result (λ v. read text.now ≡ Some (tree_view v)) }
    ensures err { result ≡ Err NoNode.Syntax → read text.now ≡ None }
{
    // The reader is a local of this function, which passes it only to inlined functions.
    let mut reader = Reader::new(text, scratch)?;
    let mut laid = Laid {
        rows: Vec::new(alloc),
        begun: Vec::new(alloc),
        in_list: false,
    };
    let mut is_done = false;
    while !is_done {
        let token = reader.next().ok_or(NoNode::Syntax)?;
        let is_value = lay(token, &mut reader, &mut laid)?;
        if is_value && !laid.in_list {
            is_done = go_on(&mut reader, &mut laid)?;
        }
    }
    if reader.next().is_some() {
        return Err(NoNode::Syntax);
    }
    Ok(Tree { rows: laid.rows })
}

// Lays the rows of a token where the next value is due. Returns whether a value ends with it.
#[inline(always)]
fn lay<'a>(token: Token<'a>, reader: &mut Reader<'a>, laid: &mut Laid<'a>) -> Result<bool, NoNode>
    requires { AreBelow laid.old.begun.items (length laid.old.rows.items) }
    ensures ok { (said : Option (Data × List TokenRead))
        → IsUnder said laid.old (token_of token.entry ∷ reader.old)
        → IfOk result (λ is_value. MatchBool is_value
        (HasEnded said laid.new reader.new) (IsUnder said laid.new reader.new)) }
    ensures fewer { OnOk result (length reader.new ≤ length reader.old) }
    ensures err { (said : Option (Data × List TokenRead))
        → IsUnder said laid.old (token_of token.entry ∷ reader.old)
        → result ≡ Err NoNode.Syntax → said ≡ None }
{
    match token {
        Token::BeginObject => begin_object(reader, laid),
        Token::EndArray => {
            if !laid.in_list {
                return Err(NoNode::Syntax);
            }
            laid.end();
            Ok(true)
        }
        Token::BeginArray => {
            if laid.begun.len() >= DEEPEST {
                return Err(NoNode::Syntax);
            }
            laid.begin(Row::List(0))?;
            laid.in_list = true;
            Ok(false)
        }
        _ => {
            laid.rows.push(row_of(token)?)?;
            Ok(true)
        }
    }
}

// Reads what follows an opening brace: the first key, or the end of the object. Returns whether it
// ends.
#[inline(always)]
fn begin_object<'a>(reader: &mut Reader<'a>, laid: &mut Laid<'a>) -> Result<bool, NoNode>
    ensures ok { (said : Option (Data × List TokenRead))
        → IsUnder said laid.old (TokenRead.begin_object ∷ reader.old)
        → IfOk result (λ is_value. MatchBool is_value
        (HasEnded said laid.new reader.new) (IsUnder said laid.new reader.new)) }
    ensures fewer { OnOk result (length reader.new ≤ length reader.old) }
    ensures err { (said : Option (Data × List TokenRead))
        → IsUnder said laid.old (TokenRead.begin_object ∷ reader.old)
        → result ≡ Err NoNode.Syntax → said ≡ None }
{
    if laid.begun.len() >= DEEPEST {
        return Err(NoNode::Syntax);
    }
    match reader.next_key()? {
        None => {
            laid.rows.push(Row::Object(1))?;
            Ok(true)
        }
        Some(name) => {
            laid.begin_members(name)?;
            Ok(false)
        }
    }
}

// Reads what follows a value: the next key of an object, or the ends of objects. Returns whether
// the value is the whole.
#[inline(always)]
fn go_on<'a>(reader: &mut Reader<'a>, laid: &mut Laid<'a>) -> Result<bool, NoNode>
    requires { AreBelow laid.old.begun.items (length laid.old.rows.items) }
    ensures ok { (said : Option (Data × List TokenRead)) → HasEnded said laid.old reader.old
        → IfOk result (λ is_whole. MatchBool is_whole
        (IsWhole said laid.new reader.new) (IsUnder said laid.new reader.new)) }
    ensures fewer { OnOk result (length reader.new ≤ length reader.old) }
    ensures err { (said : Option (Data × List TokenRead)) → HasEnded said laid.old reader.old
        → result ≡ Err NoNode.Syntax → said ≡ None }
{
    while !laid.in_list {
        if laid.begun.is_empty() {
            return Ok(true);
        }
        match reader.next_key()? {
            Some(name) => {
                laid.rows.push(Row::Key(name))?;
                return Ok(false);
            }
            None => laid.end(),
        }
    }
    Ok(false)
}

// Returns the row of a token that is a value.
#[inline(always)]
fn row_of<'a>(token: Token<'a>) -> Result<Row<'a>, NoNode>
    ensures ok { IfOk result (λ r. IsRowOf (token_of token.entry) r) }
    ensures err { result ≡ Err NoNode.Syntax → (ts : List TokenRead)
        → converted of_json (value 0 (token_of token.entry ∷ ts)) ≡ None }
{
    match token {
        Token::String(text) => Ok(Row::Text(text)),
        Token::Number(text) => match number_of(text) {
            Some(number) => Ok(Row::Number(number)),
            None => Err(NoNode::Syntax),
        },
        Token::Bool(b) => Ok(Row::Bool(b)),
        Token::Null => Ok(Row::Null),
        _ => Err(NoNode::Syntax),
    }
}

// The rows so far, the places where open lists and objects begin, and whether the innermost is a
// list.
#[derive(Drop)]
struct Laid<'a> {
    rows: Vec<Row<'a>>,
    begun: Vec<usize>,
    in_list: bool,
}

impl<'a> Laid<'a> {
    // Begins a list or an object.
    #[inline(always)]
    fn begin(&mut self, row: Row<'a>) -> Result<(), NoNode>
        ensures rows { OnOk result (self.new.rows.items ≡ self.old.rows.items ++ row.entry ∷ []) }
        ensures begun { OnOk result (self.new.begun.items
            ≡ self.old.begun.items ++ length self.old.rows.items ∷ []) }
        ensures err { IfErr result (λ why. why ≡ NoNode.NoMemory) }
    {
        self.begun.push(self.rows.len())?;
        self.rows.push(row)?;
        Ok(())
    }

    // Begins an object with its first key. The rows have room in this function, which is inlined, so
    // an object without members needs none.
    #[inline(always)]
    fn begin_members(&mut self, name: &'a str) -> Result<(), NoNode>
        ensures rows { OnOk result (self.new.rows.items
            ≡ (self.old.rows.items ++ Row.Object 0 ∷ []) ++ Row.Key name.entry ∷ []) }
        ensures begun { OnOk result (self.new.begun.items
            ≡ self.old.begun.items ++ length self.old.rows.items ∷ []) }
        ensures inside { OnOk result (self.new.in_list ≡ false) }
        ensures err { IfErr result (λ why. why ≡ NoNode.NoMemory) }
    {
        self.begin(Row::Object(0))?;
        self.in_list = false;
        self.rows.push(Row::Key(name))?;
        Ok(())
    }

    // Ends the innermost list or object.
    #[inline(always)]
    fn end(&mut self)
        requires { AreBelow self.old.begun.items (length self.old.rows.items) }
        ensures list { (fs : List Frame) (done : List Data)
            → InList (IsLaid fs) done self.old.rows.items self.old.begun.items
            → self.old.in_list ≡ true
            → HasValue fs self.new.rows.items self.new.begun.items (array (before done no_items))
            × (self.new.in_list ≡ is_in_list fs) }
        ensures object { (fs : List Frame) (found : Members)
            → InObject (IsLaid fs) found self.old.rows.items self.old.begun.items
            → self.old.in_list ≡ false
            → HasValue fs self.new.rows.items self.new.begun.items (object found)
            × (self.new.in_list ≡ is_in_list fs) }
        ensures within { AreBelow self.new.begun.items (length self.new.rows.items) }
    {
        let Some(at) = self.begun.pop() else {
            return;
        };
        let count = self.rows.len() - at;
        let row = if self.in_list {
            Row::List(count)
        } else {
            Row::Object(count)
        };
        self.rows[at] = row;
        self.in_list = self.is_in_list();
    }

    // Returns whether the innermost is a list, by its row.
    #[inline(always)]
    fn is_in_list(&self) -> bool
        requires { AreBelow self.now.begun.items (length self.now.rows.items) }
        ensures none { self.now.begun.items ≡ [] → result ≡ false }
        ensures some { (places : List ℕ) (at : ℕ) (none : RowRead)
            → self.now.begun.items ≡ places ++ at ∷ []
            → result ≡ is_list (get_or self.now.rows.items at none) }
    {
        match self.begun.last() {
            Some(at) => self.rows[*at].is_list(),
            None => false,
        }
    }
}
