//! One edit of a document with marks, where a pointer leads.

ghost use Rattle.std.specs.Prelude.{◌≡◌, ◌↔◌, ◌≤◌, ℕ, List, [], IfOk, OnOk, IsOk, IsTrue, Some, string_bytes};
ghost use Rattle.serde_json.specs.Data.{Data, array, object};
ghost use Rattle.serde_json.specs.View.{view, items_view, members_view};
ghost use Rattle.jsonptr.specs.Pointers.{token_of, tokens_left, tokens_of};
ghost use Rattle.json_patch_document.specs.ChangeComputed.{after_change, insert_item};
ghost use Rattle.json_patch_document.specs.Document.{IsDocument};
ghost use Rattle.json_patch_edit.specs.Exchange.{AreFitting, Exchanges, ExchangesIn, FindsAt, FindsRoot, FindsWhere, Fits};
ghost use Rattle.json_patch_edit.specs.Exchange.{IsLight, IsDecoded, IsRemoving, IsSwapping, IsUnmarkedFor, is_removable};
ghost use Rattle.json_patch_edit.specs.Exchange.{is_swappable, swapped, made, made_root, made_where, room};
ghost use Rattle.json_patch_edit.specs.declared.edits.Edit.TheVariants.{Clear, Insert, Remove, Swap, Sweep, Take, Undo};
ghost use Rattle.json_patch_edit.specs.declared.edits.Found.TheVariants.{Former, Nothing, Taken};
ghost use Rattle.json_patch_edit.specs.NoMemory.{AreUnescaped, NeverShort};
ghost use Rattle.json_patch_edit.specs.Marked.{AreMarkedItems, AreMarkedMembers, IsMarked};

use crate::error::StepFault;
use crate::marks::{clear, is_mark, live_count};
use crate::shift::{insert_at, remove_at};
use crate::walk::{item_index, slot_index};
use json_patch_operation::PatchErrorKind;
use jsonptr::{Pointer, Token, Tokens};
use serde_json::{Map, Value};
use std::alloc::{AllocError, Global};
use std::mem;

/// An edit at one place. It exchanges what stands there and a value of its caller's.
#[derive(Clone, Copy)]
pub enum Edit {
    /// Puts the value there: as a new member, in a member's place, or as a new element.
    Insert,
    /// Takes away what stands there and leaves a mark, which is the caller's value.
    Take,
    /// Takes away what stands there, and leaves no mark. It is made where there is none.
    Remove,
    /// Puts the value in place of what stands there.
    Swap,
    /// Undoes an edit that found this, with the value that it left its caller.
    Undo(Found),
    /// Takes away a mark: the member, or one at the end of the array.
    Clear,
    /// Takes all marks out of what stands there.
    Sweep,
}

/// What an edit found at its place. Its caller has the value.
#[derive(Clone, Copy)]
pub enum Found {
    /// No value: a member is new there, or an element, before those that stood there.
    Nothing,
    /// The value, or the mark, in whose place another stands now.
    Former,
    /// The value that was taken away.
    Taken,
}

/// Where the names of members are decoded, and the memory for new ones. While it has room for a
/// token, its name takes no memory.
#[derive(Drop)]
pub struct Names {
    pub alloc: Global,
    pub text: String,
}

impl Names {
    /// One with no name decoded, and no room.
    pub fn new(alloc: Global) -> Names
        ensures { string_bytes result.text ≡ [] }
    {
        Names {
            alloc,
            text: String::new(alloc),
        }
    }

    /// Makes room for each token of the pointer.
    #[tactic(auto, using(crate::proofs::Exchanges::unescaped_fit, crate::proofs::Exchanges::text_fits))]
    pub fn make_room(&mut self, path: Pointer<'_>) -> Result<(), AllocError>
        ensures fits { OnOk result (AreFitting (room self.new) (tokens_of path.entry)) }
        ensures grows { room self.old ≤ room self.new }
    {
        if is_unescaped(path) {
            return Ok(());
        }
        self.text.clear();
        self.text.reserve(path.len())
    }

    /// Whether no name of the pointer's tokens takes memory.
    pub fn has_room(&self, path: Pointer<'_>) -> bool
        ensures { IsTrue result ↔ AreFitting (room self.now) (tokens_of path.entry) }
    {
        for token in path.tokens() {
            let encoded = token.encoded();
            if encoded.len() > self.text.capacity() && !token.is_key(encoded) {
                return false;
            }
        }
        true
    }

    /// Whether the token's name is in `text` now, where it was decoded; else it is the token as it
    /// stands, which holds no escape.
    fn decode(&mut self, token: Token<'_>) -> Result<bool, AllocError>
        ensures name { IfOk result (λ decoded. IsDecoded decoded self.new (token_of token.entry)) }
        ensures no_memory { Fits (room self.old) (token_of token.entry) → IsOk result }
        ensures grows { room self.old ≤ room self.new }
    {
        if token.is_key(token.encoded()) {
            return Ok(false);
        }
        token.decode_into(&mut self.text)?;
        Ok(true)
    }

    /// The member's name that the token stands for, which was read last.
    fn name<'n>(&'n self, token: Token<'n>, decoded: bool) -> &'n str
        requires { IsDecoded decoded self.now (token_of token) }
        ensures { result.now ≡ token_of token.entry }
    {
        if decoded {
            self.text.as_str()
        } else {
            token.encoded()
        }
    }
}

/// Whether the pointer's string holds no `~`.
fn is_unescaped(path: Pointer<'_>) -> bool
    ensures { IsTrue result ↔ AreUnescaped (tokens_of path.entry) }
{
    for token in path.tokens() {
        if !token.is_key(token.encoded()) {
            return false;
        }
    }
    true
}

/// An edit at a token of a container.
#[derive(Clone, Copy)]
struct TokenEdit<'a> {
    token: Token<'a>,
    edit: Edit,
}

/// Makes the edit where the pointer leads.
pub fn make(
    names: &mut Names,
    doc: &mut Value,
    path: Pointer<'_>,
    edit: Edit,
    value: &mut Value,
) -> Result<Found, StepFault>
    requires marked { IsMarked (view doc.old) }
    requires unmarked { IsUnmarkedFor edit (view doc.old) }
    ensures makes { Exchanges result
        (made_where edit (view value.old) (view doc.old) (tokens_of path.entry))
        (FindsWhere edit (view doc.old) (tokens_of path.entry))
        (view doc.old) (view doc.new) (view value.old) (view value.new) }
    ensures no_memory { IsLight edit → AreFitting (room names.old) (tokens_of path.entry)
        → NeverShort result }
    ensures grows { room names.old ≤ room names.new }
{
    match path.split_back() {
        Some((parent, token)) => {
            let last = TokenEdit { token, edit };
            edit_at(names, doc, parent.tokens(), last, value)
        }
        None => edit_root(doc, edit, value),
    }
}

fn edit_root(doc: &mut Value, edit: Edit, value: &mut Value) -> Result<Found, StepFault>
    ensures makes { Exchanges result (made_root edit (view value.old) (view doc.old))
        (FindsRoot edit (view doc.old))
        (view doc.old) (view doc.new) (view value.old) (view value.new) }
    ensures no_memory { NeverShort result }
{
    match edit {
        Edit::Insert | Edit::Swap | Edit::Undo(Found::Former) => {
            mem::swap(doc, value);
            Ok(Found::Former)
        }
        Edit::Sweep => {
            clear(doc);
            Ok(Found::Former)
        }
        _ => Err(StepFault::Refused(PatchErrorKind::InvalidPointer)),
    }
}

/// Makes the edit in the container to which the tokens of `parent` lead.
fn edit_at(
    names: &mut Names,
    target: &mut Value,
    mut parent: Tokens<'_>,
    last: TokenEdit<'_>,
    value: &mut Value,
) -> Result<Found, StepFault>
    requires marked { IsMarked (view target.old) }
    requires unmarked { IsUnmarkedFor last.edit (view target.old) }
    ensures makes { Exchanges result
        (after_change (made last.entry.edit (view value.old) (token_of last.entry.token))
        (view target.old) (tokens_left parent.entry))
        (FindsAt last.entry.edit (view target.old) (tokens_left parent.entry) (token_of last.entry.token))
        (view target.old) (view target.new) (view value.old) (view value.new) }
    ensures no_memory { IsLight last.entry.edit → AreFitting (room names.old) (tokens_left parent.entry)
        → Fits (room names.old) (token_of last.entry.token) → NeverShort result }
    ensures grows { room names.old ≤ room names.new }
{
    let Some(token) = parent.next() else {
        return edit_in(names, target, last, value);
    };
    match target {
        Value::Object(members) => {
            let decoded = names.decode(token)?;
            let Some(child) = members.get_mut(names.name(token, decoded)) else {
                return Err(StepFault::Refused(PatchErrorKind::InvalidPointer));
            };
            edit_at(names, child, parent, last, value)
        }
        Value::Array(items) => {
            let index = item_index(token, items.len())?;
            edit_at(names, &mut items[index], parent, last, value)
        }
        _ => Err(StepFault::Refused(PatchErrorKind::InvalidPointer)),
    }
}

/// Makes the edit in the container itself.
fn edit_in(
    names: &mut Names,
    container: &mut Value,
    at: TokenEdit<'_>,
    value: &mut Value,
) -> Result<Found, StepFault>
    requires marked { IsMarked (view container.old) }
    requires unmarked { IsUnmarkedFor at.edit (view container.old) }
    ensures makes { ExchangesIn result at.entry.edit (token_of at.entry.token)
        (view container.old) (view container.new) (view value.old) (view value.new) }
    ensures no_memory { IsLight at.entry.edit → Fits (room names.old) (token_of at.entry.token)
        → NeverShort result }
    ensures grows { room names.old ≤ room names.new }
{
    let TokenEdit { token, edit } = at;
    match container {
        Value::Object(members) => edit_members(names, members, token, edit, value),
        Value::Array(items) => edit_items(items, token, edit, value),
        _ => Err(StepFault::Refused(PatchErrorKind::InvalidPointer)),
    }
}

fn edit_members(
    names: &mut Names,
    members: &mut Map<String, Value>,
    token: Token<'_>,
    edit: Edit,
    value: &mut Value,
) -> Result<Found, StepFault>
    requires marked { AreMarkedMembers (members_view members.old.entries) }
    requires unmarked { IsUnmarkedFor edit (object (members_view members.old.entries)) }
    ensures makes { ExchangesIn result edit (token_of token.entry)
        (object (members_view members.old.entries)) (object (members_view members.new.entries))
        (view value.old) (view value.new) }
    ensures no_memory { IsLight edit → Fits (room names.old) (token_of token.entry) → NeverShort result }
    ensures grows { room names.old ≤ room names.new }
{
    if let Edit::Insert = edit {
        return insert_member(members, token.decoded(names.alloc)?, value);
    }
    let decoded = names.decode(token)?;
    let name = names.name(token, decoded);
    match edit {
        Edit::Remove => remove_value(members, name, value),
        Edit::Clear | Edit::Undo(Found::Nothing) => remove_member(members, name, edit, value),
        Edit::Sweep => sweep_member(members, name),
        _ => swap_member(members, name, edit, value),
    }
}

#[tactic(auto, using(crate::proofs::Exchanges::inserts_over, crate::proofs::Exchanges::inserts_new))]
fn insert_member(
    members: &mut Map<String, Value>,
    name: String,
    value: &mut Value,
) -> Result<Found, StepFault>
    ensures makes { ExchangesIn result Insert (string_bytes name)
        (object (members_view members.old.entries)) (object (members_view members.new.entries))
        (view value.old) (view value.new) }
{
    match members.insert(name, mem::take(value)) {
        Ok(Some(former)) => {
            *value = former;
            Ok(Found::Former)
        }
        Ok(None) => Ok(Found::Nothing),
        Err(failed) => {
            let (_name, back) = failed.value;
            *value = back;
            Err(StepFault::Memory(AllocError))
        }
    }
}

/// Takes away the member. None is a mark, so the one that goes needn't be looked at first.
fn remove_value(
    members: &mut Map<String, Value>,
    name: &str,
    value: &mut Value,
) -> Result<Found, StepFault>
    requires { IsDocument (object (members_view members.old.entries)) }
    ensures makes { ExchangesIn result Remove name.now
        (object (members_view members.old.entries)) (object (members_view members.new.entries))
        (view value.old) (view value.new) }
    ensures no_memory { NeverShort result }
{
    let Some(member) = members.remove(name) else {
        return Err(StepFault::Refused(PatchErrorKind::InvalidPointer));
    };
    *value = member;
    Ok(Found::Taken)
}

/// Takes away the member, where the edit takes this one.
fn remove_member(
    members: &mut Map<String, Value>,
    name: &str,
    edit: Edit,
    value: &mut Value,
) -> Result<Found, StepFault>
    requires { IsRemoving edit }
    ensures makes { ExchangesIn result edit name.now
        (object (members_view members.old.entries)) (object (members_view members.new.entries))
        (view value.old) (view value.new) }
    ensures no_memory { NeverShort result }
{
    let Some(member) = members.get(name) else {
        return Err(StepFault::Refused(PatchErrorKind::InvalidPointer));
    };
    if !takes_away(edit, member) {
        return Err(StepFault::Refused(PatchErrorKind::InvalidPointer));
    }
    let Some(member) = members.remove(name) else {
        unreachable!();
    };
    *value = member;
    Ok(Found::Taken)
}

/// Whether the edit takes the member away: `Clear` a mark, and another edit a value.
fn takes_away(edit: Edit, member: &Value) -> bool
    ensures { result ≡ is_removable edit (view member.now) }
{
    match edit {
        Edit::Clear => is_mark(member),
        _ => !is_mark(member),
    }
}

/// Exchanges the value and the member, where the edit may touch this one.
fn swap_member(
    members: &mut Map<String, Value>,
    name: &str,
    edit: Edit,
    value: &mut Value,
) -> Result<Found, StepFault>
    requires { IsSwapping edit }
    ensures makes { ExchangesIn result edit name.now
        (object (members_view members.old.entries)) (object (members_view members.new.entries))
        (view value.old) (view value.new) }
    ensures no_memory { NeverShort result }
{
    let Some(member) = members.get_mut(name) else {
        return Err(StepFault::Refused(PatchErrorKind::InvalidPointer));
    };
    if !may_swap(edit, member) {
        return Err(StepFault::Refused(PatchErrorKind::InvalidPointer));
    }
    mem::swap(member, value);
    Ok(swapped_by(edit))
}

/// Whether the edit may swap the member: `Undo` also a mark.
fn may_swap(edit: Edit, member: &Value) -> bool
    ensures { result ≡ is_swappable edit (view member.now) }
{
    match edit {
        Edit::Undo(_) => true,
        _ => !is_mark(member),
    }
}

/// What an edit that swaps has found.
fn swapped_by(edit: Edit) -> Found
    ensures { result ≡ swapped edit }
{
    match edit {
        Edit::Take => Found::Taken,
        _ => Found::Former,
    }
}

/// Clears the member of marks, where it is none itself.
fn sweep_member(members: &mut Map<String, Value>, name: &str) -> Result<Found, StepFault>
    ensures makes { (v : Data) → ExchangesIn result Sweep name.now
        (object (members_view members.old.entries)) (object (members_view members.new.entries)) v v }
    ensures no_memory { NeverShort result }
{
    let Some(member) = members.get_mut(name) else {
        return Err(StepFault::Refused(PatchErrorKind::InvalidPointer));
    };
    if is_mark(member) {
        return Err(StepFault::Refused(PatchErrorKind::InvalidPointer));
    }
    clear(member);
    Ok(Found::Former)
}

fn edit_items(
    items: &mut Vec<Value>,
    token: Token<'_>,
    edit: Edit,
    value: &mut Value,
) -> Result<Found, StepFault>
    requires { AreMarkedItems (items_view items.old.items) }
    ensures makes { ExchangesIn result edit (token_of token.entry)
        (array (items_view items.old.items)) (array (items_view items.new.items))
        (view value.old) (view value.new) }
    ensures no_memory { IsLight edit → NeverShort result }
{
    match edit {
        Edit::Insert => insert_item(items, token, value),
        Edit::Take => take_item(items, token, value),
        Edit::Remove => remove_item(items, token, value),
        Edit::Swap => swap_item(items, token, value),
        Edit::Undo(Found::Nothing) => undo_insert(items, token, value),
        Edit::Undo(Found::Former) => undo_swap(items, token, value),
        Edit::Undo(Found::Taken) => undo_take(items, token, value),
        Edit::Clear => clear_last(items, value),
        Edit::Sweep => sweep_item(items, token),
    }
}

#[tactic(auto, using(crate::proofs::Containers::refused_attempt, crate::proofs::MarkedContainers::inserts_nowhere_shown, crate::proofs::MarkedContainers::inserts_item_shown))]
fn insert_item(
    items: &mut Vec<Value>,
    token: Token<'_>,
    value: &mut Value,
) -> Result<Found, StepFault>
    requires { AreMarkedItems (items_view items.old.items) }
    ensures makes { ExchangesIn result Insert (token_of token.entry)
        (array (items_view items.old.items)) (array (items_view items.new.items))
        (view value.old) (view value.new) }
{
    let index = slot_index(token, live_count(items))?;
    match insert_at(items, index, mem::take(value)) {
        Ok(()) => Ok(Found::Nothing),
        Err(failed) => {
            *value = failed.value;
            Err(StepFault::Memory(AllocError))
        }
    }
}

/// The mark goes to the end of the array, where the element left room.
fn take_item(
    items: &mut Vec<Value>,
    token: Token<'_>,
    value: &mut Value,
) -> Result<Found, StepFault>
    requires { AreMarkedItems (items_view items.old.items) }
    ensures makes { ExchangesIn result Take (token_of token.entry)
        (array (items_view items.old.items)) (array (items_view items.new.items))
        (view value.old) (view value.new) }
    ensures no_memory { NeverShort result }
{
    let index = item_index(token, live_count(items))?;
    let item = remove_at(items, index);
    items.push_reserved(mem::replace(value, item));
    Ok(Found::Taken)
}

fn remove_item(
    items: &mut Vec<Value>,
    token: Token<'_>,
    value: &mut Value,
) -> Result<Found, StepFault>
    requires { AreMarkedItems (items_view items.old.items) }
    ensures makes { ExchangesIn result Remove (token_of token.entry)
        (array (items_view items.old.items)) (array (items_view items.new.items))
        (view value.old) (view value.new) }
    ensures no_memory { NeverShort result }
{
    let index = item_index(token, live_count(items))?;
    *value = remove_at(items, index);
    Ok(Found::Taken)
}

fn swap_item(
    items: &mut Vec<Value>,
    token: Token<'_>,
    value: &mut Value,
) -> Result<Found, StepFault>
    requires { AreMarkedItems (items_view items.old.items) }
    ensures makes { ExchangesIn result Swap (token_of token.entry)
        (array (items_view items.old.items)) (array (items_view items.new.items))
        (view value.old) (view value.new) }
    ensures no_memory { NeverShort result }
{
    let index = item_index(token, live_count(items))?;
    mem::swap(&mut items[index], value);
    Ok(Found::Former)
}

/// Takes out the element that was put in at the token: of `-`, the last one.
fn undo_insert(
    items: &mut Vec<Value>,
    token: Token<'_>,
    value: &mut Value,
) -> Result<Found, StepFault>
    requires { AreMarkedItems (items_view items.old.items) }
    ensures makes { ExchangesIn result (Undo Nothing) (token_of token.entry)
        (array (items_view items.old.items)) (array (items_view items.new.items))
        (view value.old) (view value.new) }
    ensures no_memory { NeverShort result }
{
    let count = live_count(items);
    if count == 0 {
        return Err(StepFault::Refused(PatchErrorKind::InvalidPointer));
    }
    let index = slot_index(token, count - 1)?;
    *value = remove_at(items, index);
    Ok(Found::Taken)
}

fn undo_swap(
    items: &mut Vec<Value>,
    token: Token<'_>,
    value: &mut Value,
) -> Result<Found, StepFault>
    requires { AreMarkedItems (items_view items.old.items) }
    ensures makes { ExchangesIn result (Undo Former) (token_of token.entry)
        (array (items_view items.old.items)) (array (items_view items.new.items))
        (view value.old) (view value.new) }
    ensures no_memory { NeverShort result }
{
    let index = item_index(token, items.len())?;
    mem::swap(&mut items[index], value);
    Ok(Found::Former)
}

/// Puts the element back in its place; the mark at the end goes.
fn undo_take(
    items: &mut Vec<Value>,
    token: Token<'_>,
    value: &mut Value,
) -> Result<Found, StepFault>
    requires { AreMarkedItems (items_view items.old.items) }
    ensures makes { ExchangesIn result (Undo Taken) (token_of token.entry)
        (array (items_view items.old.items)) (array (items_view items.new.items))
        (view value.old) (view value.new) }
    ensures no_memory { NeverShort result }
{
    let index = item_index(token, items.len())?;
    let mark = items.pop();
    if insert_at(items, index, mem::take(value)).is_err() {
        unreachable!();
    }
    if let Some(mark) = mark {
        *value = mark;
    }
    Ok(Found::Nothing)
}

/// Takes away the last element, where that is a mark.
fn clear_last(items: &mut Vec<Value>, value: &mut Value) -> Result<Found, StepFault>
    ensures makes { (t : List ℕ) → ExchangesIn result Clear t
        (array (items_view items.old.items)) (array (items_view items.new.items))
        (view value.old) (view value.new) }
    ensures no_memory { NeverShort result }
{
    let Some(last) = items.last() else {
        return Err(StepFault::Refused(PatchErrorKind::InvalidPointer));
    };
    if !is_mark(last) {
        return Err(StepFault::Refused(PatchErrorKind::InvalidPointer));
    }
    let Some(last) = items.pop() else {
        unreachable!();
    };
    *value = last;
    Ok(Found::Taken)
}

fn sweep_item(items: &mut Vec<Value>, token: Token<'_>) -> Result<Found, StepFault>
    requires { AreMarkedItems (items_view items.old.items) }
    ensures makes { (v : Data) → ExchangesIn result Sweep (token_of token.entry)
        (array (items_view items.old.items)) (array (items_view items.new.items)) v v }
    ensures no_memory { NeverShort result }
{
    let index = item_index(token, live_count(items))?;
    clear(&mut items[index]);
    Ok(Found::Former)
}
