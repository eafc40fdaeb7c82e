//! Where a pointer leads in a document (RFC 6901, section 4).

ghost use Rattle.std.specs.Prelude.{◌≡◌, ◌∷◌, [], ℕ, ◌<◌, ◌≤◌, Some, None, IfNone, IfSome, MatchResult, option_map};
ghost use Rattle.serde_json.specs.Find.{get_member};
ghost use Rattle.serde_json.specs.View.{view, members_view};
ghost use Rattle.jsonptr.specs.Places.{place_of};
ghost use Rattle.jsonptr.specs.Pointers.{token_of, tokens_left, tokens_of};
ghost use Rattle.json_patch_document.specs.ChangeComputed.{pointee, slot_in};
ghost use Rattle.json_patch_document.specs.Resolve.{StandsAt};
ghost use Rattle.json_patch_edit.specs.Step.{Never};
ghost use Rattle.json_patch_operation.specs.declared.error.PatchErrorKind.TheVariants.{InvalidPointer};

use json_patch_operation::PatchErrorKind;
use jsonptr::{Pointer, Token, Tokens};
use serde_json::{Map, Value};

/// What stands where the pointer leads, if anything does. It takes no memory.
///
/// ```rust
/// match lookup(document, path.as_pointer()) {
///     Some(found) => Ok(Some(found.clone()?)),
///     None => Ok(None),
/// }
/// ```
pub fn lookup<'v>(document: &'v Value, path: Pointer<'_>) -> Option<&'v Value>
    ensures found { IfSome result (λ v.
        StandsAt (view document.now) (tokens_of path.entry) (view v.now)) }
    ensures missing { IfNone result (Never (StandsAt (view document.now) (tokens_of path.entry))) }
{
    find(document, path.tokens())
}

/// What stands where the tokens lead. It takes no memory.
pub fn find<'v>(document: &'v Value, tokens: Tokens<'_>) -> Option<&'v Value>
    ensures { option_map (λ v. view v.now) result
        ≡ pointee (view document.now) (tokens_left tokens.entry) }
{
    let mut place = document;
    for token in tokens {
        place = child_of(place, token)?;
    }
    Some(place)
}

/// The member or the element that the token names.
fn child_of<'v>(container: &'v Value, token: Token<'_>) -> Option<&'v Value>
    ensures { option_map (λ v. view v.now) result
        ≡ pointee (view container.now) (token_of token.entry ∷ []) }
{
    match container {
        Value::Object(members) => member_of(members, token),
        Value::Array(items) => match item_index(token, items.len()) {
            Ok(index) => Some(&items[index]),
            Err(_) => None,
        },
        _ => None,
    }
}

/// The member whose name the token stands for. A token with an escape is compared with each name,
/// so that no memory is taken.
fn member_of<'v>(members: &'v Map<String, Value>, token: Token<'_>) -> Option<&'v Value>
    ensures { option_map (λ v. view v.now) result
        ≡ get_member (token_of token.entry) (members_view members.now.entries) }
{
    let name = token.encoded();
    if token.is_key(name) {
        return members.get(name);
    }
    for (key, member) in members {
        if token.is_key(key.as_str()) {
            return Some(member);
        }
    }
    None
}

/// The index of the element that a token names, among so many.
#[tactic(auto, using(crate::proofs::Containers::refused, crate::proofs::Containers::item_outside))]
pub fn item_index(token: Token<'_>, len: usize) -> Result<usize, PatchErrorKind>
    ensures { MatchResult result
        (λ i. (i < len) × (place_of (token_of token.entry) ≡ Some i))
        (λ kind. (kind ≡ InvalidPointer)
        × ((i : ℕ) → place_of (token_of token.entry) ≡ Some i → len ≤ i)) }
{
    Ok(token.to_index()?.for_len(len)?)
}

/// The index at which a token puts a new element, among so many: at most the one after the last.
pub fn slot_index(token: Token<'_>, len: usize) -> Result<usize, PatchErrorKind>
    ensures { MatchResult result
        (λ i. (i ≤ len) × (slot_in (token_of token.entry) len ≡ Some i))
        (λ kind. (kind ≡ InvalidPointer) × (slot_in (token_of token.entry) len ≡ None)) }
{
    Ok(token.to_index()?.for_len_incl(len)?)
}
