//! Whether two lists of operations are about different parts of a document, by their pointers alone.

ghost use Rattle.std.specs.Prelude.{◌≡◌, ◌↔◌, IsTrue, List};
ghost use Rattle.std.specs.List.{AllByRecursion};
ghost use Rattle.jsonptr.specs.Pointers.{token_of, tokens_of};
ghost use Rattle.json_patch_apart.specs.Apart.{AllDiverge, AreApart, Diverge, IsApartFrom, may_be_place, reach};
ghost use Rattle.json_patch_apart.specs.Filters.{HasAll, KeepsSlots};
ghost use Rattle.json_patch_apart.specs.Footprints.{AreBeside, IsFootprint, listed, pointers_changed};
ghost use Rattle.json_patch_operation.specs.Operation.{Operation, operation_of, operations};

use crate::filter::Filter;
use json_patch_operation::PatchOperation;
use jsonptr::index::ParseIndexError;
use jsonptr::{Pointer, PointerBuf, Token};

/// How many operations of a list are put into a filter at a time, so that most of its slots stay
/// free.
const FEW: usize = 64;

/// Below this length of the other list a filter costs more than it saves.
const SHORT: usize = 16;

/// Whether each operation of the one list is apart from each of the other: neither changes what the
/// other changes or reads, as their pointers alone show. Such lists may be applied in either order
/// (`laws::apart`).
///
/// ```rust
/// if are_apart(late.as_slice(), since.as_slice()) {
///     patch(alloc, document, late.as_slice())?;
///     return Ok(true);
/// }
/// Ok(false)
/// ```
///
/// No memory is taken. A filter tells most operations apart: two lists of 1,000 take some
/// milliseconds, and of 10,000 some tenths of a second. At worst each is compared with each, at some
/// 50 ns a pair.
#[tactic(auto, using(crate::proofs::Filters::apart_cut))]
pub fn are_apart(xs: &[PatchOperation], ys: &[PatchOperation]) -> bool
    ensures { IsTrue result ↔ AreApart (operations xs.now) (operations ys.now) }
{
    if xs.len() < SHORT {
        return are_compared(xs, ys);
    }
    let mut rest = ys;
    while !rest.is_empty() {
        let (few, others) = rest.split_at(rest.len().min(FEW));
        if !are_filtered(xs, few) {
            return false;
        }
        rest = others;
    }
    true
}

/// The same, by comparing each with each.
fn are_compared(xs: &[PatchOperation], ys: &[PatchOperation]) -> bool
    ensures { IsTrue result ↔ AreApart (operations xs.now) (operations ys.now) }
{
    for x in xs {
        if !is_apart_from(x, ys) {
            return false;
        }
    }
    true
}

/// The same, by comparing those alone which a filter doesn't tell apart.
fn are_filtered(xs: &[PatchOperation], few: &[PatchOperation]) -> bool
    ensures { IsTrue result ↔ AreApart (operations xs.now) (operations few.now) }
{
    let filter = filter_of(few);
    for x in xs {
        if !is_told_apart(x, &filter) && !is_apart_from(x, few) {
            return false;
        }
    }
    true
}

/// A filter that has each pointer of the operations.
fn filter_of(few: &[PatchOperation]) -> Filter
    ensures { AllByRecursion (HasAll result) (operations few.now) }
{
    let mut filter = Filter::new();
    for operation in few {
        put_in(operation, &mut filter);
    }
    filter
}

#[tactic(auto, using(crate::proofs::Filters::all_kept, crate::proofs::Filters::all_joined))]
fn put_in(operation: &PatchOperation, filter: &mut Filter)
    ensures kept { KeepsSlots filter.old filter.new }
    ensures has { HasAll filter.new (operation_of operation.now) }
{
    let footprint = Footprint::of(operation);
    filter.insert(footprint.source);
    filter.insert(footprint.target);
    filter.insert(footprint.read);
}

/// Whether the filter tells the operation apart from all whose pointers it has.
#[tactic(auto, using(crate::proofs::Filters::told_apart))]
fn is_told_apart(x: &PatchOperation, filter: &Filter) -> bool
    ensures { IsTrue result → (ys : List Operation) → AllByRecursion (HasAll filter.now) ys
        → IsApartFrom (operation_of x.now) ys }
{
    let footprint = Footprint::of(x);
    filter.is_clear_of(footprint.source)
        && filter.is_clear_of(footprint.target)
        && filter.is_clear_of(footprint.read)
}

/// Whether the operation is apart from each of the list.
fn is_apart_from(x: &PatchOperation, ys: &[PatchOperation]) -> bool
    ensures { IsTrue result ↔ IsApartFrom (operation_of x.now) (operations ys.now) }
{
    let footprint = Footprint::of(x);
    for y in ys {
        if !footprint.is_apart(&Footprint::of(y)) {
            return false;
        }
    }
    true
}

/// The pointers of an operation: of what it changes, which are two where it moves a value, and of
/// what it reads and leaves as it is.
#[derive(Clone, Copy)]
struct Footprint<'a> {
    source: Option<Pointer<'a>>,
    target: Option<Pointer<'a>>,
    read: Option<Pointer<'a>>,
}

impl<'a> Footprint<'a> {
    fn of(operation: &'a PatchOperation) -> Footprint<'a>
        ensures { IsFootprint result (operation_of operation.now) }
    {
        let (source, target, read) = match operation {
            PatchOperation::Add(add) => (None, Some(reach_of(&add.path)), None),
            PatchOperation::Remove(remove) => (None, Some(reach_of(&remove.path)), None),
            PatchOperation::Replace(replace) => (None, Some(replace.path.as_pointer()), None),
            PatchOperation::Move(moved) => {
                let source = reach_of(&moved.from);
                (Some(source), Some(reach_of(&moved.path)), None)
            }
            PatchOperation::Copy(copy) => {
                let read = copy.from.as_pointer();
                (None, Some(reach_of(&copy.path)), Some(read))
            }
            PatchOperation::Test(test) => (None, None, Some(test.path.as_pointer())),
        };
        Footprint {
            source,
            target,
            read,
        }
    }

    /// Whether neither changes what the other changes or reads.
    fn is_apart(&self, other: &Footprint<'_>) -> bool
        ensures { IsTrue result ↔ AreBeside self.now other.now }
    {
        self.leaves(other.source)
            && self.leaves(other.target)
            && self.leaves(other.read)
            && other.leaves(self.read)
    }

    /// Whether what is changed diverges from the pointer, if there is one.
    fn leaves(&self, pointer: Option<Pointer<'_>>) -> bool
        ensures { IsTrue result ↔ AllDiverge (pointers_changed self.now) (listed pointer.entry) }
    {
        diverge_if_any(self.source, pointer) && diverge_if_any(self.target, pointer)
    }
}

/// Whether the pointers diverge, or one of them is none.
fn diverge_if_any(left: Option<Pointer<'_>>, right: Option<Pointer<'_>>) -> bool
    ensures { IsTrue result ↔ AllDiverge (listed left.entry) (listed right.entry) }
{
    match (left, right) {
        (Some(left), Some(right)) => diverge(left, right),
        _ => true,
    }
}

/// Whether neither pointer begins the other.
fn diverge(left: Pointer<'_>, right: Pointer<'_>) -> bool
    ensures { IsTrue result ↔ Diverge (tokens_of left.entry) (tokens_of right.entry) }
{
    !left.starts_with(right) && !right.starts_with(left)
}

/// The pointer of all that an add or a remove at the path may change.
#[tactic(auto, using(crate::proofs::Footprints::reach_split))]
fn reach_of(path: &PointerBuf) -> Pointer<'_>
    ensures { tokens_of result ≡ reach path.now }
{
    let path = path.as_pointer();
    match path.split_back() {
        Some((parent, last)) if names_place(last) => parent,
        _ => path,
    }
}

/// Whether the token is a number, or `-`.
#[tactic(auto, using(crate::proofs::Footprints::leading_zero, crate::proofs::Footprints::no_integer, crate::proofs::Footprints::other_character))]
fn names_place(token: Token<'_>) -> bool
    ensures { result ≡ may_be_place (token_of token.entry) }
{
    match token.to_index() {
        Ok(_) => true,
        // A number that is too large for an index, or the empty string.
        Err(ParseIndexError::InvalidInteger) => !token.encoded().is_empty(),
        Err(ParseIndexError::LeadingZeros) => false,
        Err(ParseIndexError::InvalidCharacter { .. }) => false,
    }
}
