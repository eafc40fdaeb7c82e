//! An insert and a removal in a `Vec`, in which the elements behind it move whole.
//!
//! `Vec::insert` and `Vec::remove` move an element part by part, without the padding between the
//! parts, and that is no copy of a run of bytes. A `[T; 1]` is moved whole: so the elements are
//! shown as such arrays of one, and those are turned by one place. LLVM makes one `memmove` of an
//! insert, and of a removal a loop of 16 bytes. Nothing here knows the elements' type, which is
//! neither `Copy` nor `Drop`: no element is made, let go or in two places.

ghost use Rattle.std.specs.Prelude.{◌≡◌, ◌+◌, ◌*◌, ◌<◌, ◌≤◌, [], ◌∷◌, ◌++◌, length, take, drop, is_ok, IfErr, IsOk, if◌then◌else◌, vec_len, vec_capacity, slice_index_or, List};
ghost use Rattle.std.specs.Borrow.{sem, LendsBoth, Array};
ghost use Rattle.std.specs.List.{flat_map, insert, remove};
ghost use Rattle.std.specs.Simd.{first_chunks};

use std::alloc::AllocFailed;
use std::slice::from_raw_parts_mut;

/// The element goes to `index`, and those from there on go up by one. Room for it is asked for
/// first: without, nothing has moved, and the element comes back.
pub(crate) fn insert_at<T>(items: &mut Vec<T>, index: usize, item: T) -> Result<(), AllocFailed<T>>
    requires { index ≤ vec_len items.old }
    ensures items { items.new.items ≡
        (if is_ok result then insert items.old.items index item else items.old.items) }
    ensures value_returned { IfErr result (λ failed. failed.value ≡ item) }
    ensures succeeds { vec_len items.old < vec_capacity items.old → IsOk result }
{
    items.push(item)?;
    last_to(items.as_mut_slice(), index);
    Ok(())
}

/// Takes the element out, and those behind it go down by one. The room stays.
#[tactic(auto, using(crate::proofs::Singles::removed_is))]
pub(crate) fn remove_at<T>(items: &mut Vec<T>, index: usize) -> T
    requires { index < vec_len items.old }
    ensures value { result ≡ slice_index_or items.old.items index result }
    ensures items { items.new.items ≡ remove items.old.items index }
    ensures capacity { vec_capacity items.new ≡ vec_capacity items.old }
{
    to_last(items.as_mut_slice(), index);
    items.take_last()
}

/// The last element goes to `at`, and those from there on go up by one.
#[tactic(auto, using(crate::proofs::Singles::last_to_is))]
fn last_to<T>(items: &mut [T], at: usize)
    requires { at < length items.old }
    ensures { (others : List T) (last : T) → items.old ≡ others ++ last ∷ []
        → items.new ≡ insert others at last }
{
    let count = items.len() - at;
    let (_front, singles) = singles_mut(items, at, count);
    singles.rotate_right(1);
}

/// The element at `at` goes to the end, and those behind it go down by one.
#[tactic(auto, using(crate::proofs::Singles::to_last_is))]
fn to_last<T>(items: &mut [T], at: usize)
    requires { at < length items.old }
    ensures { (other : T) → items.new ≡
        remove items.old at ++ slice_index_or items.old at other ∷ [] }
{
    let count = items.len() - at;
    let (_front, singles) = singles_mut(items, at, count);
    singles.rotate_left(1);
}

/// The slice in two parts: its first `mid` elements, and the `count` others as arrays of one, in
/// order. What the two parts end as, one behind the other, is what the slice ends as. Such an array
/// has its element's size and place, so the cast changes no address; the parts don't overlap.
fn singles_mut<T>(items: &mut [T], mid: usize, count: usize) -> (&mut [T], &mut [[T; 1]])
    requires { mid + count ≡ length items.old }
    ensures* writes_back { sem 𝓛 (LendsBoth (Array T.row 0) (Array T.row 0) (Array (Array T.row 1) 0)
        items.entry result (λ front singles. front ++ flat_map (λ single. single) singles)) }
    ensures value { (result.0.now ≡ take mid items.old)
        × (result.1.now ≡ first_chunks 1 count (drop mid items.old))
        × (length result.1.now ≡ count) }
{
    let start = items.as_mut_ptr();
    unsafe {
        (
            from_raw_parts_mut(start, mid),
            from_raw_parts_mut(start.add(mid) as *mut [T; 1], count),
        )
    }
}
