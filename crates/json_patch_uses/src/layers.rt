//! Settings in layers, each a merge patch over those below it.

ghost use Rattle.std.specs.Prelude.{◌≡◌, All, IfOk, List, map, ℕ};
ghost use Rattle.serde_json.specs.Data.{number, unsigned};
ghost use Rattle.serde_json.specs.Find.{get};
ghost use Rattle.serde_json.specs.View.{view};
ghost use Rattle.jsonptr.specs.Pointers.{tokens_of};
ghost use Rattle.json_patch.specs.Document.{IsDocument};
ghost use Rattle.json_patch.specs.Resolve.{StandsAt};
ghost use Rattle.json_patch_uses.specs.Layers.{AreMerged, LeavesOut};

use json_patch::jsonptr::Pointer;
use json_patch::{laws, lookup, merge};
use serde_json::Value;
use std::alloc::{AllocError, Global};

/// The settings that a base and the layers over it give, the last layer above all. The base and
/// the layers stay as they are, also where memory runs out.
pub fn merge_all(alloc: Global, base: &Value, layers: &[Value]) -> Result<Value, AllocError>
    requires base { IsDocument (view base.now) }
    requires layers { All (λ layer. IsDocument (view layer)) layers.now }
    ensures merged { IfOk result (λ v. AreMerged (view base.now) (map view layers.now) (view v)) }
    ensures document { IfOk result (λ v. IsDocument (view v)) }
    ensures unnamed { (k : List ℕ) → LeavesOut k layers.now
        → IfOk result (λ v. get k (view v) ≡ get k (view base.now)) }
{
    laws::merging();
    let mut settings = base.clone()?;
    for layer in layers {
        merge(alloc, &mut settings, layer)?;
    }
    Ok(settings)
}

/// The number at a path, or this one where nothing stands there, or something else than an integer
/// from 0 on: a string or a negative number is no fault.
pub fn number_or(settings: &Value, path: Pointer<'_>, default: u64) -> u64
    ensures set { (n : ℕ) → StandsAt (view settings.now) (tokens_of path.entry) (number (unsigned n))
        → result ≡ n }
    ensures unset { ((n : ℕ)
        → ¬ StandsAt (view settings.now) (tokens_of path.entry) (number (unsigned n)))
        → result ≡ default }
{
    laws::documents();
    match lookup(settings, path) {
        Some(value) => value.as_u64().unwrap_or(default),
        None => default,
    }
}
