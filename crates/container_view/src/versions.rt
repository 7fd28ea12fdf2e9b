//! The versions that a container can be restored to, from the names of its files alone.

ghost use Rattle.std.specs.Prelude.{◌≡◌, ℕ, List, option_map, IfOk};
ghost use Rattle.container_view.specs.inner.Listed.{AreSorted, IsRisingBy, reach_in, manifest_of};
ghost use Rattle.container_view.specs.Names.{folder_named, manifest_name};
ghost use Rattle.container_view.specs.inner.Names.{seen_manifest, better_manifest, given_named};
ghost use Rattle.container_view.specs.Advertised.{chosen};
ghost use Rattle.container_view.specs.Bounds as spec;

use crate::logs::{Run, comes_first, reached, runs};
use crate::sorting::{NamedManifest, SortedNames, sorted_names};
use fb_bytes::{Names, Text};
use std::alloc::{AllocError, Global};

/// The least and the greatest version that a container can be restored to.
#[derive(Clone, Copy, Debug, PartialEq, Eq)]
pub struct Bounds {
    pub least: u64,
    pub greatest: u64,
}

/// The bounds of the versions that a container with these names advertises, with the number of its
/// unreliable end. There are none where it advertises no version.
pub fn restorable(
    alloc: Global,
    names: &Names,
    unreliable: u64,
) -> Result<Option<Bounds>, AllocError>
    ensures { IfOk result
        (λ bounds. bounds ≡ spec.advertised_bounds (folder_named names.now unreliable)) }
{
    let sorted = sorted_names(alloc, names)?;
    sorted_bounds(alloc, &sorted, unreliable)
}

/// The bounds of the versions that names advertise, by their log files.
pub(crate) fn sorted_bounds(
    alloc: Global,
    sorted: &SortedNames<'_>,
    unreliable: u64,
) -> Result<Option<Bounds>, AllocError>
    requires { AreSorted sorted.now }
    ensures { IfOk result
        (λ bounds. bounds ≡ spec.advertised_bounds (folder_named sorted.now.names.now unreliable)) }
{
    let runs = runs(alloc, sorted)?;
    let mut bounds = None;
    'manifests: for manifest in &sorted.manifests {
        bounds = wider(bounds, given(&runs, unreliable, manifest));
    }
    Ok(bounds)
}

/// The bounds of the versions that a manifest gives.
pub(crate) fn given(runs: &[Run], unreliable: u64, manifest: &NamedManifest<'_>) -> Option<Bounds>
    requires { IsRisingBy (λ run. run.begin) 0 runs.now }
    ensures { result ≡ given_named (reach_in runs.now) unreliable (manifest_of manifest.now) }
{
    let begin = manifest.begin;
    let end = manifest.end;
    let reached = reached(runs, begin);
    if unreliable <= begin && (end < reached || begin == end) {
        Some(Bounds {
            least: end,
            greatest: end.max(reached.saturating_sub(1)),
        })
    } else {
        None
    }
}

/// The bounds of both.
pub(crate) fn wider(a: Option<Bounds>, b: Option<Bounds>) -> Option<Bounds>
    ensures { result ≡ spec.wider a b }
{
    let Some(first) = a else {
        return b;
    };
    let Some(second) = b else {
        return a;
    };
    Some(Bounds {
        least: first.least.min(second.least),
        greatest: first.greatest.max(second.greatest),
    })
}

/// The name of the manifest that is restored for a version, of a container with these names: of
/// those that give the version the one with the greatest end, then the least name. There is none
/// where the version isn't advertised.
pub fn manifest_for<'a>(
    alloc: Global,
    names: &'a Names,
    unreliable: u64,
    version: u64,
) -> Result<Option<&'a Text>, AllocError>
    ensures { IfOk result (λ name. option_map (λ name. name.now) name
        ≡ manifest_name (chosen (folder_named names.now unreliable) version)) }
{
    let sorted = sorted_names(alloc, names)?;
    sorted_manifest(alloc, &sorted, unreliable, version)
}

/// The name of the manifest that is restored for a version, among names, by their log files.
pub(crate) fn sorted_manifest<'a>(
    alloc: Global,
    sorted: &SortedNames<'a>,
    unreliable: u64,
    version: u64,
) -> Result<Option<&'a Text>, AllocError>
    requires { AreSorted sorted.now }
    ensures { IfOk result (λ name. option_map (λ name. name.now) name
        ≡ manifest_name (chosen (folder_named sorted.now.names.now unreliable) version)) }
{
    let runs = runs(alloc, sorted)?;
    let mut best = None;
    'manifests: for manifest in &sorted.manifests {
        best = better_manifest(best, &runs, unreliable, manifest, version);
    }
    match best {
        Some((name, _)) => Ok(Some(name)),
        None => Ok(None),
    }
}

/// The better of the best manifest so far and one more.
fn better_manifest<'a>(
    best: Option<(&'a Text, u64)>,
    runs: &[Run],
    unreliable: u64,
    manifest: &NamedManifest<'a>,
    version: u64,
) -> Option<(&'a Text, u64)>
    requires { IsRisingBy (λ run. run.begin) 0 runs.now }
    ensures { option_map (λ x. (x.0.now, x.1)) result
        ≡ better_manifest (reach_in runs.now) unreliable version
        (option_map (λ x. (x.0.now, x.1)) best.entry) (manifest_of manifest.now) }
{
    let name = manifest.name;
    let end = manifest.end;
    if !gives(runs, unreliable, manifest.begin, end, version) {
        return best;
    }
    let Some((other, other_end)) = best else {
        return Some((name, end));
    };
    if comes_first(end, name.as_bytes(), other_end, other.as_bytes()) {
        Some((name, end))
    } else {
        best
    }
}

/// Whether a manifest from `begin` to `end` gives the version.
fn gives(runs: &[Run], unreliable: u64, begin: u64, end: u64, version: u64) -> bool
    requires { IsRisingBy (λ run. run.begin) 0 runs.now }
    ensures { result ≡ spec.is_given (reach_in runs.now) unreliable begin end version }
{
    if version < end || begin < unreliable {
        return false;
    }
    version < reached(runs, begin) || (begin == version && end == version)
}
