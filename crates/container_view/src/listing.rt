//! Names in byte order, in which one is found by halving.

ghost use Rattle.std.specs.Prelude.{◌≡◌, ℕ, IfOk};
ghost use Rattle.std.specs.Ordering.{nat_cmp};
ghost use Rattle.std.specs.Cmp.Lexicographic.{slice_cmp};
ghost use Rattle.std.specs.List.Sorted.{IsSortedByKey};
ghost use Rattle.container_view.specs.inner.Listing.{texts};
ghost use Rattle.container_view.specs.Names.{is_named};
ghost use Rattle.fb_bytes.specs.Bytes.{Bytes};

use fb_bytes::Text;
use std::alloc::{AllocError, Global};

/// The same names in byte order.
pub(crate) fn in_order<'a>(alloc: Global, names: &'a [Text]) -> Result<Vec<&'a Text>, AllocError>
    ensures sorted { IfOk result
        (λ list. IsSortedByKey (λ name. name.now) (slice_cmp nat_cmp) list.items) }
    ensures same { IfOk result (λ list. (name : Bytes) → is_named (texts list.items) name
        ≡ is_named names.now name) }
{
    let mut list = each(alloc, names)?;
    list.sort()?;
    Ok(list)
}

/// A reference to each name.
fn each<'a>(alloc: Global, names: &'a [Text]) -> Result<Vec<&'a Text>, AllocError>
    ensures { IfOk result (λ list. texts list.items ≡ names.now) }
{
    let mut list = Vec::new(alloc);
    'names: for name in names {
        list.push(name)?;
    }
    Ok(list)
}

/// Whether names in byte order list a file.
pub(crate) fn is_listed(listed: &[&Text], name: &Text) -> bool
    requires { IsSortedByKey (λ name. name.now) (slice_cmp nat_cmp) listed.now }
    ensures { result ≡ is_named (texts listed.now) name.now }
{
    listed.binary_search(&name).is_ok()
}
