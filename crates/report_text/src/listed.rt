//! The lines of a list of containers.

ghost use Rattle.std.specs.Prelude.{◌≡◌, ◌++◌, OnOk};
ghost use Rattle.std.specs.List.{flat_map};
ghost use Rattle.report_text.specs.Descriptions.{container_line};

use crate::described::put_container;
use fb_bytes::{Blob, Text};
use std::alloc::AllocError;

/// The containers, each on a line of its own.
pub fn put_listed(out: &mut Blob, names: &[Text]) -> Result<(), AllocError>
    ensures { OnOk result (out.new ≡ out.old ++ flat_map container_line names.now) }
{
    for name in names {
        put_container(out, name)?;
    }
    Ok(())
}
