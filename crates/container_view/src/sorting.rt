//! The names of a container's files, parsed once for all that is looked up in them.

ghost use Rattle.std.specs.Prelude.{◌≡◌, ◌++◌, IfOk, OnOk};
ghost use Rattle.container_view.specs.Names.{as_sealed, sealed_named};
ghost use Rattle.container_view.specs.Description.{log_span};
ghost use Rattle.container_view.specs.inner.Listed.{log_named, listed, plain_logs, logs_of, sizes_of, AreSorted};
ghost use Rattle.file_names.specs.Reading.{name_of};

use crate::Bounds;
use crate::logs::NamedLog;
use crate::versions::wider;
use fb_bytes::{Names, Text};
use file_names::{Name, parse};
use std::alloc::{AllocError, Global};

/// A manifest by its name.
#[derive(Debug, Drop)]
pub(crate) struct NamedManifest<'a> {
    pub name: &'a Text,
    pub begin: u64,
    pub end: u64,
    /// Of its range files together.
    pub bytes: u64,
}

/// Names, the log files among them in the order of their begins, from their least begin to their
/// greatest end, and the manifests in the order of the names.
#[derive(Debug, Drop)]
pub(crate) struct SortedNames<'a> {
    pub names: &'a Names,
    pub logs: Vec<NamedLog<'a>>,
    pub span: Option<Bounds>,
    pub manifests: Vec<NamedManifest<'a>>,
}

/// The log files and the manifests among names, in the order of the names.
#[derive(Debug, Drop)]
struct Found<'a> {
    logs: Vec<NamedLog<'a>>,
    span: Option<Bounds>,
    manifests: Vec<NamedManifest<'a>>,
}

/// The log files and the manifests among these names.
pub(crate) fn sorted_names(alloc: Global, names: &Names) -> Result<SortedNames<'_>, AllocError>
    ensures names { IfOk result (λ sorted. sorted.names.now ≡ names.now) }
    ensures sorted { IfOk result AreSorted }
{
    let found = parsed(alloc, names.as_slice())?;
    let Found {
        mut logs,
        span,
        manifests,
    } = found;
    logs.sort_by_key(|log| log.begin)?;
    Ok(SortedNames {
        names,
        logs,
        span,
        manifests,
    })
}

/// The same in the order of the names.
fn parsed<'a>(alloc: Global, names: &'a [Text]) -> Result<Found<'a>, AllocError>
    ensures logs { IfOk result (λ parsed. logs_of parsed.logs.items ≡ plain_logs names.now) }
    ensures span { IfOk result (λ parsed. parsed.span ≡ log_span (logs_of parsed.logs.items)) }
    ensures manifests { IfOk result
        (λ parsed. sizes_of parsed.manifests.items ≡ sealed_named names.now) }
{
    let mut parsed = Found {
        logs: Vec::new(alloc),
        span: None,
        manifests: Vec::new(alloc),
    };
    'names: for name in names {
        note(&mut parsed, name)?;
    }
    Ok(parsed)
}

/// Adds the file of one name more, where it is a log file or a manifest.
fn note<'a>(parsed: &mut Found<'a>, name: &'a Text) -> Result<(), AllocError>
    ensures logs { OnOk result
        (logs_of parsed.new.logs.items ≡ logs_of parsed.old.logs.items
        ++ listed (log_named name.now (name_of name.now))) }
    ensures span { OnOk result (parsed.old.span ≡ log_span (logs_of parsed.old.logs.items)
        → parsed.new.span ≡ log_span (logs_of parsed.new.logs.items)) }
    ensures manifests { OnOk result
        (sizes_of parsed.new.manifests.items ≡ sizes_of parsed.old.manifests.items
        ++ as_sealed name.now (name_of name.now)) }
{
    match parse(name.as_bytes()) {
        Name::Log { begin, end, .. } => {
            parsed.logs.push(NamedLog { name, begin, end })?;
            let least = begin;
            let greatest = end;
            parsed.span = wider(parsed.span, Some(Bounds { least, greatest }));
        }
        Name::Manifest {
            begin,
            end,
            bytes,
            ..
        } => parsed.manifests.push(NamedManifest {
            name,
            begin,
            end,
            bytes,
        })?,
        Name::Range { .. } | Name::Unreliable | Name::Expired | Name::Other => {}
    }
    Ok(())
}
