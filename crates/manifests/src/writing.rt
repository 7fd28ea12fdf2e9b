//! Writing a manifest.

ghost use Rattle.std.specs.Prelude.{◌≡◌, ℕ, IfOk};
ghost use Rattle.serde_json.specs.View.{view};
ghost use Rattle.serde_json.specs.Data.{array};
ghost use Rattle.manifests.specs.Grammar.{ManifestText, IsWhole, name_for, manifest_text, written, texts};

use crate::manifest::Manifest;
use fb_bytes::{Blob, Text};
use serde_json::{Value, json};
use std::alloc::{AllocError, Global};

/// The compact text of a manifest.
pub fn write(alloc: Global, manifest: &Manifest) -> Result<Blob, AllocError>
    requires { IsWhole manifest.now }
    ensures text { IfOk result (λ text. text ≡ manifest_text manifest.now) }
    // It is in the grammar of each name with these numbers, so it is read back.
    ensures grammar { IfOk result (λ text. (ticket : ℕ)
        → ManifestText (name_for manifest.now ticket) text manifest.now) }
{
    let value = value_of(alloc, manifest)?;
    let text = value.to_string(alloc)?;
    let written = text.as_str();
    let bytes = Blob::from_slice(alloc, written.as_bytes())?;
    Ok(bytes)
}

fn value_of(alloc: Global, manifest: &Manifest) -> Result<Value, AllocError>
    ensures { IfOk result (λ value. view value ≡ written manifest.now) }
{
    let files = array_of(alloc, manifest.files.as_slice())?;
    json!(in alloc; {
        "beginVersion": manifest.begin,
        "endVersion": manifest.end,
        "files": files,
        "format": 1u64,
        "totalBytes": manifest.bytes,
    })
}

fn array_of(alloc: Global, names: &[Text]) -> Result<Value, AllocError>
    ensures { IfOk result (λ value. view value ≡ array (texts names.now)) }
{
    let mut items = Vec::new(alloc);
    for name in names {
        let text = String::from_str(alloc, name.as_str())?;
        items.push(Value::String(text))?;
    }
    Ok(Value::Array(items))
}
