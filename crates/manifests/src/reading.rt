//! Reading a manifest.

ghost use Rattle.std.specs.Prelude.{◌≡◌, Some, None, Ok, IfOk, IfErr, MatchResult, option_map, codes};
ghost use Rattle.fb_bytes.specs.Bytes.{Bytes};
ghost use Rattle.serde_json.specs.View.{view, items_view};
ghost use Rattle.manifests.specs.Files as spec;
ghost use Rattle.manifests.specs.declared.manifest.Manifest.{Manifest};
ghost use Rattle.manifests.specs.Grammar.{ManifestText};
ghost use Rattle.manifests.specs.Reading as reading;

use crate::fault::{Field, ManifestFault};
use crate::manifest::Manifest;
use fb_bytes::{Names, Text, is_below};
use file_names::{Name, parse};
use serde_json::Value;
use std::alloc::{AllocError, Global};

/// The manifest that the bytes are under their name, or the first fault.
pub fn read(alloc: Global, bytes: &[u8], name: &Name) -> Result<Manifest, ManifestFault>
    // What is read is in the grammar of the name.
    ensures found { IfOk result (λ manifest. ManifestText name.now bytes.now manifest) }
    // What is in the grammar is read, unless memory runs out.
    ensures only { (m : Manifest) → ManifestText name.now bytes.now m
        → MatchResult result (λ manifest. manifest ≡ m) (λ fault. fault ≡ ManifestFault.NoMemory) }
    // Which fault it is.
    ensures ok { IfOk result (λ manifest. reading.manifest_read name.now bytes.now ≡ Ok manifest) }
    ensures err { IfErr result
        (λ fault. reading.Fails fault (reading.manifest_read name.now bytes.now)) }
{
    read_checked(alloc, bytes, name)
}

#[tactic(auto, unfolding(crate::specs::Reading::manifest_read))]
fn read_checked(alloc: Global, bytes: &[u8], name: &Name) -> Result<Manifest, ManifestFault>
    ensures ok { IfOk result (λ manifest. reading.manifest_read name.now bytes.now ≡ Ok manifest) }
    ensures err { IfErr result
        (λ fault. reading.Fails fault (reading.manifest_read name.now bytes.now)) }
{
    let value = value_of(alloc, bytes)?;
    let manifest = fields_of(alloc, &value)?;
    checked(manifest, name)
}

/// The value of a text.
#[tactic(auto, unfolding(crate::specs::Reading::value_of))]
fn value_of(alloc: Global, bytes: &[u8]) -> Result<Value, ManifestFault>
    ensures ok { IfOk result (λ value. reading.value_of bytes.now ≡ Some (view value)) }
    ensures err { IfErr result
        (λ fault. reading.Fails fault
        (reading.found_or ManifestFault.Json (reading.value_of bytes.now))) }
{
    let Ok(text) = str::from_utf8(bytes) else {
        return Err(ManifestFault::Json);
    };
    match Value::from_str(alloc, text) {
        Ok(value) => Ok(value),
        Err(e) => {
            if e.is_memory() {
                Err(ManifestFault::NoMemory)
            } else {
                Err(ManifestFault::Json)
            }
        }
    }
}

#[tactic(auto, unfolding(crate::specs::Reading::fields_of))]
fn fields_of(alloc: Global, value: &Value) -> Result<Manifest, ManifestFault>
    ensures ok { IfOk result (λ manifest. reading.fields_of (view value.now) ≡ Ok manifest) }
    ensures err { IfErr result (λ fault. reading.Fails fault (reading.fields_of (view value.now))) }
{
    let begin = number_or(value, "beginVersion", Field::BeginVersion)?;
    let end = number_or(value, "endVersion", Field::EndVersion)?;
    let files = files_or(alloc, value)?;
    format_or(value)?;
    let bytes = number_or(value, "totalBytes", Field::TotalBytes)?;
    Ok(Manifest {
        begin,
        end,
        files,
        bytes,
    })
}

/// The names under `files`.
fn files_or(alloc: Global, value: &Value) -> Result<Names, ManifestFault>
    ensures ok { IfOk result (λ files. reading.texts_in (codes "files") (view value.now)
        ≡ Some files) }
    ensures err { IfErr result
        (λ fault. reading.Fails fault
        (reading.found_or (ManifestFault.Field Field.Files)
        (reading.texts_in (codes "files") (view value.now)))) }
{
    match texts_in(alloc, value, "files")? {
        Some(files) => Ok(files),
        None => Err(ManifestFault::Field { name: Field::Files }),
    }
}

/// The number of the format, which has to be 1.
fn format_or(value: &Value) -> Result<u64, ManifestFault>
    ensures { result ≡ reading.format_or (reading.number_in (codes "format") (view value.now)) }
{
    match number_in(value, "format") {
        Some(1) => Ok(1),
        _ => Err(ManifestFault::Field {
            name: Field::Format,
        }),
    }
}

#[tactic(auto, unfolding(crate::specs::Reading::number_in))]
fn number_in(value: &Value, key: &str) -> Option<u64>
    ensures { result ≡ reading.number_in key.now (view value.now) }
{
    value.get(key)?.as_u64()
}

fn number_or(value: &Value, key: &str, name: Field) -> Result<u64, ManifestFault>
    ensures { result
        ≡ reading.found_or (ManifestFault.Field name) (reading.number_in key.now (view value.now)) }
{
    match number_in(value, key) {
        Some(number) => Ok(number),
        None => Err(ManifestFault::Field { name }),
    }
}

#[tactic(auto, unfolding(crate::specs::Reading::texts_in))]
fn texts_in(alloc: Global, value: &Value, key: &str) -> Result<Option<Names>, AllocError>
    ensures { IfOk result (λ texts. texts ≡ reading.texts_in key.now (view value.now)) }
{
    let Some(field) = value.get(key) else {
        return Ok(None);
    };
    let Some(items) = field.as_array() else {
        return Ok(None);
    };
    texts_of(alloc, items)
}

/// The texts of the items, where each is one.
fn texts_of(alloc: Global, items: &[Value]) -> Result<Option<Names>, AllocError>
    ensures { IfOk result (λ texts. texts ≡ reading.texts_of (items_view items.now)) }
{
    let mut texts = Vec::new(alloc);
    for item in items {
        let Some(text) = item.as_str() else {
            return Ok(None);
        };
        texts.push(Text::from_str(alloc, text)?)?;
    }
    Ok(Some(Names::from_vec(texts)))
}

/// The manifest, where its files are in order and its numbers agree with them and with the name.
#[tactic(auto, unfolding(crate::specs::Reading::checked))]
fn checked(manifest: Manifest, name: &Name) -> Result<Manifest, ManifestFault>
    ensures ok { IfOk result (λ m. reading.checked name.now manifest ≡ Ok m) }
    ensures err { IfErr result (λ fault. reading.Fails fault (reading.checked name.now manifest)) }
{
    if let Some(at) = misplaced(manifest.files.as_slice()) {
        return Err(ManifestFault::Order { at });
    }
    if !agrees(name, &manifest) {
        return Err(ManifestFault::Versions);
    }
    Ok(manifest)
}

/// The first place with a file that isn't a range name or isn't past the one before.
fn misplaced(files: &[Text]) -> Option<usize>
    ensures { result ≡ reading.misplaced None 0 files.now }
{
    let mut last: Option<&[u8]> = None;
    for (at, file) in files.iter().enumerate() {
        let file = file.as_bytes();
        if !fits(last, file) {
            return Some(at);
        }
        last = Some(file);
    }
    None
}

fn fits(last: Option<&[u8]>, file: &[u8]) -> bool
    ensures { result ≡ spec.fits (option_map (λ l. l.now) last.entry) file.now }
{
    if version_of(file).is_none() {
        return false;
    }
    match last {
        None => true,
        Some(last) => is_below(last, file),
    }
}

/// The version of a range file.
fn version_of(file: &[u8]) -> Option<u64>
    ensures { result ≡ spec.version_of file.now }
{
    match parse(file) {
        Name::Range { version, .. } => Some(version),
        _ => None,
    }
}

fn agrees(name: &Name, manifest: &Manifest) -> bool
    ensures { result ≡ reading.agrees name.now manifest.now }
{
    let Name::Manifest {
        begin,
        end,
        bytes,
        ..
    } = *name
    else {
        return false;
    };
    if begin != manifest.begin || end != manifest.end || bytes != manifest.bytes {
        return false;
    }
    match span_of(manifest.files.as_slice()) {
        None => false,
        Some((least, greatest)) => least == manifest.begin && greatest == manifest.end,
    }
}

/// The least and the greatest version of the files.
fn span_of(files: &[Text]) -> Option<(u64, u64)>
    ensures { result ≡ spec.span_of files.now }
{
    let mut span = None;
    for file in files {
        span = widest(span, version_of(file.as_bytes()));
    }
    span
}

fn widest(span: Option<(u64, u64)>, version: Option<u64>) -> Option<(u64, u64)>
    ensures { result ≡ spec.widest span (spec.alone version) }
{
    match (span, version) {
        (None, None) => None,
        (None, Some(version)) => Some((version, version)),
        (Some(span), None) => Some(span),
        (Some((least, greatest)), Some(version)) => {
            Some((least.min(version), greatest.max(version)))
        }
    }
}
