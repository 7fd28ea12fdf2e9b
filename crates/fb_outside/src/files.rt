ghost use Rattle.std.specs.Prelude.{◌≡◌, ◌↔◌, ◌<◌, not, List, [], length, position, get_or, slice_set, Some, None, IsTrue, IfOk, OnOk, OnErr, MatchOption};
ghost use Rattle.std.specs.List.{position_or_len};
ghost use Rattle.fb_bytes.specs.Bytes as bytes;
ghost use Rattle.fb_outside.specs.Files as words;

use fb_bytes::{Blob, Text, is_below, is_same};
use std::alloc::{AllocError, Global};
use std::marker::Model;

/// A file of a store: its whole name, with its folders, and its bytes.
#[derive(Debug, Drop)]
pub struct File {
    pub name: Text,
    pub bytes: Blob,
}

impl File {
    /// An equal file with memory of its own.
    pub fn copy(&self) -> Result<Self, AllocError>
        ensures { IfOk result (λ file. file ≡ self.now) }
    {
        let name = self.name.copy()?;
        let bytes = self.bytes.copy()?;
        Ok(File { name, bytes })
    }
}

/// The files of a store, in byte order of their names. No name comes twice.
#[derive(Debug, Drop)]
pub struct Files {
    files: Vec<File>,
}

impl Model for Files {
    ghost use Rattle.std.specs.Prelude.{List};
    ghost use Rattle.fb_outside.specs.declared.files.File.{File};

    ghost Value = { List File };

    ghost use Rattle.fb_outside.specs.Files.{AreFiles};

    ghost view = { λ f. f.files.items };

    ghost invariant = { λ f. AreFiles f.files.items };
}

impl Files {
    ghost use Rattle.fb_outside.specs.Files.{AreFiles, file_of, with_file, without_file};

    /// No files. It takes no memory.
    pub fn new(alloc: Global) -> Self
        ensures { result ≡ [] }
    {
        Files {
            files: Vec::new(alloc),
        }
    }

    /// The same files, with no copy.
    pub fn from_vec(files: Vec<File>) -> Self
        requires { AreFiles files.items }
        ensures { result ≡ files.items }
    {
        Files { files }
    }

    /// The same files, with no copy.
    pub fn into_vec(self) -> Vec<File>
        ensures same { result.items ≡ self }
        ensures files { AreFiles self }
    {
        let Files { files } = self;
        files
    }

    pub fn as_slice(&self) -> &[File]
        ensures same { result.now ≡ self.now }
        ensures files { AreFiles self.now }
    {
        &self.files
    }

    pub fn len(&self) -> usize
        ensures { result ≡ length self.now }
    {
        self.files.len()
    }

    pub fn is_empty(&self) -> bool
        ensures { IsTrue result ↔ (self.now ≡ []) }
    {
        self.files.is_empty()
    }

    /// The bytes of the file of that name.
    pub fn get(&self, name: &[u8]) -> Option<&Blob>
        ensures { MatchOption result (file_of self.now name.now ≡ None)
            (λ bytes. file_of self.now name.now ≡ Some bytes.now) }
    {
        for file in &self.files {
            if is_same(file.name.as_bytes(), name) {
                return Some(&file.bytes);
            }
        }
        None
    }

    /// Puts the file in place of the one with its name, or where its name belongs. Without memory the
    /// file is let go.
    pub fn put(&mut self, file: File) -> Result<(), AllocError>
        ensures ok { OnOk result (self.new ≡ with_file self.old file.name file.bytes) }
        ensures err { OnErr result (self.new ≡ self.old) }
        ensures files { AreFiles self.new }
    {
        let at = place_of(&self.files, file.name.as_bytes());
        if is_at(&self.files, at, file.name.as_bytes()) {
            replace(&mut self.files, at, file);
        } else {
            self.files.insert(at, file)?;
        }
        Ok(())
    }

    /// Takes the file of that name away, where there is one. It takes no memory.
    pub fn delete(&mut self, name: &[u8])
        ensures deleted { self.new ≡ without_file self.old name.now }
        ensures files { AreFiles self.new }
    {
        remove_name(&mut self.files, name);
    }

    /// An equal list with memory of its own.
    pub fn copy(&self) -> Result<Self, AllocError>
        ensures same { IfOk result (λ files. files ≡ self.now) }
        ensures files { IfOk result (λ files. AreFiles files) }
    {
        let mut files = Vec::with_capacity(*self.files.allocator(), self.files.len())?;
        for file in &self.files {
            let file = file.copy()?;
            files.push(file)?;
        }
        Ok(Files { files })
    }
}

// Where the name stands, or else where it belongs.
fn place_of(files: &[File], name: &[u8]) -> usize
    ensures { result ≡ position_or_len (λ file. not (bytes.is_below file.name name.now)) files.now }
{
    first_from(files, name).unwrap_or(files.len())
}

// The first place whose name isn't below this one.
fn first_from(files: &[File], name: &[u8]) -> Option<usize>
    ensures { result ≡ position (λ file. not (bytes.is_below file.name name.now)) files.now }
{
    files
        .iter()
        .position(|file| !is_below(file.name.as_bytes(), name))
}

fn is_at(files: &[File], at: usize, name: &[u8]) -> bool
    ensures within { IsTrue result → at < length files.now }
    ensures same { (d : words.File) → at < length files.now
        → result ≡ bytes.is_same (get_or files.now at d).name name.now }
{
    match files.get(at) {
        Some(file) => is_same(file.name.as_bytes(), name),
        None => false,
    }
}

// Puts the file in place of the one at a place.
fn replace(files: &mut Vec<File>, at: usize, file: File)
    requires { at < length files.old.items }
    ensures { files.new.items ≡ slice_set files.old.items at file }
{
    files[at] = file;
}

fn remove_name(files: &mut Vec<File>, name: &[u8])
    ensures { files.new.items ≡ words.without_file files.old.items name.now }
{
    files.retain(|file| !is_same(file.name.as_bytes(), name));
}

/// Whether a name stands under a folder. Under the empty folder stands every name.
pub fn is_under(folder: &[u8], name: &[u8]) -> bool
    ensures { result ≡ words.is_under folder.now name.now }
{
    if folder.is_empty() {
        return true;
    }
    name.starts_with(folder) && name[folder.len()..].starts_with(b"/")
}
