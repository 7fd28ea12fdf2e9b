ghost use Rattle.std.specs.Prelude.{◌≡◌, IsErrOf};
ghost use Rattle.fb_outside.specs.Faults as counts;
ghost use Rattle.fb_outside.specs.Faults.{Counts};

use crate::calls::counted;
use crate::parts::{is_part, is_store_name};
use crate::{Vault, VaultFail};
use fb_bytes::{Blob, Names, Text};
use std::alloc::{AllocError, Global};
use std::fs::OpenFile;
use std::io::{ErrorKind, Write};
use std::marker::Model;
use std::rt::Files;
use std::{fs, io};

/// How many folders a list may look into.
const MOST_FOLDERS: u32 = 1_000_000;

/// A store of files in a folder on disk. It tells no content. Each error of the file system is a
/// fault, and so is a name that isn't of the store's own forms.
#[derive(Drop)]
pub struct FolderVault<R: Files + AllocGlobal + Clone + Drop> {
    rt: R,
    root: Text,
    calls: u64,
    faults: u64,
}

impl<R: Files + AllocGlobal + Clone + Drop> Model for FolderVault<R> {
    ghost use Rattle.fb_outside.specs.Faults.{Tally};

    ghost Value = { Tally };

    ghost view = { λ v. record { calls = v.calls; faults = v.faults } };
}

impl<R: Files + AllocGlobal + Clone + Drop> FolderVault<R> {
    /// The store in the folder `root`, which need not be there before the first put.
    pub fn new(rt: R, root: Text) -> Self
        ensures calls { result.calls ≡ 0 }
        ensures faults { result.faults ≡ 0 }
    {
        FolderVault {
            rt,
            root,
            calls: 0,
            faults: 0,
        }
    }

    // Counts a call, and a fault where the answer is one.
    fn count<T: Drop>(&mut self, answer: Result<T, VaultFail>) -> Result<T, VaultFail>
        ensures same { result ≡ answer }
        ensures count { Counts self.old.faults self.new.faults (IsErrOf answer VaultFail.Failed) }
        ensures called { self.new.calls ≡ counts.counted self.old.calls }
    {
        self.calls = counted(self.calls);
        if matches!(answer, Err(VaultFail::Failed)) {
            self.faults = counted(self.faults);
        }
        answer
    }

    fn path_of(&self, alloc: Global, name: &Text) -> Result<String, VaultFail> {
        if !is_store_name(name.as_bytes()) {
            return Err(VaultFail::Failed);
        }
        let root = self.root.as_str();
        let name = name.as_str();
        Ok(format!(in alloc; "{root}/{name}")?)
    }

    fn names_under(&self, alloc: Global, folder: &Text) -> Result<Names, VaultFail> {
        let mut walk = Walk::from(alloc, folder)?;
        for _ in 0..MOST_FOLDERS {
            let Some(folder) = walk.folders.pop() else {
                return Ok(walk.sorted());
            };
            self.look_into(alloc, folder.as_str(), &mut walk)?;
        }
        Err(VaultFail::Failed)
    }

    // Notes the files and the folders of a folder, whose name ends in a slash or is empty.
    fn look_into(&self, alloc: Global, folder: &str, walk: &mut Walk) -> Result<(), VaultFail> {
        let root = self.root.as_str();
        let path = format!(in alloc; "{root}/{folder}")?;
        let entries = match fs::read_dir(&self.rt, path.as_str()) {
            Ok(entries) => entries,
            Err(error) => return absent(error),
        };
        for entry in entries {
            let entry = entry?;
            let is_folder = entry.file_type()?.is_dir();
            walk.note(alloc, folder, entry.file_name(), is_folder)?;
        }
        Ok(())
    }

    fn bytes_of(&self, alloc: Global, name: &Text) -> Result<Option<Blob>, VaultFail> {
        let path = self.path_of(alloc, name)?;
        match fs::read(&self.rt, path.as_str()) {
            Ok(bytes) => Ok(Some(Blob::from_vec(bytes))),
            Err(error) => {
                absent(error)?;
                Ok(None)
            }
        }
    }

    // The bytes go into a file of another form first, so that the name has the old bytes or all of
    // the new ones.
    fn place(&self, alloc: Global, name: &Text, bytes: &[u8]) -> Result<(), VaultFail> {
        let path = self.path_of(alloc, name)?;
        let Some((folder, _)) = path.as_str().rsplit_once('/') else {
            return Err(VaultFail::Failed);
        };
        let draft = format!(in alloc; "{folder}/.put")?;
        fs::create_dir_all(&self.rt, folder)?;
        let mut file = fs::create(&self.rt, draft.as_str())?;
        file.write_all(bytes)?;
        file.sync_all()?;
        fs::rename(&self.rt, draft.as_str(), path.as_str())?;
        // The folder holds the names: without this a loss of power could take the rename back.
        fs::open(&self.rt, folder)?.sync_all()?;
        Ok(())
    }

    fn remove(&self, name: &Text) -> Result<(), VaultFail> {
        let path = self.path_of(self.rt.alloc(), name)?;
        match fs::remove_file(&self.rt, path.as_str()) {
            Ok(()) => Ok(()),
            Err(error) => absent(error),
        }
    }
}

impl<R: Files + AllocGlobal + Clone + Drop + Send> Vault for FolderVault<R> {
    ghost use Rattle.std.specs.Prelude.{None};

    ghost faults = { λ v. v.faults };

    ghost calls = { λ v. v.calls };

    ghost files = { λ _. None };

    fn list(&mut self, alloc: Global, folder: &Text) -> Result<Names, VaultFail> {
        let names = self.names_under(alloc, folder);
        self.count(names)
    }

    fn get(&mut self, alloc: Global, name: &Text) -> Result<Option<Blob>, VaultFail> {
        let bytes = self.bytes_of(alloc, name);
        self.count(bytes)
    }

    fn put(&mut self, alloc: Global, name: &Text, bytes: &[u8]) -> Result<(), VaultFail> {
        let placed = self.place(alloc, name, bytes);
        self.count(placed)
    }

    fn delete(&mut self, name: &Text) -> Result<(), VaultFail> {
        let removed = self.remove(name);
        self.count(removed)
    }

    fn faults(&self) -> u64 {
        self.faults
    }

    ghost ordered = { λ v told e. cc };
}

// The folders that a list has still to look into, and the names of the files so far.
#[derive(Drop)]
struct Walk {
    folders: Vec<Text>,
    names: Vec<Text>,
}

impl Walk {
    fn from(alloc: Global, folder: &Text) -> Result<Self, VaultFail> {
        if !folder.is_empty() && !is_store_name(folder.as_bytes()) {
            return Err(VaultFail::Failed);
        }
        let mut first = String::from_str(alloc, folder.as_str())?;
        if !first.is_empty() {
            first.push('/')?;
        }
        let mut folders = Vec::new(alloc);
        folders.push(Text::from_string(first))?;
        Ok(Walk {
            folders,
            names: Vec::new(alloc),
        })
    }

    // What isn't a part of a name isn't of the store, as a file that a put hasn't finished.
    fn note(
        &mut self,
        alloc: Global,
        folder: &str,
        part: &str,
        is_folder: bool,
    ) -> Result<(), AllocError> {
        if !is_part(part.as_bytes()) {
            return Ok(());
        }
        if is_folder {
            let name = format!(in alloc; "{folder}{part}/")?;
            self.folders.push(Text::from_string(name))?;
        } else {
            let name = format!(in alloc; "{folder}{part}")?;
            self.names.push(Text::from_string(name))?;
        }
        Ok(())
    }

    fn sorted(self) -> Names {
        let mut names = self.names;
        names.sort_unstable_by(|a: &Text, b: &Text| a.as_bytes().cmp(&b.as_bytes()));
        Names::from_vec(names)
    }
}

// Fine where a file or a folder isn't there.
fn absent(error: io::Error) -> Result<(), VaultFail> {
    match error.kind() {
        ErrorKind::NotFound | ErrorKind::NotADirectory => Ok(()),
        _ => Err(VaultFail::from(error)),
    }
}

impl From<io::Error> for VaultFail {
    fn from(error: io::Error) -> Self {
        match error.kind() {
            ErrorKind::OutOfMemory => VaultFail::NoMemory,
            _ => VaultFail::Failed,
        }
    }
}
