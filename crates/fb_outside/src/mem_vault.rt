ghost use Rattle.std.specs.Prelude.{◌≡◌, ◌↔◌, true, [], IfOk, OnOk, OnErr, IsErrOf};
ghost use Rattle.fb_outside.specs.Calls.{fresh, next_fails};
ghost use Rattle.fb_outside.specs.Faults.{most_faults};
ghost use Rattle.fb_outside.specs.Files.{AreFiles, file_of, names_in, with_file, without_file};
ghost use Rattle.fb_outside.specs.Memory.{called};

use crate::calls::Calls;
use crate::files::is_under;
use crate::{File, Files, Vault, VaultFail};
use fb_bytes::{Blob, Names, Text};
use std::alloc::{AllocError, Global};
use std::marker::Model;

/// A store that keeps its files in memory. Some calls may be told to fail: a failing call leaves the
/// files as they were.
#[derive(Debug, Drop)]
pub struct MemVault {
    files: Files,
    calls: Calls,
}

impl Model for MemVault {
    ghost use Rattle.fb_outside.specs.Memory.{Storing};

    ghost Value = { Storing };

    ghost use Rattle.fb_outside.specs.Files.{AreFiles};

    ghost view = { λ v. record { files = v.files; calls = v.calls } };

    ghost invariant = { λ v. AreFiles v.files };
}

impl MemVault {
    /// The calls of the numbers in `failing` fail, counted from 1.
    pub fn new(alloc: Global, files: &Files, failing: &[u64]) -> Result<Self, AllocError>
        ensures files { IfOk result (λ vault. vault.files ≡ files.now) }
        ensures calls { IfOk result (λ vault. vault.calls ≡ fresh failing.now most_faults) }
    {
        let files = files.copy()?;
        let calls = Calls::new(alloc, failing)?;
        Ok(MemVault::over(files, calls))
    }

    /// Every call after the one of number `last` fails.
    pub fn failing_after(alloc: Global, files: &Files, last: u64) -> Result<Self, AllocError>
        ensures files { IfOk result (λ vault. vault.files ≡ files.now) }
        ensures calls { IfOk result (λ vault. vault.calls ≡ fresh [] last) }
    {
        let files = files.copy()?;
        let calls = Calls::failing_after(alloc, last);
        Ok(MemVault::over(files, calls))
    }

    fn over(files: Files, calls: Calls) -> Self
        requires { AreFiles files }
        ensures files { result.files ≡ files }
        ensures calls { result.calls ≡ calls }
    {
        MemVault { files, calls }
    }

    /// The files that it holds. It takes no memory.
    pub fn files(&self) -> &Files
        ensures same { result.now ≡ self.now.files }
        ensures ordered { AreFiles self.now.files }
    {
        &self.files
    }
}

impl Vault for MemVault {
    ghost use Rattle.fb_outside.specs.Told.{in_order, told_are_files};

    ghost faults = { λ v. v.calls.faults };

    ghost calls = { λ v. v.calls.made };

    ghost files = { λ v. in_order v.files };

    fn list(&mut self, alloc: Global, folder: &Text) -> Result<Names, VaultFail>
        ensures fails { IsErrOf result VaultFail.Failed ↔ (next_fails self.old.calls ≡ true) }
        ensures names { IfOk result (λ names. names ≡ names_in folder.now self.old.files) }
        ensures same { self.new.files ≡ self.old.files }
        ensures calls { self.new.calls ≡ called self.old.calls }
    {
        if self.calls.fails_next() {
            return Err(VaultFail::Failed);
        }
        Ok(names_under(alloc, &self.files, folder)?)
    }

    fn get(&mut self, alloc: Global, name: &Text) -> Result<Option<Blob>, VaultFail>
        ensures fails { IsErrOf result VaultFail.Failed ↔ (next_fails self.old.calls ≡ true) }
        ensures bytes { IfOk result (λ bytes. bytes ≡ file_of self.old.files name.now) }
        ensures same { self.new.files ≡ self.old.files }
        ensures calls { self.new.calls ≡ called self.old.calls }
    {
        if self.calls.fails_next() {
            return Err(VaultFail::Failed);
        }
        match self.files.get(name.as_bytes()) {
            Some(bytes) => Ok(Some(bytes.copy()?)),
            None => Ok(None),
        }
    }

    fn put(&mut self, alloc: Global, name: &Text, bytes: &[u8]) -> Result<(), VaultFail>
        ensures fails { IsErrOf result VaultFail.Failed ↔ (next_fails self.old.calls ≡ true) }
        ensures put { OnOk result (self.new.files ≡ with_file self.old.files name.now bytes.now) }
        ensures stays { OnErr result (self.new.files ≡ self.old.files) }
        ensures calls { self.new.calls ≡ called self.old.calls }
        ensures ordered { AreFiles self.new.files }
        ensures was_ordered { AreFiles self.old.files }
    {
        if self.calls.fails_next() {
            return Err(VaultFail::Failed);
        }
        let name = name.copy()?;
        let bytes = Blob::from_slice(alloc, bytes)?;
        self.files.put(File { name, bytes })?;
        Ok(())
    }

    fn delete(&mut self, name: &Text) -> Result<(), VaultFail>
        ensures fails { IsErrOf result VaultFail.Failed ↔ (next_fails self.old.calls ≡ true) }
        ensures deleted { OnOk result (self.new.files ≡ without_file self.old.files name.now) }
        ensures stays { OnErr result (self.new.files ≡ self.old.files) }
        ensures calls { self.new.calls ≡ called self.old.calls }
        ensures ordered { AreFiles self.new.files }
        ensures was_ordered { AreFiles self.old.files }
    {
        if self.calls.fails_next() {
            return Err(VaultFail::Failed);
        }
        self.files.delete(name.as_bytes());
        Ok(())
    }

    fn faults(&self) -> u64 {
        self.calls.faults()
    }

    ghost ordered = { λ v told e. told_are_files v.files told e };
}

fn names_under(alloc: Global, files: &Files, folder: &Text) -> Result<Names, AllocError>
    ensures { IfOk result (λ names. names ≡ names_in folder.now files.now) }
{
    let mut names = Names::new(alloc);
    for file in files.as_slice() {
        if is_under(folder.as_bytes(), file.name.as_bytes()) {
            names.push(file.name.copy()?)?;
        }
    }
    Ok(names)
}
