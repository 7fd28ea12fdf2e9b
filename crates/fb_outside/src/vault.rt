ghost use Rattle.std.specs.Prelude.{◌≡◌, ℕ, List, Option, Some, None, ◌⊎◌, IfOk, OnOk, IsErrOf};
ghost use Rattle.fb_outside.specs.Faults.{Counts, counted};
ghost use Rattle.fb_outside.specs.Files.{File, AreFiles, file_of, names_in, with_file, without_file};

use crate::VaultFail;
use fb_bytes::{Blob, Names, Text};
use std::alloc::Global;

/// A store of files, each under a name with slashes in it.
pub trait Vault: Drop + Send {
    /// How many faults there were.
    ghost faults: { Self → ℕ };

    /// How many calls of `list`, `get`, `put` and `delete` there were. Each raises it by one, whatever
    /// it answers; at its end it stays.
    ghost calls: { Self → ℕ };

    /// The files, where the store tells them. One that tells them goes on telling, and one that
    /// doesn't goes on not telling.
    ghost files: { Self → Option (List File) };

    /// The whole names of the files under the folder, in byte order. The empty folder is the whole
    /// store.
    fn list(&mut self, alloc: Global, folder: &Text) -> Result<Names, VaultFail>
        ensures names { IfOk result (λ names. (files_now : List File)
            → files self.old ≡ Some files_now → names ≡ names_in folder.now files_now) }
        ensures same { files self.new ≡ files self.old }
        ensures count { Counts (faults self.old) (faults self.new)
            (IsErrOf result VaultFail.Failed) }
        ensures called { calls self.new ≡ counted (calls self.old) };

    /// The bytes of a file. None is a name that no file has, which isn't a fault.
    fn get(&mut self, alloc: Global, name: &Text) -> Result<Option<Blob>, VaultFail>
        ensures bytes { IfOk result (λ bytes. (files_now : List File)
            → files self.old ≡ Some files_now → bytes ≡ file_of files_now name.now) }
        ensures same { files self.new ≡ files self.old }
        ensures count { Counts (faults self.old) (faults self.new)
            (IsErrOf result VaultFail.Failed) }
        ensures called { calls self.new ≡ counted (calls self.old) };

    /// Puts the bytes under the name, in place of what it had.
    fn put(&mut self, alloc: Global, name: &Text, bytes: &[u8]) -> Result<(), VaultFail>
        ensures put { OnOk result ((files_now : List File) → files self.old ≡ Some files_now
            → files self.new ≡ Some (with_file files_now name.now bytes.now)) }
        ensures failed { IsErrOf result VaultFail.Failed → (files_now : List File)
            → files self.old ≡ Some files_now → (files self.new ≡ Some files_now)
            ⊎ (files self.new ≡ Some (with_file files_now name.now bytes.now)) }
        ensures silent { files self.old ≡ None → files self.new ≡ None }
        ensures no_memory { IsErrOf result VaultFail.NoMemory → files self.new ≡ files self.old }
        ensures count { Counts (faults self.old) (faults self.new)
            (IsErrOf result VaultFail.Failed) }
        ensures called { calls self.new ≡ counted (calls self.old) };

    /// Deletes the file of that name. Where there is none it is done.
    fn delete(&mut self, name: &Text) -> Result<(), VaultFail>
        ensures deleted { OnOk result ((files_now : List File) → files self.old ≡ Some files_now
            → files self.new ≡ Some (without_file files_now name.now)) }
        ensures failed { IsErrOf result VaultFail.Failed → (files_now : List File)
            → files self.old ≡ Some files_now → (files self.new ≡ Some files_now)
            ⊎ (files self.new ≡ Some (without_file files_now name.now)) }
        ensures silent { files self.old ≡ None → files self.new ≡ None }
        ensures no_memory { IsErrOf result VaultFail.NoMemory → files self.new ≡ files self.old }
        ensures count { Counts (faults self.old) (faults self.new)
            (IsErrOf result VaultFail.Failed) }
        ensures called { calls self.new ≡ counted (calls self.old) };

    /// The count of faults. It takes no memory.
    fn faults(&self) -> u64
        ensures { result ≡ faults self.now };

    /// The files that a store tells stand in byte order.
    ghost ordered: { (vault : Self) (files_now : List File)
        → files vault ≡ Some files_now → AreFiles files_now };
}
