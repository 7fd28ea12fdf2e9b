use super::*;
use fb_bytes::Text;
use std::alloc::Global;
use std::test::Fail;
use std::{fs, process};

/// Puts bytes twice under a name, and tells whether the later ones are got.
fn has_the_later<V: Vault>(alloc: Global, vault: &mut V, name: &Text) -> Result<bool, VaultFail> {
    vault.put(alloc, name, b"old")?;
    vault.put(alloc, name, b"new")?;
    match vault.get(alloc, name)? {
        Some(found) => Ok(found.as_slice() == b"new".as_slice()),
        None => Ok(false),
    }
}

/// How many files a folder has, before one of them is deleted and after.
fn counts<V: Vault>(
    alloc: Global,
    vault: &mut V,
    folder: &Text,
    name: &Text,
) -> Result<(usize, usize), VaultFail> {
    let before = vault.list(alloc, folder)?.len();
    vault.delete(name)?;
    let after = vault.list(alloc, folder)?.len();
    Ok((before, after))
}

/// Whether a store refuses a name that would lead out of its folder.
fn stays_inside<V: Vault>(alloc: Global, vault: &mut V) -> Result<bool, VaultFail> {
    let outside = Text::from_str(alloc, "../box")?;
    Ok(vault.put(alloc, &outside, b"").is_err())
}

/// Whether a file has the later bytes, is listed, and isn't once it is deleted.
fn is_kept<V: Vault>(alloc: Global, vault: &mut V) -> Result<bool, VaultFail> {
    let folder = Text::from_str(alloc, "box")?;
    let name = Text::from_str(alloc, "box/logs/0/log,1,2,3,256")?;
    let later = has_the_later(alloc, vault, &name)?;
    let counts = counts(alloc, vault, &folder, &name)?;
    Ok(later && counts == (1, 0))
}

#[test]
fn keeps_files_on_disk(rt: HostRuntime) -> Result<(), Fail> {
    let id = process::id(rt.process());
    let root = format!(in rt.alloc(); "/tmp/fb_outside_{id}")?;
    let mut vault = FolderVault::new(rt.clone()?, Text::from_string(root.clone()?));
    assert!(rt; is_kept(rt.alloc(), &mut vault)?);
    assert!(rt; stays_inside(rt.alloc(), &mut vault)?);
    fs::remove_dir_all(&rt, root.as_str())?;
    Ok(())
}

fn read_from_bytes(alloc: Global) -> Result<bool, ReadFault> {
    let mut source = ReaderSource::new(b"abc".as_slice());
    let read = read_all(alloc, &mut source, 3)?;
    Ok(read.as_slice() == b"abc".as_slice() && source.faults() == 0)
}

#[test]
fn reads_and_writes_std_streams(rt: HostRuntime) -> Result<(), Fail> {
    assert_eq!(rt; read_from_bytes(rt.alloc()), Ok(true));
    let mut bytes = [0; 2];
    let mut sink = WriterSink::new(bytes.as_mut_slice());
    assert_eq!(rt; write_all(&mut sink, b"abc"), Err(Failed));
    assert_eq!(rt; sink.faults(), 1);
    Ok(())
}
