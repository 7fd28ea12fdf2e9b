//! The log files of a chain.

ghost use Rattle.std.specs.Prelude.{◌≡◌, ◌+◌, ◌≤◌, ◌⊎◌, true, List, length, Some, Ok, Err, IfOk, IfErr, IsErrOf};
ghost use Rattle.fb_outside.specs.Faults.{Counts};
ghost use Rattle.fb_outside.specs.declared.File.{File};
ghost use Rattle.block_frame.specs.Profiles as profiles;
ghost use Rattle.fb_bytes.specs.Blocks.{is_block};
ghost use Rattle.file_names.specs.Reading.{name_of};
ghost use Rattle.container_view.specs.Files.{inside};
ghost use Rattle.container_view.specs.Sets.{Fails};
ghost use Rattle.container_view.specs.declared.ViewFault.TheVariants as faults;
ghost use Rattle.restore_read.specs.Reading as spec;

use block_frame::Profile;
use container_view::{FileFault, Link, ViewFault, get_file};
use fb_bytes::{Seq, Text};
use fb_outside::Vault;
use file_names::{Name, parse};
use log_files::{LogFault, read_log};
use restore_apply::LoadedLink;
use std::alloc::Global;

/// The log files of these links, read in their order.
pub(crate) fn get_links<V: Vault>(
    alloc: Global,
    vault: &mut V,
    container: &Text,
    links: &Seq<Link>,
) -> Result<Seq<LoadedLink>, ViewFault>
    ensures ok { IfOk result (λ loaded. (files : List File) → V.files vault.old ≡ Some files
        → spec.each_or (spec.link_at (inside container.now files)) links.now ≡ Ok loaded) }
    ensures err { IfErr result (λ fault. (files : List File) → V.files vault.old ≡ Some files
        → Fails fault (spec.each_or (spec.link_at (inside container.now files)) links.now)) }
    ensures same { V.files vault.new ≡ V.files vault.old }
    ensures count { Counts (V.faults vault.old) (V.faults vault.new)
        (IsErrOf result ViewFault.VaultFault) }
    ensures called { V.calls vault.new ≤ V.calls vault.old + length links.now }
{
    let mut loaded = Seq::new(alloc);
    'links: for link in links.as_slice() {
        let link = match get_link(alloc, vault, container, link) {
            Ok(link) => link,
            Err(fault) => return Err(fault),
        };
        loaded.push(link)?;
    }
    Ok(loaded)
}

// The log file of a link.
fn get_link<V: Vault>(
    alloc: Global,
    vault: &mut V,
    container: &Text,
    link: &Link,
) -> Result<LoadedLink, ViewFault>
    ensures ok { IfOk result (λ loaded. (files : List File) → V.files vault.old ≡ Some files
        → spec.link_at (inside container.now files) link.now ≡ Ok loaded) }
    ensures err { IfErr result (λ fault. (files : List File) → V.files vault.old ≡ Some files
        → Fails fault (spec.link_at (inside container.now files) link.now)) }
    ensures same { V.files vault.new ≡ V.files vault.old }
    ensures count { Counts (V.faults vault.old) (V.faults vault.new)
        (IsErrOf result ViewFault.VaultFault) }
    ensures called { V.calls vault.new ≤ V.calls vault.old + 1 }
{
    let bytes = get_file(alloc, vault, container, &link.name)?;
    read_link(alloc, link, bytes.as_slice())
}

// What the bytes of a link's log file say.
fn read_link(alloc: Global, link: &Link, bytes: &[u8]) -> Result<LoadedLink, ViewFault>
    ensures ok { IfOk result (λ loaded. spec.link_by link.now bytes.now (name_of link.now.name)
        ≡ Ok loaded) }
    ensures err { IfErr result (λ fault. (fault ≡ faults.NoMemory)
        ⊎ (spec.link_by link.now bytes.now (name_of link.now.name) ≡ Err fault)) }
{
    let Name::Log {
        begin,
        end,
        block,
        ..
    } = parse(link.name.as_bytes())
    else {
        let name = link.name.copy()?;
        return Err(ViewFault::Missing { name });
    };
    match read_log(alloc, bytes, block, begin, end) {
        Ok(chunk) => Ok(LoadedLink {
            from: link.from,
            to: link.to,
            limit: limit_of(block),
            chunk,
        }),
        Err(LogFault::NoMemory) => Err(ViewFault::NoMemory),
        Err(fault) => {
            let name = link.name.copy()?;
            Err(ViewFault::Damaged {
                name,
                fault: FileFault::Log { fault },
            })
        }
    }
}

// The greatest length of a value in files of this block.
fn limit_of(block: u32) -> usize
    requires { is_block block ≡ true }
    ensures { result ≡ profiles.limit_of block }
{
    match Profile::from_block(block) {
        Some(profile) => profile.value,
        None => 0,
    }
}
