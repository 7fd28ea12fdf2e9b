ghost use Rattle.std.specs.Prelude.{◌≡◌, ◌≤◌, ◌<◌, [], Some, None, IfOk, IfErr, IfSome, slice_get, OnOk, OnErr, option_map, ◌⊎◌};
ghost use Rattle.std.specs.List.{prefix_len};
ghost use Rattle.fb_bytes.specs.Bytes.{is_below};
ghost use Rattle.snapshot_plan.specs.Listing.{noted_names};
ghost use Rattle.snapshot_plan.specs.Noted as spec;
ghost use Rattle.snapshot_plan.specs.Pieces.{ArePieces};

use crate::MapFault;
use crate::least_keys::{gap_in, outside, overlap};
use fb_bytes::{Blob, KeyRange, Names, Ranges, Text, is_below, is_same};
use manifests::Manifest;
use std::alloc::{AllocError, Global};
use std::marker::Model;

/// A range file that was placed: its name in the container, its version, and how many bytes it has.
#[derive(Debug, Drop)]
pub struct Done {
    pub name: Text,
    pub version: u64,
    pub bytes: u64,
}

/// A piece that is done, and its file.
#[derive(Debug, Drop)]
pub struct Noted {
    pub piece: KeyRange,
    pub file: Done,
}

/// The pieces of a job's ranges that are done in a snapshot, each with its file.
#[derive(Debug, Drop)]
pub struct FileMap {
    ranges: Ranges,
    noted: Vec<Noted>,
}

impl Model for FileMap {
    ghost use Rattle.snapshot_plan.specs.Noted.{Map, pieces_of};
    ghost use Rattle.snapshot_plan.specs.Pieces.{ArePieces};

    ghost Value = { Map };

    ghost view = { λ m. record { ranges = m.ranges; noted = m.noted.items } };

    ghost invariant = { λ m. ArePieces (pieces_of m.noted.items) };
}

impl FileMap {
    /// No piece is noted.
    pub fn new(alloc: Global, ranges: &Ranges) -> Result<Self, AllocError>
        ensures { IfOk result (λ map. map ≡ record { ranges = ranges.now; noted = [] }) }
    {
        let ranges = ranges.copy()?;
        Ok(FileMap {
            ranges,
            noted: Vec::new(alloc),
        })
    }

    /// Why the piece can't be noted, if it can't. It changes nothing.
    pub fn check(&self, piece: &KeyRange) -> Result<(), MapFault>
        ensures ok { OnOk result (spec.fault_of self.now piece.now ≡ None) }
        ensures err { IfErr result (λ fault. (fault ≡ MapFault.NoMemory)
            ⊎ (spec.fault_of self.now piece.now ≡ Some fault)) }
    {
        if let Some(key) = outside(self.ranges.as_slice(), piece) {
            let key = Blob::from_slice(self.alloc(), key)?;
            return Err(MapFault::OutsideRanges { key });
        }
        if let Some(key) = overlap(&self.noted, piece) {
            let key = Blob::from_slice(self.alloc(), key)?;
            return Err(MapFault::Overlap { key });
        }
        Ok(())
    }

    /// Notes the file of a piece. Of a piece without keys nothing is to be noted.
    pub fn done(&mut self, piece: KeyRange, file: Done) -> Result<(), MapFault>
        ensures ok { OnOk result (spec.fault_of self.old piece ≡ None) }
        ensures err { IfErr result (λ fault. (fault ≡ MapFault.NoMemory)
            ⊎ (spec.fault_of self.old piece ≡ Some fault)) }
        ensures noted { OnOk result
            (self.new ≡ record self.old
            { noted = spec.with_done (record { piece = piece; file = file }) self.old.noted }) }
        ensures refused { OnErr result (self.new ≡ self.old) }
    {
        self.check(&piece)?;
        if piece.is_backwards() {
            return Ok(());
        }
        insert_noted(&mut self.noted, Noted { piece, file })?;
        Ok(())
    }

    /// Takes back the piece that begins at the key, where one was noted. It takes no memory.
    pub fn take_back(&mut self, begin: &[u8])
        ensures { self.new ≡ record self.old { noted = spec.without begin.now self.old.noted } }
    {
        let place = place_of(&self.noted, begin);
        if begins_at(&self.noted, place, begin) {
            self.noted.remove(place);
        }
    }

    /// The least key of the ranges that no noted piece holds. None exactly where the pieces tile the
    /// ranges.
    pub fn gap(&self) -> Result<Option<Blob>, AllocError>
        ensures { IfOk result (λ key. key ≡ spec.gap self.now) }
    {
        match gap_in(self.ranges.as_slice(), &self.noted) {
            None => Ok(None),
            Some(key) => {
                let key = Blob::from_slice(self.alloc(), key)?;
                Ok(Some(key))
            }
        }
    }

    /// The manifest of the noted files, once they tile the ranges. More bytes than a name has room for
    /// are want of memory.
    pub fn manifest(&self) -> Result<Manifest, MapFault>
        ensures ok { IfOk result (λ manifest. (spec.gap self.now ≡ None)
            × (manifest ≡ spec.manifest_of self.now.noted)) }
        ensures fits { IfOk result (λ manifest. manifest.bytes ≤ spec.most_bytes) }
        ensures err { IfErr result (λ fault. (fault ≡ MapFault.NoMemory)
            ⊎ (option_map (λ key. MapFault.Untiled key) (spec.gap self.now) ≡ Some fault)) }
    {
        let gap = self.gap()?;
        if let Some(key) = gap {
            return Err(MapFault::Untiled { key });
        }
        let Some(bytes) = bytes_of(&self.noted) else {
            return Err(MapFault::NoMemory);
        };
        let files = names_of(self.alloc(), &self.noted)?;
        let (begin, end) = span_of(&self.noted);
        Ok(Manifest {
            begin,
            end,
            files,
            bytes,
        })
    }

    // The allocator of its list.
    fn alloc(&self) -> Global {
        *self.noted.allocator()
    }

    /// The ranges of the job.
    pub fn ranges(&self) -> &Ranges
        ensures { result.now ≡ self.now.ranges }
    {
        &self.ranges
    }

    /// The noted pieces, in key order.
    pub fn noted(&self) -> &[Noted]
        ensures same { result.now ≡ self.now.noted }
        ensures pieces { ArePieces (spec.pieces_of self.now.noted) }
    {
        &self.noted
    }

    /// Forgets all noted pieces, for the next snapshot. It takes no memory.
    pub fn clear(&mut self)
        ensures { self.new ≡ record self.old { noted = [] } }
    {
        self.noted.clear();
    }

    /// An equal map with memory of its own.
    pub fn copy(&self) -> Result<Self, AllocError>
        ensures { IfOk result (λ map. map ≡ self.now) }
    {
        let ranges = self.ranges.copy()?;
        let mut noted = Vec::new(self.alloc());
        for one in &self.noted {
            let one = one.copy()?;
            noted.push(one)?;
        }
        Ok(FileMap { ranges, noted })
    }
}

impl Noted {
    /// An equal one with memory of its own.
    pub fn copy(&self) -> Result<Self, AllocError>
        ensures { IfOk result (λ noted. noted ≡ self.now) }
    {
        let piece = self.piece.copy()?;
        let file = self.file.copy()?;
        Ok(Noted { piece, file })
    }
}

impl Done {
    /// An equal one with memory of its own.
    pub fn copy(&self) -> Result<Self, AllocError>
        ensures { IfOk result (λ done. done ≡ self.now) }
    {
        let name = self.name.copy()?;
        Ok(Done {
            name,
            version: self.version,
            bytes: self.bytes,
        })
    }
}

/// Puts a noted piece where it belongs in key order.
fn insert_noted(noted: &mut Vec<Noted>, one: Noted) -> Result<(), AllocError>
    requires { ArePieces (spec.pieces_of noted.old.items) }
    ensures ok { OnOk result (noted.new.items ≡ spec.with_noted one noted.old.items) }
    ensures err { OnErr result (noted.new.items ≡ noted.old.items) }
{
    let at = place_of(noted, one.piece.begin.as_slice());
    noted.insert(at, one)?;
    Ok(())
}

// How many noted pieces begin before the key.
fn place_of(noted: &[Noted], key: &[u8]) -> usize
    requires { ArePieces (spec.pieces_of noted.now) }
    ensures { result ≡ prefix_len (λ one. is_below one.piece.begin key.now) noted.now }
{
    noted.partition_point(|one| is_below(one.piece.begin.as_slice(), key))
}

// Whether there is a piece at the place, and it begins at the key.
fn begins_at(noted: &[Noted], place: usize, key: &[u8]) -> bool
    ensures { result ≡ spec.begins_at key.now (slice_get noted.now place) }
{
    place < noted.len() && is_same(noted[place].piece.begin.as_slice(), key)
}

/// The files' names in byte order.
fn names_of(alloc: Global, noted: &[Noted]) -> Result<Names, AllocError>
    ensures { IfOk result (λ names. names ≡ spec.names_of [] noted.now) }
{
    let mut names = file_names(alloc, noted)?;
    names.sort()?;
    Ok(Names::from_vec(names))
}

// Copies of the files' names.
fn file_names(alloc: Global, noted: &[Noted]) -> Result<Vec<Text>, AllocError>
    ensures { IfOk result (λ names. names.items ≡ noted_names noted.now) }
{
    let mut names = Vec::new(alloc);
    'noted: for one in noted {
        let name = one.file.name.copy()?;
        names.push(name)?;
    }
    Ok(names)
}

/// The least and the greatest version of the files; 0 without files.
fn span_of(noted: &[Noted]) -> (u64, u64)
    ensures least { result.0 ≡ (spec.manifest_of noted.now).begin }
    ensures greatest { result.1 ≡ (spec.manifest_of noted.now).end }
{
    let Some((first, rest)) = noted.split_first() else {
        return (0, 0);
    };
    (
        least_of(first.file.version, rest),
        greatest_of(first.file.version, rest),
    )
}

fn least_of(first: u64, rest: &[Noted]) -> u64
    ensures { result ≡ spec.least_of first rest.now }
{
    let mut least = first;
    'rest: for one in rest {
        least = least.min(one.file.version);
    }
    least
}

fn greatest_of(first: u64, rest: &[Noted]) -> u64
    ensures { result ≡ spec.greatest_of first rest.now }
{
    let mut greatest = first;
    'rest: for one in rest {
        greatest = greatest.max(one.file.version);
    }
    greatest
}

/// The greatest number in a name.
const MOST: u64 = (1 << 63) - 1;

/// The bytes of all files, where they are no more than a name has room for.
fn bytes_of(noted: &[Noted]) -> Option<u64>
    ensures total { IfSome result (λ bytes. bytes ≡ spec.bytes_of 0 noted.now) }
    ensures fits { IfSome result (λ bytes. bytes ≤ spec.most_bytes) }
    ensures past { result ≡ None → spec.most_bytes < spec.bytes_of 0 noted.now }
{
    let mut bytes: u64 = 0;
    'noted: for one in noted {
        if one.file.bytes > MOST - bytes {
            return None;
        }
        bytes += one.file.bytes;
    }
    Some(bytes)
}
