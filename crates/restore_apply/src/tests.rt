use crate::{Loaded, LoadedFile, LoadedLink, whole};
use atomic_ops::Op;
use fb_bytes::{Blob, Pair, Pairs, Seq, is_same};
use mutations::{Batch, LogChunk, Mutation};
use range_files::RangeBody;
use std::alloc::{AllocError, Global};
use std::test::Fail;

/// A file of a version with one pair.
fn file(
    alloc: Global,
    version: u64,
    range: (&[u8], &[u8]),
    pair: (&[u8], &[u8]),
) -> Result<LoadedFile, AllocError> {
    let begin = Blob::from_slice(alloc, range.0)?;
    let end = Blob::from_slice(alloc, range.1)?;
    let key = Blob::from_slice(alloc, pair.0)?;
    let value = Blob::from_slice(alloc, pair.1)?;
    let mut pairs = Pairs::new(alloc);
    pairs.push(Pair { key, value })?;
    let body = RangeBody { begin, end, pairs };
    Ok(LoadedFile { version, body })
}

fn append(alloc: Global, key: &[u8], param: &[u8]) -> Result<Mutation, AllocError> {
    let key = Blob::from_slice(alloc, key)?;
    let param = Blob::from_slice(alloc, param)?;
    Ok(Mutation::Atomic {
        op: Op::AppendIfFits,
        key,
        param,
    })
}

/// Adds a batch of one mutation.
fn push(
    alloc: Global,
    batches: &mut Seq<Batch>,
    version: u64,
    mutation: Mutation,
) -> Result<(), AllocError> {
    let mut muts = Seq::new(alloc);
    muts.push(mutation)?;
    batches.push(Batch { version, muts })?;
    Ok(())
}

/// A link that gives the versions of a span.
fn link(from: u64, to: u64, limit: usize, batches: Seq<Batch>) -> LoadedLink {
    let chunk = LogChunk {
        begin: from,
        end: to,
        batches,
    };
    LoadedLink {
        from,
        to,
        limit,
        chunk,
    }
}

fn empty(alloc: Global) -> Loaded {
    Loaded {
        files: Seq::new(alloc),
        links: Seq::new(alloc),
    }
}

/// Whether a key has this value at a version.
fn has(alloc: Global, loaded: &Loaded, version: u64, key: &[u8], value: Option<&[u8]>) -> bool {
    let Ok(pairs) = whole(alloc, loaded, version) else {
        return false;
    };
    let found = found(pairs.as_slice(), key);
    match (found, value) {
        (None, None) => true,
        (Some(found), Some(value)) => is_same(found, value),
        _ => false,
    }
}

fn found<'a>(pairs: &'a [Pair], key: &[u8]) -> Option<&'a [u8]> {
    for pair in pairs {
        if is_same(pair.key.as_slice(), key) {
            return Some(pair.value.as_slice());
        }
    }
    None
}

#[test]
fn a_value_grows_to_the_limit_of_its_link(rt: HostRuntime) -> Result<(), Fail> {
    let alloc = rt.alloc();
    let mut loaded = empty(alloc);
    loaded
        .files
        .push(file(alloc, 10, (b"a", b"z"), (b"k", b"ab"))?)?;
    for (from, to, limit) in [(0, 15, 3), (15, 30, 4)] {
        let mut batches = Seq::new(alloc);
        push(alloc, &mut batches, from + 12, append(alloc, b"k", b"cd")?)?;
        loaded.links.push(link(from, to, limit, batches))?;
    }
    assert!(rt;
        has(alloc, &loaded, 20, b"k", Some(b"ab")),
        "past the first limit"
    );
    assert!(rt;
        has(alloc, &loaded, 27, b"k", Some(b"abcd")),
        "up to the second limit"
    );
    Ok(())
}
