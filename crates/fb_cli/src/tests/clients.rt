//! What clients read, and what becomes of their tries.

use super::{Case, NONE, REPLAY};

// Two clients read a key and then set it: the second one's first try conflicts.
const CONFLICT: &[u8] = b"pace 10\n\
      client 1 src\n\
      txn\n\
      get k\n\
      set k 1\n\
      client 2 src\n\
      txn\n\
      get k\n\
      set k 2\n\
      schedule\n\
      begin 1\n\
      begin 2\n\
      commit 1\n\
      commit 2\n\
      begin 2\n\
      commit 2\n";

const CONFLICT_REPORT: &[u8] = b"begin 1 -> read 0\n\
      begin 2 -> read 0\n\
      commit 1 -> commit 10\n\
      commit 2 -> 1020 10\n\
      begin 2 -> read 10\n\
      commit 2 -> commit 20\n\
      client 1 txn 1 try 1 read 0 commit 10\n\
      get k\n\
      client 2 txn 1 try 1 read 0 1020 10\n\
      client 2 txn 1 try 2 read 10 commit 20\n\
      get k 1\n\
      entry src 10 client 1 1\n\
      set k 1\n\
      entry src 20 client 2 1\n\
      set k 2\n\
      end 20\n";

// A snapshot read of a key that is set meanwhile doesn't conflict, a scan over it does, by a clear
// across its range too. A transaction without writes never conflicts.
const SCANS: &[u8] = b"pace 10\n\
      tries 2\n\
      client 1 src\n\
      txn\n\
      sget k\n\
      set x 1\n\
      txn\n\
      scan a m 2\n\
      set x 2\n\
      txn\n\
      scan j z 1\n\
      client 2 src\n\
      txn\n\
      set k 2\n\
      set l 3\n\
      txn\n\
      clearrange b e\n\
      txn\n\
      set k 4\n\
      client 3 dst\n\
      txn\n\
      get k\n\
      schedule\n\
      begin 1\n\
      begin 2\n\
      commit 2\n\
      commit 1\n\
      begin 1\n\
      begin 2\n\
      commit 2\n\
      commit 1\n\
      begin 1\n\
      begin 2\n\
      commit 2\n\
      commit 1\n\
      begin 1\n\
      begin 3\n\
      commit 1\n\
      commit 3\n\
      begin 1\n\
      commit 1\n";

const SCANS_REPORT: &[u8] = b"begin 1 -> read 0\n\
      begin 2 -> read 0\n\
      commit 2 -> commit 10\n\
      commit 1 -> commit 20\n\
      begin 1 -> read 20\n\
      begin 2 -> read 20\n\
      commit 2 -> commit 30\n\
      commit 1 -> 1020 30\n\
      begin 1 -> read 30\n\
      begin 2 -> read 30\n\
      commit 2 -> commit 40\n\
      commit 1 -> 1020 40\n\
      begin 1 -> read 40\n\
      begin 3 -> read 40\n\
      commit 1 -> readonly\n\
      commit 3 -> readonly\n\
      begin 1 -> none\n\
      commit 1 -> none\n\
      client 1 txn 1 try 1 read 0 commit 20\n\
      sget k\n\
      client 1 txn 2 try 1 read 20 1020 30\n\
      client 1 txn 2 try 2 read 30 1020 40\n\
      client 1 txn 3 try 1 read 40 readonly\n\
      scan j z\n\
      got k 4\n\
      client 2 txn 1 try 1 read 0 commit 10\n\
      client 2 txn 2 try 1 read 20 commit 30\n\
      client 2 txn 3 try 1 read 30 commit 40\n\
      client 3 txn 1 try 1 read 40 readonly\n\
      get k\n\
      entry src 10 client 2 1\n\
      set k 2\n\
      set l 3\n\
      entry src 20 client 1 1\n\
      set x 1\n\
      entry src 30 client 2 2\n\
      clear b e\n\
      entry src 40 client 2 3\n\
      set k 4\n\
      end 40\n";

// A read version that is 5,000,001 versions behind is too old, one that is 5,000,000 behind isn't.
const OLD: &[u8] = b"pace 10\n\
      tries 1\n\
      client 1 src\n\
      txn\n\
      set a 1\n\
      txn\n\
      set a 2\n\
      schedule\n\
      begin 1\n\
      tick 5000001\n\
      commit 1\n\
      begin 1\n\
      tick 5000000\n\
      commit 1\n";

const OLD_REPORT: &[u8] = b"begin 1 -> read 0\n\
      tick 5000001 -> version 5000001\n\
      commit 1 -> 1007 0 1\n\
      begin 1 -> read 5000001\n\
      tick 5000000 -> version 10000001\n\
      commit 1 -> commit 10000011\n\
      client 1 txn 1 try 1 read 0 1007 0 1\n\
      client 1 txn 2 try 1 read 5000001 commit 10000011\n\
      entry src 10000011 client 1 2\n\
      set a 2\n\
      end 10000011\n";

// There is no version past 2^62.
const LAST: &[u8] = b"client 1 dst\n\
      txn\n\
      set a 1\n\
      schedule\n\
      tick 4611686018427387904\n\
      begin 1\n\
      commit 1\n\
      tick 1\n";

const LAST_REPORT: &[u8] = b"tick 4611686018427387904 -> version 4611686018427387904\n\
      begin 1 -> read 4611686018427387904\n\
      commit 1 -> versions-spent 4611686018427387904\n\
      tick 1 -> versions-spent 4611686018427387904\n\
      client 1 txn 1 try 1 read 4611686018427387904 versions-spent 4611686018427387904\n\
      end 4611686018427387904\n\
      refused versions-spent 4611686018427387904\n";

/// Texts of clients.
pub const CLIENTS: &[Case] = &[(
    &[],
    &[
        (REPLAY, CONFLICT, NONE, 0, CONFLICT_REPORT),
        (REPLAY, SCANS, NONE, 0, SCANS_REPORT),
        (REPLAY, OLD, NONE, 0, OLD_REPORT),
        (REPLAY, LAST, NONE, 10, LAST_REPORT),
    ],
    &[],
)];
