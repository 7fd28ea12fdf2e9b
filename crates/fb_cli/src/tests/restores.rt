//! Restores and descriptions of containers that a run left, of damaged ones, and of changed ones.

use super::replays::{ADDS, ADDS_REPORT, CLEARED, CLEARED_REPORT, SMALLEST, SMALLEST_REPORT};
use super::{
    Call, Case, Change, Failing, LOG, LOG_FILE, MANIFEST, NONE, RANGE, RANGE_FILE, REPLAY, SEALED,
};

pub const RESTORE_20: &[&str] = &["restore", "box", "20"];

const DESCRIBE: &[&str] = &["describe", "box"];

// Before the second snapshot's end the first is taken, and the log from its begin on.
const TWO_SNAPSHOTS: &[u8] = b"block 256\n\
    pace 10\n\
    client 1 src\n\
    txn\n\
    set a 1\n\
    txn\n\
    append a 2\n\
    txn\n\
    set b 3\n\
    operator\n\
    open default src box\n\
    dump default \\e \\xff\n\
    seal default\n\
    cut default\n\
    dump default \\e \\xff\n\
    seal default\n\
    cut default\n\
    schedule\n\
    op\n\
    begin 1\n\
    commit 1\n\
    op\n\
    op\n\
    begin 1\n\
    commit 1\n\
    op\n\
    op\n\
    op\n\
    begin 1\n\
    commit 1\n\
    op\n";

const TWO_SNAPSHOTS_REPORT: &[u8] = b"op open -> done\n\
      begin 1 -> read 10\n\
      commit 1 -> commit 20\n\
      op dump -> placed box/kvranges/snapshot.20/0/range,20,1,256\n\
      op seal -> placed box/snapshots/snapshot,20,20,23,2\n\
      begin 1 -> read 20\n\
      commit 1 -> commit 30\n\
      op cut -> placed box/logs/0/log,10,31,3,256\n\
      op dump -> placed box/kvranges/snapshot.30/0/range,30,4,256\n\
      op seal -> placed box/snapshots/snapshot,30,30,24,5\n\
      begin 1 -> read 30\n\
      commit 1 -> commit 40\n\
      op cut -> placed box/logs/0/log,31,41,6,256\n\
      client 1 txn 1 try 1 read 10 commit 20\n\
      client 1 txn 2 try 1 read 20 commit 30\n\
      client 1 txn 3 try 1 read 30 commit 40\n\
      entry src 20 client 1 1\n\
      set a 1\n\
      entry src 30 client 1 2\n\
      append a 2\n\
      entry src 40 client 1 3\n\
      set b 3\n\
      job 1 default hand running\n\
      end 40\n";

// The calls that play a text.
const PLAY_SMALLEST: Call = (REPLAY, SMALLEST, NONE, 0, SMALLEST_REPORT);

const PLAY_ADDS: Call = (REPLAY, ADDS, NONE, 0, ADDS_REPORT);

const PLAY_CLEARED: Call = (REPLAY, CLEARED, NONE, 0, CLEARED_REPORT);

const PLAY_TWO_SNAPSHOTS: Call = (REPLAY, TWO_SNAPSHOTS, NONE, 0, TWO_SNAPSHOTS_REPORT);

// Restores of what a text leaves. The smallest job advertises one version. A mutation at a dump's version,
// which stands in the log too, is made once, and a clear across two pieces is made on the older one.
pub const RESTORES: &[Case] = &[
    (
        &[],
        &[
            PLAY_SMALLEST,
            (
                &["restore", "box", "20"],
                b"",
                NONE,
                0,
                b"version 20\npair a 1\npairs 1\n",
            ),
            (
                &["restore", "box", "21"],
                b"",
                NONE,
                6,
                b"refused not-restorable 20 20\n",
            ),
            (
                &["restore", "box", "19"],
                b"",
                NONE,
                6,
                b"refused not-restorable 20 20\n",
            ),
        ],
        &[],
    ),
    (
        &[],
        &[
            PLAY_ADDS,
            (
                &["restore", "box", "20"],
                b"",
                NONE,
                0,
                b"version 20\npair n \\x01\npairs 1\n",
            ),
            (
                &["restore", "box", "30"],
                b"",
                NONE,
                0,
                b"version 30\npair n \\x02\npairs 1\n",
            ),
            (
                &["restore", "box", "31"],
                b"",
                NONE,
                6,
                b"refused not-restorable 20 30\n",
            ),
        ],
        &[],
    ),
    (
        &[],
        &[
            PLAY_CLEARED,
            (
                &["restore", "box", "40"],
                b"",
                NONE,
                0,
                b"version 40\npair p 2\npairs 1\n",
            ),
            (
                &["restore", "box", "39"],
                b"",
                NONE,
                6,
                b"refused not-restorable 40 40\n",
            ),
        ],
        &[],
    ),
    (
        &[],
        &[
            PLAY_TWO_SNAPSHOTS,
            (
                &["restore", "box", "20"],
                b"",
                NONE,
                0,
                b"version 20\npair a 1\npairs 1\n",
            ),
            (
                &["restore", "box", "29"],
                b"",
                NONE,
                0,
                b"version 29\npair a 1\npairs 1\n",
            ),
            (
                &["restore", "box", "30"],
                b"",
                NONE,
                0,
                b"version 30\npair a 12\npairs 1\n",
            ),
            (
                &["restore", "box", "40"],
                b"",
                NONE,
                0,
                b"version 40\npair a 12\npair b 3\npairs 2\n",
            ),
        ],
        &[],
    ),
];

// The files of the smallest whole path.
pub const WHOLE: &[Change] = &[
    (RANGE, Some(RANGE_FILE)),
    (LOG, Some(LOG_FILE)),
    (SEALED, Some(MANIFEST)),
];

// The range file from `a` to `b` without pairs.
const INNER: &[u8] = b"\xe9\x03\x00\x00\x00\x00\x00\x01a\x00\x00\x00\x01b";

const SECOND: &str = "box/kvranges/snapshot.20/0/range,20,2,256";

// The manifest of two range files.
const BOTH_SEALED: Change = (
    "box/snapshots/snapshot,20,20,46,3",
    Some(
        b"{\"beginVersion\":20,\"endVersion\":20,\"files\":[\"kvranges/snapshot.20/0/range,20,1,256\",\"kvranges/snapshot.20/0/range,20,2,256\"],\"format\":1,\"totalBytes\":46}",
    ),
);

// A log that overlaps with the one of the smallest whole path, and ends later.
const LONGER: Change = (
    "box/logs/0/log,15,31,4,256",
    Some(
        b"\xd1\x07\x00\x00\x00\x00\x00\x0c\x00\x00\x00\x00\x00\x00\x00\x14\x00\x00\x00\x00\x00\x00\x00\x1a\xbd\x1b\x00\x00\x00\x00\x00\x00\x0e\x00\x00\x00\x00\x00\x00\x00\x01\x00\x00\x00\x01\x00\x00\x00a9\x00\x00\x00\x0c\x00\x00\x00\x00\x00\x00\x00\x19\x00\x00\x00\x00\x00\x00\x00\x1a\xbd\x1b\x00\x00\x00\x00\x00\x00\x0e\x00\x00\x00\x00\x00\x00\x00\x01\x00\x00\x00\x01\x00\x00\x00a2\x00\x00\x00\x0c\x00\x00\x00\x00\x00\x00\x00\x1a\x00\x00\x00\x00\x00\x00\x00\x1a\xbd\x1b\x00\x00\x00\x00\x00\x00\x0e\x00\x00\x00\x00\x00\x00\x00\x01\x00\x00\x00\x01\x00\x00\x00a3",
    ),
);

// Changes of the smallest whole path, the version that is restored, the status, and what is said. A
// missing file is named where it is needed: the log isn't for the manifest's own version, and without
// its manifest the container advertises nothing. Of two range files that overlap the later one by begin
// keys is named, of equal begins the manifest's later. Of two logs that overlap the longer is taken.
pub const CHANGES: &[Case] = &[
    (
        &[WHOLE, &[(RANGE, None)]],
        &[(
            &["restore", "box", "20"],
            b"",
            NONE,
            14,
            b"refused missing kvranges/snapshot.20/0/range,20,1,256\n",
        )],
        &[],
    ),
    (
        &[WHOLE, &[(LOG, None)]],
        &[(
            &["restore", "box", "20"],
            b"",
            NONE,
            0,
            b"version 20\npair a 1\npairs 1\n",
        )],
        &[],
    ),
    (
        &[WHOLE, &[(SEALED, None)]],
        &[(
            &["restore", "box", "20"],
            b"",
            NONE,
            6,
            b"refused not-restorable none none\n",
        )],
        &[],
    ),
    (
        &[WHOLE, &[(RANGE, None), (LOG, None), (SEALED, None)]],
        &[(
            &["restore", "box", "20"],
            b"",
            NONE,
            13,
            b"refused no-container\n",
        )],
        &[],
    ),
    (
        &[WHOLE, &[(SECOND, Some(INNER)), (SEALED, None), BOTH_SEALED]],
        &[(
            &["restore", "box", "20"],
            b"",
            NONE,
            7,
            b"refused damaged kvranges/snapshot.20/0/range,20,2,256 overlap a\n",
        )],
        &[],
    ),
    (
        &[
            WHOLE,
            &[
                (RANGE, Some(INNER)),
                (SECOND, Some(RANGE_FILE)),
                (SEALED, None),
                BOTH_SEALED,
            ],
        ],
        &[(
            &["restore", "box", "20"],
            b"",
            NONE,
            7,
            b"refused damaged kvranges/snapshot.20/0/range,20,1,256 overlap a\n",
        )],
        &[],
    ),
    (
        &[
            WHOLE,
            &[(SECOND, Some(RANGE_FILE)), (SEALED, None), BOTH_SEALED],
        ],
        &[(
            &["restore", "box", "20"],
            b"",
            NONE,
            7,
            b"refused damaged kvranges/snapshot.20/0/range,20,2,256 overlap \\e\n",
        )],
        &[],
    ),
    (
        &[WHOLE, &[LONGER]],
        &[(
            &["restore", "box", "25"],
            b"",
            NONE,
            0,
            b"version 25\npair a 2\npairs 1\n",
        )],
        &[],
    ),
];

// What a description of the changed container comes to.
pub const DESCRIPTIONS: &[Case] = &[
    (
        &[WHOLE],
        &[(
            DESCRIBE,
            b"",
            NONE,
            0,
            b"container box\n\
          snapshot 20 20 23 20\n\
          MinLogBeginVersion 10\n\
          ContiguousLogEndVersion 21\n\
          MaxLogEndVersion 21\n\
          MinRestorableVersion 20\n\
          MaxRestorableVersion 20\n\
          UnreliableEndVersion none\n\
          ExpiredEndVersion none\n",
        )],
        &[],
    ),
    (
        &[
            WHOLE,
            &[
                ("box/properties/unreliable_end", Some(b"21")),
                ("box/logs/0/log,30,41,4,256", Some(b"")),
            ],
        ],
        &[(
            DESCRIBE,
            b"",
            NONE,
            0,
            b"container box\n\
          snapshot 20 20 23 none\n\
          MinLogBeginVersion 10\n\
          ContiguousLogEndVersion 21\n\
          MaxLogEndVersion 41\n\
          MinRestorableVersion none\n\
          MaxRestorableVersion none\n\
          UnreliableEndVersion 21\n\
          ExpiredEndVersion none\n",
        )],
        &[],
    ),
    (
        &[WHOLE, &[("box/properties/unreliable_end", Some(b"04"))]],
        &[(
            DESCRIBE,
            b"",
            NONE,
            7,
            b"refused damaged properties/unreliable_end property\n",
        )],
        &[],
    ),
    (
        &[WHOLE, &[(RANGE, None), (LOG, None), (SEALED, None)]],
        &[(DESCRIBE, b"", NONE, 13, b"refused no-container\n")],
        &[],
    ),
];

// A failing call of the store is a refusal, and leaves the files.
pub const STORE_FAULTS: &[Case] = &[
    (
        &[WHOLE],
        &[(
            RESTORE_20,
            b"",
            Failing { store: 1, ..NONE },
            5,
            b"refused vault-fault\n",
        )],
        &[
            (RANGE, Some(RANGE_FILE)),
            (LOG, Some(LOG_FILE)),
            (SEALED, Some(MANIFEST)),
        ],
    ),
    (
        &[WHOLE],
        &[(
            RESTORE_20,
            b"",
            Failing { store: 2, ..NONE },
            5,
            b"refused vault-fault\n",
        )],
        &[
            (RANGE, Some(RANGE_FILE)),
            (LOG, Some(LOG_FILE)),
            (SEALED, Some(MANIFEST)),
        ],
    ),
    (
        &[WHOLE],
        &[(
            RESTORE_20,
            b"",
            Failing { store: 3, ..NONE },
            5,
            b"refused vault-fault\n",
        )],
        &[
            (RANGE, Some(RANGE_FILE)),
            (LOG, Some(LOG_FILE)),
            (SEALED, Some(MANIFEST)),
        ],
    ),
    (
        &[WHOLE],
        &[(
            RESTORE_20,
            b"",
            Failing { store: 4, ..NONE },
            5,
            b"refused vault-fault\n",
        )],
        &[
            (RANGE, Some(RANGE_FILE)),
            (LOG, Some(LOG_FILE)),
            (SEALED, Some(MANIFEST)),
        ],
    ),
];
