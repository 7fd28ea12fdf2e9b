//! Words in and out of form, brief reports, and lists of containers.

use super::replays::SMALLEST;
use super::{Case, Failing, LOG, LOG_FILE, NONE};

const USAGE: &[u8] = b"refused usage\n";

const NOT_BUILT: &[u8] = b"refused not-built 0\n";

// What the smallest job's report is in brief.
const BRIEF_REPORT: &[u8] = b"op open -> done\n\
      begin 1 -> read 10\n\
      commit 1 -> commit 20\n\
      op dump -> placed box/kvranges/snapshot.20/0/range,20,1,256\n\
      op cut -> placed box/logs/0/log,10,21,2,256\n\
      op seal -> placed box/snapshots/snapshot,20,20,23,3\n\
      job 1 default hand running\n\
      end 20\n";

// Words of another form read nothing.
pub const MISUSED: &[Case] = &[(
    &[],
    &[
        (&[], SMALLEST, NONE, 1, USAGE),
        (&["mend", "box"], SMALLEST, NONE, 1, USAGE),
        (&["--brief", "replay"], SMALLEST, NONE, 1, USAGE),
        (&["replay", "--brief", "--brief"], SMALLEST, NONE, 1, USAGE),
        (&["replay", "--brief=1"], SMALLEST, NONE, 1, USAGE),
        (&["replay", "--"], SMALLEST, NONE, 1, USAGE),
        (&["replay", "box"], SMALLEST, NONE, 1, USAGE),
        (&["run", "--force"], b"", NONE, 1, USAGE),
        (&["list", "box"], b"", NONE, 1, USAGE),
        (&["list", "--brief"], b"", NONE, 1, USAGE),
        (&["describe"], b"", NONE, 1, USAGE),
        (&["describe", "-x"], b"", NONE, 1, USAGE),
        (&["describe", "box", "-x"], b"", NONE, 1, USAGE),
        (&["describe", "a/b"], b"", NONE, 1, USAGE),
        (&["restore", "box"], b"", NONE, 1, USAGE),
        (&["restore", "box", "01"], b"", NONE, 1, USAGE),
        (
            &["restore", "box", "4611686018427387905"],
            b"",
            NONE,
            1,
            USAGE,
        ),
        (&["restore", "box", "1", "2"], b"", NONE, 1, USAGE),
        (&["expire", "box"], b"", NONE, 1, USAGE),
        (
            &["expire", "box", "1", "--force", "--force"],
            b"",
            NONE,
            1,
            USAGE,
        ),
        (
            &["expire", "box", "1", "--restorable-after", "2"],
            b"",
            NONE,
            1,
            USAGE,
        ),
        (
            &["expire", "box", "1", "--restorable-after=02"],
            b"",
            NONE,
            1,
            USAGE,
        ),
        (&["generate", "1", "0", "1"], b"", NONE, 1, USAGE),
        (&["generate", "1", "65", "1"], b"", NONE, 1, USAGE),
        (&["generate", "1", "1", "100001"], b"", NONE, 1, USAGE),
        (&["generate", "1", "3", "100000"], b"", NONE, 1, USAGE),
        (
            &["generate", "1", "1", "1", "--text", "--text"],
            b"",
            NONE,
            1,
            USAGE,
        ),
    ],
    &[],
)];

pub const LATER: &[Case] = &[(
    &[],
    &[
        (&["run"], SMALLEST, NONE, 15, NOT_BUILT),
        (&["run", "--brief"], SMALLEST, NONE, 15, NOT_BUILT),
        (
            &["generate", "0", "2", "100000", "--text"],
            b"",
            NONE,
            15,
            NOT_BUILT,
        ),
        (&["generate", "7", "64", "0"], b"", NONE, 15, NOT_BUILT),
    ],
    &[],
)];

pub const BRIEF: &[Case] = &[(
    &[],
    &[(&["replay", "--brief"], SMALLEST, NONE, 0, BRIEF_REPORT)],
    &[(LOG, Some(LOG_FILE))],
)];

// A folder that has no container's name isn't listed, nor is a file outside of folders.
pub const LISTS: &[Case] = &[
    (&[], &[(&["list"], b"", NONE, 0, b"")], &[]),
    (
        &[&[
            ("box/x", Some(b"")),
            ("box/y", Some(b"")),
            ("Crate/logs/x", Some(b"")),
            ("-box/x", Some(b"")),
            ("a.b/x", Some(b"")),
            ("lone", Some(b"")),
        ]],
        &[
            (
                &["list"],
                b"",
                Failing { store: 1, ..NONE },
                5,
                b"refused vault-fault\n",
            ),
            (&["list"], b"", NONE, 0, b"container Crate\ncontainer box\n"),
        ],
        &[("lone", Some(b"")), ("a.b/x", Some(b""))],
    ),
];
