//! Expires of containers that a run left, of damaged ones, and with failing calls of the store.

use super::replays::{SMALLEST, SMALLEST_REPORT};
use super::restores::{RESTORE_20, WHOLE};
use super::{Case, Failing, LOG, NONE, RANGE, RANGE_FILE, REPLAY, SEALED};

const UNRELIABLE: &str = "box/properties/unreliable_end";

const EXPIRED: &str = "box/properties/expired_end";

const EXPIRE_21: &[&str] = &["expire", "box", "21"];

const FORCED: &[&str] = &["expire", "--force", "box", "21"];

const VAULT_FAULT: &[u8] = b"refused vault-fault\n";

const DELETED_3: &[u8] = b"deleted 3\n";

pub const EXPIRES: &[Case] = &[
    (
        &[],
        &[
            (REPLAY, SMALLEST, NONE, 0, SMALLEST_REPORT),
            (EXPIRE_21, b"", NONE, 8, b"refused cannot-expire 21 none\n"),
            (
                &["expire", "box", "21", "--restorable-after=20"],
                b"",
                NONE,
                8,
                b"refused cannot-expire 20 none\n",
            ),
            (
                &["expire", "box", "20", "--restorable-after=21"],
                b"",
                NONE,
                8,
                b"refused cannot-expire 21 20\n",
            ),
            (&["expire", "box", "20"], b"", NONE, 0, b"deleted 0\n"),
            (RESTORE_20, b"", NONE, 0, b"version 20\npair a 1\npairs 1\n"),
            (
                &["expire", "--restorable-after=9", "box", "--force", "21"],
                b"",
                NONE,
                0,
                DELETED_3,
            ),
            (
                RESTORE_20,
                b"",
                NONE,
                6,
                b"refused not-restorable none none\n",
            ),
        ],
        &[
            (RANGE, None),
            (LOG, None),
            (SEALED, None),
            (UNRELIABLE, Some(b"21")),
            (EXPIRED, Some(b"21")),
        ],
    ),
    (
        &[WHOLE],
        &[(
            &["expire", "none", "21"],
            b"",
            NONE,
            13,
            b"refused no-container\n",
        )],
        WHOLE,
    ),
    (
        &[WHOLE, &[(EXPIRED, Some(b"-1"))]],
        &[(
            FORCED,
            b"",
            NONE,
            7,
            b"refused damaged properties/expired_end property\n",
        )],
        &[(RANGE, Some(RANGE_FILE)), (UNRELIABLE, None)],
    ),
    // The list, the raise, each deletion and the last put fail in turn; each time it goes on.
    (
        &[WHOLE],
        &[
            (FORCED, b"", Failing { store: 1, ..NONE }, 5, VAULT_FAULT),
            (FORCED, b"", Failing { store: 2, ..NONE }, 5, VAULT_FAULT),
            (FORCED, b"", Failing { store: 3, ..NONE }, 5, VAULT_FAULT),
            (FORCED, b"", Failing { store: 5, ..NONE }, 5, VAULT_FAULT),
            (FORCED, b"", Failing { store: 6, ..NONE }, 5, VAULT_FAULT),
            (FORCED, b"", NONE, 0, b"deleted 0\n"),
        ],
        &[
            (RANGE, None),
            (LOG, None),
            (SEALED, None),
            (UNRELIABLE, Some(b"21")),
            (EXPIRED, Some(b"21")),
        ],
    ),
];
