//! Texts that are played, with what is said and what is left.

use super::{Case, Failing, LOG, LOG_FILE, MANIFEST, NONE, RANGE, RANGE_FILE, REPLAY, SEALED};

// A hand job whose snapshot and log give back the client's one commit.
pub const SMALLEST: &[u8] = b"block 256\n\
      pace 10\n\
      client 1 src\n\
      txn\n\
      set a 1\n\
      operator\n\
      open default src box\n\
      dump default \\e \\xff\n\
      cut default\n\
      seal default\n\
      schedule\n\
      op\n\
      begin 1\n\
      commit 1\n\
      op\n\
      op\n\
      op\n";

pub const SMALLEST_REPORT: &[u8] = b"op open -> done\n\
      begin 1 -> read 10\n\
      commit 1 -> commit 20\n\
      op dump -> placed box/kvranges/snapshot.20/0/range,20,1,256\n\
      op cut -> placed box/logs/0/log,10,21,2,256\n\
      op seal -> placed box/snapshots/snapshot,20,20,23,3\n\
      client 1 txn 1 try 1 read 10 commit 20\n\
      entry src 20 client 1 1\n\
      set a 1\n\
      job 1 default hand running\n\
      end 20\n";

// A commit at the dump's version, and one after it.
pub const ADDS: &[u8] = b"block 256\n\
      pace 10\n\
      client 1 src\n\
      txn\n\
      add n \\x01\n\
      txn\n\
      add n \\x01\n\
      operator\n\
      open default src box\n\
      dump default \\e \\xff\n\
      cut default\n\
      seal default\n\
      schedule\n\
      op\n\
      begin 1\n\
      commit 1\n\
      op\n\
      begin 1\n\
      commit 1\n\
      op\n\
      op\n";

pub const ADDS_REPORT: &[u8] = b"op open -> done\n\
      begin 1 -> read 10\n\
      commit 1 -> commit 20\n\
      op dump -> placed box/kvranges/snapshot.20/0/range,20,1,256\n\
      begin 1 -> read 20\n\
      commit 1 -> commit 30\n\
      op cut -> placed box/logs/0/log,10,31,2,256\n\
      op seal -> placed box/snapshots/snapshot,20,20,23,3\n\
      client 1 txn 1 try 1 read 10 commit 20\n\
      client 1 txn 2 try 1 read 20 commit 30\n\
      entry src 20 client 1 1\n\
      add n \\x01\n\
      entry src 30 client 1 2\n\
      add n \\x01\n\
      job 1 default hand running\n\
      end 30\n";

// Two pieces of differing versions, with a clear between them that touches both; a seal comes too
// early.
pub const CLEARED: &[u8] = b"block 256\n\
      pace 10\n\
      client 1 src\n\
      txn\n\
      set c 1\n\
      txn\n\
      clearrange b x\n\
      txn\n\
      set p 2\n\
      operator\n\
      open default src box a z\n\
      dump default a m\n\
      seal default\n\
      dump default m z\n\
      cut default\n\
      seal default\n\
      schedule\n\
      op\n\
      begin 1\n\
      commit 1\n\
      op\n\
      begin 1\n\
      commit 1\n\
      op\n\
      begin 1\n\
      commit 1\n\
      op\n\
      op\n\
      op\n";

pub const CLEARED_REPORT: &[u8] = b"op open -> done\n\
      begin 1 -> read 10\n\
      commit 1 -> commit 20\n\
      op dump -> placed box/kvranges/snapshot.20/0/range,20,1,256\n\
      begin 1 -> read 20\n\
      commit 1 -> commit 30\n\
      op seal -> refused untiled m\n\
      begin 1 -> read 30\n\
      commit 1 -> commit 40\n\
      op dump -> placed box/kvranges/snapshot.20/0/range,40,2,256\n\
      op cut -> placed box/logs/0/log,10,41,3,256\n\
      op seal -> placed box/snapshots/snapshot,20,40,48,4\n\
      client 1 txn 1 try 1 read 10 commit 20\n\
      client 1 txn 2 try 1 read 20 commit 30\n\
      client 1 txn 3 try 1 read 30 commit 40\n\
      entry src 20 client 1 1\n\
      set c 1\n\
      entry src 30 client 1 2\n\
      clear b x\n\
      entry src 40 client 1 3\n\
      set p 2\n\
      job 1 default hand running\n\
      end 40\n";

// The commit is one of the second database.
const TWO_JOBS: &[u8] = b"block 256\n\
      pace 10\n\
      client 1 dst\n\
      txn\n\
      set a vvvvvvvvvvvvvvvvvvvvvvvvvvvvvvvvvvvvvvvvvvvvvvvvvvvvvvvvvvvvvvvv\n\
      set b vvvvvvvvvvvvvvvvvvvvvvvvvvvvvvvvvvvvvvvvvvvvvvvvvvvvvvvvvvvvvvvv\n\
      set c vvvvvvvvvvvvvvvvvvvvvvvvvvvvvvvvvvvvvvvvvvvvvvvvvvvvvvvvvvvvvvvv\n\
      set d vvvvvvvvvvvvvvvvvvvvvvvvvvvvvvvvvvvvvvvvvvvvvvvvvvvvvvvvvvvvvvvv\n\
      operator\n\
      open one src box\n\
      open two dst cask\n\
      dump one \\e \\xff\n\
      dump two \\e \\xff\n\
      cut one\n\
      cut two\n\
      seal two\n\
      schedule\n\
      op\n\
      op\n\
      begin 1\n\
      commit 1\n\
      op\n\
      op\n\
      op\n\
      op\n\
      op\n";

const TWO_JOBS_REPORT: &[u8] = b"op open -> done\n\
      op open -> done\n\
      begin 1 -> read 20\n\
      commit 1 -> commit 30\n\
      op dump -> placed box/kvranges/snapshot.30/0/range,30,1,256\n\
      op dump -> placed cask/kvranges/snapshot.30/0/range,30,2,256\n\
      op cut -> placed box/logs/0/log,10,31,3,256\n\
      op cut -> placed cask/logs/0/log,20,31,4,256\n\
      op seal -> placed cask/snapshots/snapshot,30,30,416,5\n\
      client 1 txn 1 try 1 read 20 commit 30\n\
      entry dst 30 client 1 1\n\
      set a vvvvvvvvvvvvvvvvvvvvvvvvvvvvvvvvvvvvvvvvvvvvvvvvvvvvvvvvvvvvvvvv\n\
      set b vvvvvvvvvvvvvvvvvvvvvvvvvvvvvvvvvvvvvvvvvvvvvvvvvvvvvvvvvvvvvvvv\n\
      set c vvvvvvvvvvvvvvvvvvvvvvvvvvvvvvvvvvvvvvvvvvvvvvvvvvvvvvvvvvvvvvvv\n\
      set d vvvvvvvvvvvvvvvvvvvvvvvvvvvvvvvvvvvvvvvvvvvvvvvvvvvvvvvvvvvvvvvv\n\
      job 1 one hand running\n\
      job 2 two hand running\n\
      end 30\n";

// The range file of its four keys: the second block begins with the third key again.
const TWO_BLOCKS_FILE: &[u8] = b"\
      \xe9\x03\x00\x00\x00\x00\x00\x00\x00\x00\x00\x01a\x00\x00\x00\x40\
      vvvvvvvvvvvvvvvvvvvvvvvvvvvvvvvvvvvvvvvvvvvvvvvvvvvvvvvvvvvvvvvv\
      \x00\x00\x00\x01b\x00\x00\x00\x40\
      vvvvvvvvvvvvvvvvvvvvvvvvvvvvvvvvvvvvvvvvvvvvvvvvvvvvvvvvvvvvvvvv\
      \x00\x00\x00\x01c\x00\x00\x00\x40\
      vvvvvvvvvvvvvvvvvvvvvvvvvvvvvvvvvvvvvvvvvvvvvvvvvvvvvvvvvvvvvvvv\
      \xff\xff\xff\xff\xff\xff\xff\xff\xff\xff\xff\xff\xff\xff\xff\xff\xff\xff\xff\xff\xff\xff\xff\xff\xff\xff\xff\xff\xff\
      \xe9\x03\x00\x00\x00\x00\x00\x01c\x00\x00\x00\x01c\x00\x00\x00\x40\
      vvvvvvvvvvvvvvvvvvvvvvvvvvvvvvvvvvvvvvvvvvvvvvvvvvvvvvvvvvvvvvvv\
      \x00\x00\x00\x01d\x00\x00\x00\x40\
      vvvvvvvvvvvvvvvvvvvvvvvvvvvvvvvvvvvvvvvvvvvvvvvvvvvvvvvvvvvvvvvv\
      \x00\x00\x00\x01\xff";

// The log file of its batch, cut into parts of 64 bytes in two blocks.
const FIVE_PARTS_FILE: &[u8] = b"\
      \xd1\x07\x00\x00\x00\x00\x00\x0c\x00\x00\x00\x00\x00\x00\x00\x1e\x00\x00\x00\x00\x00\x00\x00\x40\xbd\x1b\x00\x00\x00\x00\x00\x00\x34\x01\x00\x00\x00\x00\x00\x00\x01\x00\x00\x00\x40\x00\x00\x00a\
      vvvvvvvvvvvvvvvvvvvvvvvvvvvvvvvvvvvvvvv\
      \x00\x00\x00\x0c\x00\x00\x00\x00\x00\x00\x00\x1e\x00\x00\x00\x01\x00\x00\x00\x40\
      vvvvvvvvvvvvvvvvvvvvvvvvv\
      \x00\x00\x00\x00\x01\x00\x00\x00\x40\x00\x00\x00b\
      vvvvvvvvvvvvvvvvvvvvvvvvvv\
      \x00\x00\x00\x0c\x00\x00\x00\x00\x00\x00\x00\x1e\x00\x00\x00\x02\x00\x00\x00\x40\
      vvvvvvvvvvvvvvvvvvvvvvvvvvvvvvvvvvvvvv\
      \x00\x00\x00\x00\x01\x00\x00\x00\x40\x00\x00\x00c\
      vvvvvvvvvvvvv\
      \xd1\x07\x00\x00\x00\x00\x00\x0c\x00\x00\x00\x00\x00\x00\x00\x1e\x00\x00\x00\x03\x00\x00\x00\x40\
      vvvvvvvvvvvvvvvvvvvvvvvvvvvvvvvvvvvvvvvvvvvvvvvvvvv\
      \x00\x00\x00\x00\x01\x00\x00\x00\x40\x00\x00\x00d\x00\x00\x00\x0c\x00\x00\x00\x00\x00\x00\x00\x1e\x00\x00\x00\x04\x00\x00\x00\x40\
      vvvvvvvvvvvvvvvvvvvvvvvvvvvvvvvvvvvvvvvvvvvvvvvvvvvvvvvvvvvvvvvv";

// Jobs of both databases, two adds at one key with a dump between them, and a clear across two
// pieces with a seal that comes too early; what is said and which files are left.
pub const JOBS: &[Case] = &[
    (
        &[],
        &[(REPLAY, SMALLEST, NONE, 0, SMALLEST_REPORT)],
        &[
            (RANGE, Some(RANGE_FILE)),
            (LOG, Some(LOG_FILE)),
            (SEALED, Some(MANIFEST)),
        ],
    ),
    (
        &[],
        &[(REPLAY, TWO_JOBS, NONE, 0, TWO_JOBS_REPORT)],
        &[
            (
                "box/kvranges/snapshot.30/0/range,30,1,256",
                Some(b"\xe9\x03\x00\x00\x00\x00\x00\x00\x00\x00\x00\x01\xff"),
            ),
            ("box/logs/0/log,10,31,3,256", Some(b"")),
            (
                "cask/kvranges/snapshot.30/0/range,30,2,256",
                Some(TWO_BLOCKS_FILE),
            ),
            ("cask/logs/0/log,20,31,4,256", Some(FIVE_PARTS_FILE)),
        ],
    ),
    (&[], &[(REPLAY, ADDS, NONE, 0, ADDS_REPORT)], &[]),
    (&[], &[(REPLAY, CLEARED, NONE, 0, CLEARED_REPORT)], &[]),
    // a script that is drained, and then nothing is left
    (
        &[],
        &[(REPLAY, DRAINED, NONE, 0, DRAINED_REPORT)],
        &[
            (RANGE, Some(RANGE_FILE)),
            (LOG, Some(LOG_FILE)),
            (SEALED, Some(MANIFEST)),
        ],
    ),
];

// The same commands, of which a drain makes the last three.
const DRAINED: &[u8] = b"block 256\n\
      pace 10\n\
      client 1 src\n\
      txn\n\
      set a 1\n\
      operator\n\
      open default src box\n\
      dump default \\e \\xff\n\
      cut default\n\
      seal default\n\
      schedule\n\
      op\n\
      begin 1\n\
      commit 1\n\
      drain\n\
      op\n\
      drain\n";

const DRAINED_REPORT: &[u8] = b"op open -> done\n\
      begin 1 -> read 10\n\
      commit 1 -> commit 20\n\
      drain -> steps 3\n\
      op -> none\n\
      drain -> steps 0\n\
      client 1 txn 1 try 1 read 10 commit 20\n\
      entry src 20 client 1 1\n\
      set a 1\n\
      job 1 default hand running\n\
      end 20\n";

// Four commands that call the store.
const FOUR_COMMANDS: &[u8] = b"block 256\n\
      pace 10\n\
      operator\n\
      open default src box\n\
      dump default \\e \\xff\n\
      cut default\n\
      seal default\n\
      schedule\n\
      op\n\
      op\n\
      op\n\
      op\n";

// Each call on the store that fails. The operator stays at the command.
pub const FAILING_CALLS: &[Case] = &[
    (
        &[],
        &[(
            REPLAY,
            FOUR_COMMANDS,
            Failing { store: 1, ..NONE },
            0,
            b"op open -> vault-fault\n\
          op open -> done\n\
          op dump -> placed box/kvranges/snapshot.10/0/range,10,1,256\n\
          op cut -> placed box/logs/0/log,10,11,2,256\n\
          job 1 default hand running\n\
          end 10\n",
        )],
        &[],
    ),
    (
        &[],
        &[(
            REPLAY,
            FOUR_COMMANDS,
            Failing { store: 2, ..NONE },
            0,
            b"op open -> done\n\
          op dump -> vault-fault\n\
          op dump -> placed box/kvranges/snapshot.10/0/range,10,1,256\n\
          op cut -> placed box/logs/0/log,10,11,2,256\n\
          job 1 default hand running\n\
          end 10\n",
        )],
        &[],
    ),
    (
        &[],
        &[(
            REPLAY,
            FOUR_COMMANDS,
            Failing { store: 3, ..NONE },
            0,
            b"op open -> done\n\
          op dump -> placed box/kvranges/snapshot.10/0/range,10,1,256\n\
          op cut -> vault-fault\n\
          op cut -> placed box/logs/0/log,10,11,2,256\n\
          job 1 default hand running\n\
          end 10\n",
        )],
        &[],
    ),
    (
        &[],
        &[(
            REPLAY,
            FOUR_COMMANDS,
            Failing { store: 4, ..NONE },
            5,
            b"op open -> done\n\
          op dump -> placed box/kvranges/snapshot.10/0/range,10,1,256\n\
          op cut -> placed box/logs/0/log,10,11,2,256\n\
          op seal -> vault-fault\n\
          job 1 default hand running\n\
          end 10\n\
          refused vault-fault\n",
        )],
        &[],
    ),
    // a drain ends at the step that is refused, and the next one goes on there
    (
        &[],
        &[(
            REPLAY,
            TWO_DRAINS,
            Failing { store: 3, ..NONE },
            0,
            b"drain -> vault-fault\n\
          drain -> steps 2\n\
          job 1 default hand running\n\
          end 10\n",
        )],
        &[],
    ),
];

// Four commands that call the store, drained twice.
const TWO_DRAINS: &[u8] = b"block 256\n\
      pace 10\n\
      operator\n\
      open default src box\n\
      dump default \\e \\xff\n\
      cut default\n\
      seal default\n\
      schedule\n\
      drain\n\
      drain\n";

// Agents without a task: each may claim while they aren't paused, and each may die. An agent that
// holds nothing extends nothing.
pub const AGENTS: &[Case] = &[(
    &[],
    &[(
        REPLAY,
        b"block 256\n\
      pace 10\n\
      agents 1\n\
      operator\n\
      pause\n\
      resume\n\
      schedule\n\
      claim 1 0\n\
      extend 1\n\
      die 1\n\
      op\n\
      claim 1 7\n\
      claim 0 0\n\
      tick 5\n\
      op\n\
      claim 0 7\n\
      die 0\n\
      op\n",
        NONE,
        0,
        b"claim 1 0 -> no-task\n\
      extend 1 -> none\n\
      die 1 -> dead\n\
      op pause -> done\n\
      claim 1 7 -> paused\n\
      claim 0 0 -> paused\n\
      tick 5 -> version 5\n\
      op resume -> done\n\
      claim 0 7 -> no-task\n\
      die 0 -> dead\n\
      op -> none\n\
      end 5\n",
    )],
    &[],
)];

// Commands that are refused.
pub const REFUSED: &[Case] = &[
    // no job has the tag
    (
        &[],
        &[(
            REPLAY,
            b"block 256\n\
          pace 10\n\
          operator\n\
          dump default \\e \\xff\n\
          status default\n\
          schedule\n\
          op\n\
          op\n\
          op\n",
            NONE,
            0,
            b"op dump -> refused no-job default\n\
          op status -> never-ran\n\
          op -> none\n\
          end 0\n",
        )],
        &[],
    ),
    // a job was started in the container
    (
        &[],
        &[(
            REPLAY,
            b"block 256\n\
          pace 10\n\
          operator\n\
          open one src box\n\
          open two src box\n\
          schedule\n\
          op\n\
          op\n",
            NONE,
            0,
            b"op open -> done\n\
          op open -> refused container-taken one\n\
          job 1 one hand running\n\
          end 10\n",
        )],
        &[],
    ),
    // nothing was dumped
    (
        &[],
        &[(
            REPLAY,
            b"block 256\n\
          pace 10\n\
          operator\n\
          open one src box\n\
          seal one\n\
          schedule\n\
          op\n\
          op\n",
            NONE,
            0,
            b"op open -> done\n\
          op seal -> refused untiled \\e\n\
          job 1 one hand running\n\
          end 10\n",
        )],
        &[],
    ),
    // two jobs, of which one is ended
    (
        &[],
        &[(
            REPLAY,
            b"block 256\n\
          pace 10\n\
          operator\n\
          open one src box\n\
          open two dst cask\n\
          dump two \\e \\xff\n\
          abort one\n\
          status one\n\
          schedule\n\
          op\n\
          op\n\
          op\n\
          op\n\
          op\n",
            NONE,
            0,
            b"op open -> done\n\
          op open -> done\n\
          op dump -> placed cask/kvranges/snapshot.20/0/range,20,1,256\n\
          op abort -> done\n\
          op status -> aborted\n\
          job 1 one hand aborted\n\
          job 2 two hand running\n\
          end 20\n",
        )],
        &[],
    ),
    // a file stands in the container
    (
        &[&[("box/x", Some(b"y"))]],
        &[(
            REPLAY,
            b"block 256\n\
        pace 10\n\
        operator\n\
        open default src box\n\
        schedule\n\
        op\n",
            NONE,
            0,
            b"op open -> refused container-in-use x\nend 0\n",
        )],
        &[("box/x", Some(b"y"))],
    ),
    // a job with the tag goes on, and one has ended
    (
        &[],
        &[(
            REPLAY,
            b"block 256\n\
        pace 10\n\
        operator\n\
        open one src box\n\
        open one dst cask\n\
        abort one\n\
        cut one\n\
        abort one\n\
        schedule\n\
        op\n\
        op\n\
        op\n\
        op\n\
        op\n",
            NONE,
            0,
            b"op open -> done\n\
        op open -> refused tag-busy one\n\
        op abort -> done\n\
        op cut -> refused wrong-state aborted\n\
        op abort -> refused wrong-state aborted\n\
        job 1 one hand aborted\n\
        end 10\n",
        )],
        &[],
    ),
];

// A source that fails, a sink that fails, texts that are refused, and texts that aren't played yet.
pub const ENDINGS: &[Case] = &[
    (
        &[],
        &[(
            REPLAY,
            SMALLEST,
            Failing { source: 1, ..NONE },
            3,
            b"refused source-fault\n",
        )],
        &[],
    ),
    (
        &[],
        &[(
            REPLAY,
            SMALLEST,
            Failing { source: 2, ..NONE },
            3,
            b"refused source-fault\n",
        )],
        &[],
    ),
    (
        &[],
        &[(REPLAY, SMALLEST, Failing { sink: 1, ..NONE }, 4, b"")],
        &[],
    ),
    (&[], &[(REPLAY, b"", NONE, 0, b"end 0\n")], &[]),
    // a bad line, and one that isn't played yet: the first is named, though it comes later
    (
        &[],
        &[
            (REPLAY, b"sett a", NONE, 2, b"refused text 1 word\n"),
            (
                REPLAY,
                b"operator\nwait a\ntick\n",
                NONE,
                2,
                b"refused text 3 place\n",
            ),
            (
                REPLAY,
                b"operator\nstatus a\nwait a\n",
                NONE,
                15,
                b"refused not-built 3\n",
            ),
            (
                REPLAY,
                b"schedule\nop\ntake 0\n",
                NONE,
                15,
                b"refused not-built 3\n",
            ),
        ],
        &[],
    ),
];
