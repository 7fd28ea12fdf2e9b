ghost use Rattle.std.specs.Prelude.{◌≡◌};
ghost use Rattle.workload_text.specs.Kinds as spec;

use crate::Command;
use fb_bytes::is_same;

/// Which command of the operator it is, whatever its tag and the rest of it.
#[derive(Clone, Copy, Debug, PartialEq, Eq)]
pub enum CommandKind {
    Open,
    Dump,
    Cut,
    Seal,
    Backup,
    Snapshot,
    Discontinue,
    Abort,
    Pause,
    Resume,
    Wait,
    Status,
    Expire,
    Restore,
    Dr,
    Switch,
    Lag,
}

impl CommandKind {
    /// The kind of a workload's command.
    pub fn of(command: &Command) -> CommandKind
        ensures { result ≡ spec.kind_of command.now }
    {
        match command {
            Command::Open { .. } => CommandKind::Open,
            Command::Dump { .. } => CommandKind::Dump,
            Command::Cut { .. } => CommandKind::Cut,
            Command::Seal { .. } => CommandKind::Seal,
            Command::Backup { .. } => CommandKind::Backup,
            Command::Snapshot { .. } => CommandKind::Snapshot,
            Command::Discontinue { .. } => CommandKind::Discontinue,
            Command::Abort { .. } => CommandKind::Abort,
            Command::Pause => CommandKind::Pause,
            Command::Resume => CommandKind::Resume,
            Command::Wait { .. } => CommandKind::Wait,
            Command::Status { .. } => CommandKind::Status,
            Command::Expire { .. } => CommandKind::Expire,
            Command::Restore { .. } => CommandKind::Restore,
            Command::Dr { .. } => CommandKind::Dr,
            Command::Switch { .. } => CommandKind::Switch,
            Command::Lag { .. } => CommandKind::Lag,
        }
    }

    /// The word that begins the command's line in a workload.
    pub fn word(self) -> &'static str
        ensures { result.now ≡ spec.command_word self }
    {
        match self {
            CommandKind::Open => "open",
            CommandKind::Dump => "dump",
            CommandKind::Cut => "cut",
            CommandKind::Seal => "seal",
            CommandKind::Backup => "backup",
            CommandKind::Snapshot => "snapshot",
            CommandKind::Discontinue => "discontinue",
            CommandKind::Abort => "abort",
            CommandKind::Pause => "pause",
            CommandKind::Resume => "resume",
            CommandKind::Wait => "wait",
            CommandKind::Status => "status",
            CommandKind::Expire => "expire",
            CommandKind::Restore => "restore",
            CommandKind::Dr => "dr",
            CommandKind::Switch => "switch",
            CommandKind::Lag => "lag",
        }
    }
}

/// The command of a word, if the word is one's.
pub fn command_of_word(word: &[u8]) -> Option<CommandKind>
    ensures { result ≡ spec.command_of_word word.now }
{
    if is_same(b"open", word) {
        return Some(CommandKind::Open);
    }
    if is_same(b"dump", word) {
        return Some(CommandKind::Dump);
    }
    if is_same(b"cut", word) {
        return Some(CommandKind::Cut);
    }
    if is_same(b"seal", word) {
        return Some(CommandKind::Seal);
    }
    if is_same(b"backup", word) {
        return Some(CommandKind::Backup);
    }
    if is_same(b"snapshot", word) {
        return Some(CommandKind::Snapshot);
    }
    if is_same(b"discontinue", word) {
        return Some(CommandKind::Discontinue);
    }
    if is_same(b"abort", word) {
        return Some(CommandKind::Abort);
    }
    if is_same(b"pause", word) {
        return Some(CommandKind::Pause);
    }
    if is_same(b"resume", word) {
        return Some(CommandKind::Resume);
    }
    if is_same(b"wait", word) {
        return Some(CommandKind::Wait);
    }
    if is_same(b"status", word) {
        return Some(CommandKind::Status);
    }
    if is_same(b"expire", word) {
        return Some(CommandKind::Expire);
    }
    if is_same(b"restore", word) {
        return Some(CommandKind::Restore);
    }
    if is_same(b"dr", word) {
        return Some(CommandKind::Dr);
    }
    if is_same(b"switch", word) {
        return Some(CommandKind::Switch);
    }
    if is_same(b"lag", word) {
        return Some(CommandKind::Lag);
    }
    None
}
