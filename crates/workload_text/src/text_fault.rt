ghost use Rattle.std.specs.Prelude.{◌≡◌};
ghost use Rattle.workload_text.specs.declared.text_fault.TextFault.TheVariants.{NoMemory};
ghost use Rattle.workload_text.specs.Faults.{kind_word};

use std::alloc::{AllocError, AllocFailed};

/// Why a line isn't allowed. A line is tested for these in this order, each over the whole line.
#[derive(Clone, Copy, Debug, PartialEq, Eq)]
pub enum TextKind {
    /// A byte that isn't from a space to `~`.
    Byte,
    /// The first word isn't known.
    Word,
    /// The line may not stand here: it is of another part, it is a read behind a write, or a client
    /// with a number that isn't the next one.
    Place,
    /// A schedule, where none is played.
    Schedule,
    /// Too few words, or too many.
    Count,
    /// A word that isn't a number in decimal without a leading zero.
    Number,
    /// A number outside its limits, or an unknown word for a database or a mode.
    Range,
    /// A word that isn't a tag or a container's name.
    Name,
    /// A word that spells no bytes.
    Key,
    /// A key of the operator's that is longer than the block allows; or the text has more than
    /// 67,108,864 bytes.
    Long,
    /// A range whose begin isn't below its end.
    Backwards,
    /// A range of the operator's past the end of the user space.
    Past,
    /// A setting that came before.
    Repeat,
    /// One more than may be.
    Many,
    /// A client or an agent that isn't there.
    Nobody,
}

impl TextKind {
    /// The word that stands for it in a refusal.
    pub fn word(self) -> &'static str
        ensures { result.now ≡ kind_word self }
    {
        match self {
            TextKind::Byte => "byte",
            TextKind::Word => "word",
            TextKind::Place => "place",
            TextKind::Schedule => "schedule",
            TextKind::Count => "count",
            TextKind::Number => "number",
            TextKind::Range => "range",
            TextKind::Name => "name",
            TextKind::Key => "key",
            TextKind::Long => "long",
            TextKind::Backwards => "backwards",
            TextKind::Past => "past",
            TextKind::Repeat => "repeat",
            TextKind::Many => "many",
            TextKind::Nobody => "nobody",
        }
    }
}

/// Why a text says no workload.
#[derive(Clone, Copy, Debug, PartialEq, Eq)]
pub enum TextFault {
    /// The first line that isn't allowed in its place, counted from 1, and the first reason; line 0
    /// where the text has more than 67,108,864 bytes.
    Refused { line: u64, kind: TextKind },
    /// There was no memory for the workload.
    NoMemory,
}

impl From<AllocError> for TextFault {
    ghost from_gives = { λ _ e. e ≡ NoMemory };

    fn from(_: AllocError) -> Self {
        TextFault::NoMemory
    }
}

impl<T: Drop> From<AllocFailed<T>> for TextFault {
    ghost from_gives = { λ _ e. e ≡ NoMemory };

    fn from(_: AllocFailed<T>) -> Self {
        TextFault::NoMemory
    }
}
