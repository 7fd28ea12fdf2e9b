ghost use Rattle.std.specs.Prelude.{◌≡◌};
ghost use Rattle.workload_text.specs.Sofar as spec;

use crate::keyword::Keyword;

/// The part of a text that the last line was of.
#[derive(Clone, Copy, Debug)]
pub enum Part {
    /// The settings, or there was no line.
    Settings,
    /// A client's own line, or a transaction that is complete.
    Client,
    /// A transaction without a write.
    Reads,
    /// A transaction with a write.
    Writes,
    Operator,
    Schedule,
}

impl Part {
    /// A client's part: behind its first line.
    pub fn in_client(self) -> bool
        ensures { result ≡ spec.in_client self }
    {
        matches!(self, Part::Client | Part::Reads | Part::Writes)
    }

    pub fn in_txn(self) -> bool
        ensures { result ≡ spec.in_txn self }
    {
        matches!(self, Part::Reads | Part::Writes)
    }

    /// Whether a line of that first word may stand behind the part.
    pub fn stands(self, keyword: Keyword) -> bool
        ensures { result ≡ spec.stands self keyword }
    {
        match keyword {
            Keyword::Setting(_) | Keyword::Death | Keyword::Stall => {
                matches!(self, Part::Settings)
            }
            Keyword::Client | Keyword::Operator => {
                matches!(self, Part::Settings) || self.in_client()
            }
            Keyword::Txn => self.in_client(),
            Keyword::Read(_) => matches!(self, Part::Reads),
            Keyword::Write(_) => self.in_txn(),
            Keyword::Command(_) => matches!(self, Part::Operator),
            Keyword::Schedule => !matches!(self, Part::Schedule),
            Keyword::Event(_) => matches!(self, Part::Schedule),
        }
    }
}
