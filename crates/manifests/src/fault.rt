ghost use Rattle.std.specs.Prelude.{◌≡◌};
ghost use Rattle.manifests.specs.declared.fault.ManifestFault.TheVariants.{NoMemory};
ghost use Rattle.manifests.specs.Fields.{word_of};

use std::alloc::{AllocError, AllocFailed};

/// A field of a manifest.
#[derive(Clone, Copy, Debug, PartialEq, Eq)]
pub enum Field {
    BeginVersion,
    EndVersion,
    Files,
    Format,
    TotalBytes,
}

impl Field {
    /// The field's key.
    pub fn word(self) -> &'static str
        ensures { result.now ≡ word_of self }
    {
        match self {
            Field::BeginVersion => "beginVersion",
            Field::EndVersion => "endVersion",
            Field::Files => "files",
            Field::Format => "format",
            Field::TotalBytes => "totalBytes",
        }
    }
}

/// What is wrong with a manifest: the first fault.
#[derive(Clone, Copy, Debug, PartialEq, Eq)]
pub enum ManifestFault {
    /// The bytes are no JSON text.
    Json,
    /// A field is missing or of another type, or it is another format.
    Field { name: Field },
    /// A file, counted from 0, isn't a range name or isn't past the one before.
    Order { at: usize },
    /// There are no files, or the numbers don't agree with the files and the name.
    Versions,
    /// Memory ran out.
    NoMemory,
}

impl From<AllocError> for ManifestFault {
    ghost from_gives = { λ _ e. e ≡ NoMemory };

    fn from(_e: AllocError) -> ManifestFault {
        ManifestFault::NoMemory
    }
}

impl<T: Drop> From<AllocFailed<T>> for ManifestFault {
    ghost from_gives = { λ _ e. e ≡ NoMemory };

    fn from(_e: AllocFailed<T>) -> ManifestFault {
        ManifestFault::NoMemory
    }
}
