ghost use Rattle.std.specs.Prelude.{◌≡◌, ◌+◌, ◌==◌, ◌&&◌};
ghost use Rattle.log_keys.specs.Keys.{is_key_below};
ghost use Rattle.log_keys.specs.inner.Keys.{first_at};

use crate::key::LogKey;
use fb_bytes::Blob;

/// A part of a batch: a piece of its bytes, under its key.
#[derive(Debug, Drop)]
pub struct Row {
    pub key: LogKey,
    pub piece: Blob,
}

impl Row {
    /// Whether it comes before the parts of the job and the version.
    pub fn is_before(&self, job: u64, version: u64) -> bool
        ensures { result ≡ is_key_below self.now.key (first_at job version) }
    {
        self.key.job() < job || self.key.job() == job && self.key.version() < version
    }

    /// Whether it comes before the parts of later versions of the job.
    pub fn is_upto(&self, job: u64, version: u64) -> bool
        ensures { result ≡ is_key_below self.now.key (first_at job (version + 1)) }
    {
        self.key.job() < job || self.key.job() == job && self.key.version() <= version
    }

    /// Whether it comes before the parts of later jobs.
    pub fn is_upto_job(&self, job: u64) -> bool
        ensures { result ≡ is_key_below self.now.key (first_at (job + 1) 0) }
    {
        self.key.job() <= job
    }

    /// Whether it is of the job and of the version.
    pub fn is_of(&self, job: u64, version: u64) -> bool
        ensures { result ≡ ((self.now.key.job == job) && (self.now.key.version == version)) }
    {
        self.key.job() == job && self.key.version() == version
    }
}
