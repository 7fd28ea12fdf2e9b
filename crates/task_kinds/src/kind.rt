ghost use Rattle.std.specs.Prelude.{◌≡◌};
ghost use Rattle.task_kinds.specs.Kinds.{code_of, word_of, takes_of, places_of, shape_of, kind_with};

/// What a task does.
#[derive(Clone, Copy, Debug, PartialEq, Eq)]
pub enum Kind {
    BackupStart,
    BackupDispatch,
    BackupRange,
    BackupManifest,
    BackupLogs,
    BackupLog,
    BackupErase,
    BackupFinish,
    RestoreStart,
    RestoreDispatch,
    RestoreRange,
    RestoreLog,
    RestoreApply,
    RestoreComplete,
    DrStart,
    DrCopy,
    DrLogs,
    DrLog,
    DrApply,
    DrErase,
    DrFinish,
}

/// Which parameters the tasks of a kind have.
#[derive(Clone, Copy, Debug, PartialEq, Eq)]
pub enum Shape {
    Nothing,
    /// A snapshot's piece of the keys.
    Piece,
    Snapshot,
    /// A span of logged versions.
    Span,
    /// The place of a file in a list.
    File,
    /// A piece of the keys.
    Range,
}

macro_rules! code_in {
    ([$kind:ident]
        $($variant:ident $code:literal $word:literal $takes:literal
            $places:literal $shape:ident,)*) => {
        match $kind {
            $(Kind::$variant => $code,)*
        }
    };
}

macro_rules! word_in {
    ([$kind:ident]
        $($variant:ident $code:literal $word:literal $takes:literal
            $places:literal $shape:ident,)*) => {
        match $kind {
            $(Kind::$variant => $word,)*
        }
    };
}

macro_rules! takes_in {
    ([$kind:ident]
        $($variant:ident $code:literal $word:literal $takes:literal
            $places:literal $shape:ident,)*) => {
        match $kind {
            $(Kind::$variant => $takes,)*
        }
    };
}

macro_rules! places_in {
    ([$kind:ident]
        $($variant:ident $code:literal $word:literal $takes:literal
            $places:literal $shape:ident,)*) => {
        match $kind {
            $(Kind::$variant => $places,)*
        }
    };
}

macro_rules! shape_in {
    ([$kind:ident]
        $($variant:ident $code:literal $word:literal $takes:literal
            $places:literal $shape:ident,)*) => {
        match $kind {
            $(Kind::$variant => Shape::$shape,)*
        }
    };
}

macro_rules! kind_in {
    ([$code_read:ident]
        $($variant:ident $code:literal $word:literal $takes:literal
            $places:literal $shape:ident,)*) => {
        match $code_read {
            $($code => Some(Kind::$variant),)*
            _ => None,
        }
    };
}

impl Kind {
    /// The number that stands for the kind in a task's tuple.
    pub fn code(self) -> u64
        ensures { result ≡ code_of self }
    {
        let kind = self;
        each_kind!(code_in kind)
    }

    /// The kind with this code.
    pub fn from_code(code: u64) -> Option<Kind>
        ensures { result ≡ kind_with code }
    {
        each_kind!(kind_in code)
    }

    /// The word for the kind in reports.
    pub fn word(self) -> &'static str
        ensures { result.now ≡ word_of self }
    {
        let kind = self;
        each_kind!(word_in kind)
    }

    /// Whether its take keeps something.
    pub fn takes(self) -> bool
        ensures { result ≡ takes_of self }
    {
        let kind = self;
        each_kind!(takes_in kind)
    }

    /// Whether what it took is placed before its close.
    pub fn places(self) -> bool
        ensures { result ≡ places_of self }
    {
        let kind = self;
        each_kind!(places_in kind)
    }

    /// Which parameters its tasks have.
    pub fn shape(self) -> Shape
        ensures { result ≡ shape_of self }
    {
        let kind = self;
        each_kind!(shape_in kind)
    }
}
