ghost use Rattle.std.specs.Prelude.{◌≡◌};
ghost use Rattle.atomic_ops.specs.Codes.{code_of, word_of, op_of_code, op_of_word};

use crate::table::operations;

/// An atomic operation, by the code that it has in a batch of mutations.
#[derive(Clone, Copy, Debug, PartialEq, Eq)]
pub enum Op {
    /// 2: the sum.
    Add,
    /// 6: bitwise and, where an absent key counts as zeros.
    And,
    /// 7: bitwise or.
    Or,
    /// 8: bitwise exclusive or.
    Xor,
    /// 9: the parameter at the end, where that fits the limit on values.
    AppendIfFits,
    /// 12: the greater number.
    Max,
    /// 13: the lesser number, where an absent key counts as zeros.
    Min,
    /// 16: the lesser in byte order.
    ByteMin,
    /// 17: the greater in byte order.
    ByteMax,
    /// 18: the lesser number, or the parameter where the key is absent.
    MinV2,
    /// 19: bitwise and, or the parameter where the key is absent.
    AndV2,
    /// 20: nothing where the value is the parameter.
    CompareAndClear,
}

macro_rules! op_at_code {
    ([$code:ident] $($number:literal $name:ident $word:literal $result:ident;)*) => {
        match $code {
            $($number => Some(Op::$name),)*
            _ => None,
        }
    };
}

macro_rules! code_at_op {
    ([$op:ident] $($number:literal $name:ident $word:literal $result:ident;)*) => {
        match $op {
            $(Op::$name => $number,)*
        }
    };
}

macro_rules! word_at_op {
    ([$op:ident] $($number:literal $name:ident $word:literal $result:ident;)*) => {
        match $op {
            $(Op::$name => $word,)*
        }
    };
}

macro_rules! op_at_word {
    ([$given:ident] $($number:literal $name:ident $word:literal $result:ident;)*) => {
        $(if $word.as_bytes() == $given { Some(Op::$name) } else)* { None }
    };
}

impl Op {
    /// The operation of a code, or `None` for a code that isn't in the table. The codes
    /// 0 and 1 are those of a set and a clear, which are no operations.
    pub fn from_code(code: u32) -> Option<Op>
        ensures { result ≡ op_of_code code }
    {
        operations!(op_at_code code)
    }

    pub fn code(self) -> u32
        ensures { result ≡ code_of self }
    {
        operations!(code_at_op self)
    }

    /// The word that stands for the operation in a text.
    pub fn word(self) -> &'static str
        ensures { result.now ≡ word_of self }
    {
        operations!(word_at_op self)
    }

    /// The operation of a word, or `None` for any other text.
    pub fn from_word(word: &[u8]) -> Option<Op>
        ensures { result ≡ op_of_word word.now }
    {
        operations!(op_at_word word)
    }
}
