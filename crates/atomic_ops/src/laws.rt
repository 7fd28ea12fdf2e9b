ghost use Rattle.atomic_ops.specs.Laws.{CodeIsInTable, CodeGivesOp, OpHasCode, WordGivesOp, OpHasWord};
ghost use Rattle.atomic_ops.specs.Laws.{FittedLength, FittedBytes};
ghost use Rattle.atomic_ops.specs.Laws.{NumberIsBelow, NumberIsUnique, NumbersCompareFromLast, NumberBytesLength, NumberBytesAreBytes, NumberOfBytes, BytesOfNumber};
ghost use Rattle.atomic_ops.specs.Laws.{ResultHasParamLength, ResultIsNoLonger, AppendIsLimited, ResultIsWithin, ResultIsBytes, Clears, OnlyClears, AppendThatNeverFits};

/// Codes and words are those of one operation each.
pub fn code_laws()
    ensures in_table { CodeIsInTable }
    ensures gives_op { CodeGivesOp }
    ensures has_code { OpHasCode }
    ensures word_gives_op { WordGivesOp }
    ensures has_word { OpHasWord }
{}

/// What is extended with zeros or cut to a length.
pub fn fitting_laws()
    ensures length { FittedLength }
    ensures bytes { FittedBytes }
{}

/// Strings of bytes and the numbers that they are, the lowest byte first.
pub fn number_laws()
    ensures below { NumberIsBelow }
    ensures unique { NumberIsUnique }
    ensures compare { NumbersCompareFromLast }
    ensures length { NumberBytesLength }
    ensures bytes { NumberBytesAreBytes }
    ensures number { NumberOfBytes }
    ensures back { BytesOfNumber }
{}

/// How long a result is, that it is made of bytes, and when the key is absent after it.
pub fn operation_laws()
    ensures param_length { ResultHasParamLength }
    ensures no_longer { ResultIsNoLonger }
    ensures limited { AppendIsLimited }
    ensures within { ResultIsWithin }
    ensures bytes { ResultIsBytes }
    ensures clears { Clears }
    ensures only_clears { OnlyClears }
    ensures never_fits { AppendThatNeverFits }
{}
