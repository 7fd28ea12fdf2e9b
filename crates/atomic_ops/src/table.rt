// The table of operations: the code, the name and the word of each, and the function
// that gives its result. It hands its rows to a macro, after what else it was given.
macro_rules! operations {
    ($rule:ident $($given:ident)*) => {
        $rule! { [$($given)*]
            2 Add "add" sum;
            6 And "and" conjunction;
            7 Or "or" disjunction;
            8 Xor "xor" exclusion;
            9 AppendIfFits "append" extended;
            12 Max "max" greater;
            13 Min "min" lesser;
            16 ByteMin "bytemin" earlier_or_param;
            17 ByteMax "bytemax" later_or_param;
            18 MinV2 "minv2" lesser_or_param;
            19 AndV2 "andv2" conjunction_or_param;
            20 CompareAndClear "cac" kept_unless_same;
        }
    };
}

pub(crate) use operations;
