//! The worked examples of the rules, as one theorem about the definitions that the contracts of
//! the makes and of the header cite.
#![tactic(auto)]

ghost use Rattle.std.specs.Prelude.{◌≡◌};
ghost use Rattle.examples.specs.Worked.{WorkedExamples};

/// How many worked examples the statement has.
pub fn worked_examples() -> u8
    ensures count { result ≡ 7 }
    ensures shown { WorkedExamples }
{
    7
}
