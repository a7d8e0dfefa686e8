// Worked examples, proved by computing the definitions that the readers equal.
#![tactic(auto)]

ghost use Rattle.std.specs.Prelude.{◌≡◌, true};
ghost use Rattle.examples.specs.Examples.{ReaderExamples};

use ids::is_id;

// The examples hold; two of them are read here, on both sides of the limit of a small number.
pub fn reader_examples() -> bool
    ensures hold { ReaderExamples }
    ensures read { result ≡ true }
{
    is_id(b"#4294967294") && !is_id(b"#4294967295")
}
