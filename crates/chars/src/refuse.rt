// Refusals as an answer.
ghost use Rattle.std.specs.Prelude.{Err, ◌≡◌};

use yaml_text::{Mark, Refusal};

pub fn refuse<T>(number: u32, mark: Mark) -> Result<T, Refusal>
    ensures { result ≡ Err (record { number = number; mark = mark }) }
{
    Err(Refusal { number, mark })
}
