// How many calls give all tokens of a text.
ghost use Rattle.std.specs.Prelude.{◌≤◌};

// So many calls give all tokens of a text, and the answer behind them: demand 3 has no more than 2c + 3 tokens for c characters, and a longer text has none.
pub fn enough_calls(text: &[u8]) -> usize
    ensures { result ≤ 2_097_156 }
{
    2 * text.len().min(1_048_576) + 4
}
