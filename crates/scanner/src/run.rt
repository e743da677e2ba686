// The run: all steps from StreamStart to the end of the text, stored as they come.
ghost use Rattle.std.specs.Prelude.{◌≤◌, length};
ghost use Rattle.yaml_text.specs.Utf8.{chars};
ghost use Rattle.yaml_scan.specs.Scan.{scan};
ghost use Rattle.sink.specs.Stored.{no_counts};
ghost use Rattle.driver.specs.Held.{Modest};
ghost use Rattle.scanner.specs.Run.{RunComes};

use driver::held::{HELD_WORDS, store_counts, store_state};
use driver::{Outcome, all_steps};
use events::Counts;
use sink::put_record;
use states::State;
use yaml_lexeme::{Kind, Token};
use yaml_scan::Limits;
use yaml_text::Refusal;

// At a refusal its caller clears the words and the bytes, so that what they hold then is not said, only that their lengths stay.
pub(crate) fn run(
    limits: Limits,
    text: &[u8],
    words: &mut [u32],
    bytes: &mut [u8],
) -> Result<Counts, Refusal>
    requires { Modest limits × (length text.now ≤ 1_048_576) }
    ensures { RunComes (scan limits (chars text.now)) no_counts words.old bytes.old words.new bytes.new result }
{
    let s = State::begin();
    let m = s.place.mark;
    let start = Token {
        kind: Kind::StreamStart,
        start: m,
        end: m,
    };
    put_record(words, 0, start);
    let n = Counts {
        count: 1,
        put_in: 0,
        used: 0,
    };
    let mut held = [0u32; HELD_WORDS];
    store_state(&mut held, s);
    store_counts(&mut held, n);
    let o = all_steps(limits, text, false, &mut held, words, bytes)?;
    match o {
        Outcome::Scanned(m) => Ok(m),
        // Tokens are not given one at a time, so that the steps never pause.
        Outcome::Ready => unreachable!(),
    }
}
