// The job that a text is.
ghost use Rattle.std.specs.Prelude.{length};
ghost use Rattle.jobs.specs.Status.{Answers, Closed};

use crate::hand::{Unhanded, hand_over};
use crate::names::Names;
use crate::output::finish_seeds;
use crate::status::status_of;
use closings::save_record;
use messages::say_refusal;
use outlets::{fail, say};
use saving::{Begun, drop_file};
use usage::status::UNWRITTEN;
use yaml_job::Closing;
use yaml_text::Refusal;

fn say_done(rt: &HostRuntime, names: Names, count: u32) {
    if (count != 0) | names.allowed {
        return;
    }
    say(rt, names.sheet.unwrap_or("standard input").as_bytes());
    say(
        rt,
        b": the list of seeds is empty. If that is meant, give --allow-empty\n",
    );
}

// A refusal, or that there is no seed, in words.
fn say_closing(
    rt: &HostRuntime,
    names: Names,
    c: Closing,
    text: &[u8],
    words: &mut [u32],
    bytes: &mut [u8],
) {
    match c {
        Closing::Done { count } => say_done(rt, names, count),
        Closing::NotDone { number, mark, .. } => {
            let f = Refusal { number, mark };
            say_refusal(rt, names.sheet, text, f, words, bytes);
        }
    }
}

// Of a job that closed, and whose seeds are written. They are kept, and behind them the record.
fn close_job(
    rt: &HostRuntime,
    names: Names,
    c: Closing,
    begun: Begun,
    text: &[u8],
    words: &mut [u32],
    bytes: &mut [u8],
) -> u8
    ensures { Closed c names.entry.allowed result }
{
    let kept = finish_seeds(rt, names, begun) && save_record(rt, c, names.record);
    say_closing(rt, names, c, text, words, bytes);
    if kept {
        return status_of(c, names.allowed);
    }
    UNWRITTEN
}

// Writes its seeds and its record.
pub(crate) fn run_text(
    rt: &HostRuntime,
    names: Names,
    mut begun: Begun,
    text: &[u8],
    words: &mut [u32],
    bytes: &mut [u8],
) -> u8
    ensures { Answers text.now (length words.old) (length bytes.old) names.entry.allowed result }
{
    match hand_over(rt, &mut begun.out, text, words, bytes) {
        Ok(c) => close_job(rt, names, c, begun, text, words, bytes),
        Err(Unhanded::Unwritten(e)) => {
            fail(rt, names.seeds.unwrap_or("standard output").as_bytes(), e);
            drop_file(rt, begun);
            UNWRITTEN
        }
        Err(Unhanded::Lost) => UNWRITTEN,
    }
}
