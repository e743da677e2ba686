// Handing over the seeds of a job: a line for each, and the closing record to the caller.
ghost use Rattle.std.specs.Prelude.{◌≡◌, length, replicate};
ghost use Rattle.job.specs.Own.{job_words};
ghost use Rattle.jobs.specs.Closes.{Tells};
ghost use Rattle.jobs.specs.declared.hand.Unhanded.TheVariants.{Unwritten};

use handing::progress::Progress;
use handing::{Lines, put_seed};
use job::{JOB_WORDS, next_seed};
use outlets::Outlet;
use std::io;
use yaml_job::{Closing, JobAnswer};

// Why a job has no closing record, or its seeds are not all written.
#[derive(Drop)]
pub(crate) enum Unhanded {
    // A line could not be written.
    Unwritten(io::Error),
    // No job comes to this.
    Lost,
}

impl From<io::Error> for Unhanded {
    ghost from_gives = { λ e r. r ≡ Unwritten e };

    fn from(e: io::Error) -> Unhanded {
        Unhanded::Unwritten(e)
    }
}

// By demand 3 no more seeds come.
const MOST_CALLS: u32 = 2_097_156;

fn hand_seeds(
    rt: &HostRuntime,
    to: &mut Lines,
    progress: &mut Progress,
    state: &mut [u32; JOB_WORDS],
    text: &[u8],
    words: &mut [u32],
    bytes: &mut [u8],
) -> Result<Closing, Unhanded>
    requires { state.old ≡ replicate job_words 0 }
    ensures { Tells text.now (length words.old) (length bytes.old) result }
{
    for _ in 0..MOST_CALLS {
        match next_seed(state, text, words, bytes) {
            JobAnswer::Seed { value, count } => {
                put_seed(to, value)?;
                progress.tell(rt, count);
            }
            JobAnswer::Closed(c) => {
                return Ok(c);
            }
            JobAnswer::Lost => {
                return Err(Unhanded::Lost);
            }
        }
    }
    Err(Unhanded::Lost)
}

// Writes the seeds of the job that a text is, 65,536 bytes at a time, and says on a terminal how far it is. A record comes when all of them are written.
pub(crate) fn hand_over(
    rt: &HostRuntime,
    out: &mut Outlet,
    text: &[u8],
    words: &mut [u32],
    bytes: &mut [u8],
) -> Result<Closing, Unhanded>
    ensures { Tells text.now (length words.old) (length bytes.old) result }
{
    let mut to = Lines::new(out);
    let mut progress = Progress::start(rt);
    let mut state = [0u32; JOB_WORDS];
    let handed = hand_seeds(rt, &mut to, &mut progress, &mut state, text, words, bytes);
    progress.end(rt);
    let closing = handed?;
    to.flush()?;
    Ok(closing)
}
