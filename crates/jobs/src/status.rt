// The exit status of a job that closed.
ghost use Rattle.std.specs.Prelude.{◌≡◌};
ghost use Rattle.jobs.specs.Status.{done_status, status_of};

use usage::status::{DONE, EMPTY, NOT_DONE};
use yaml_job::Closing;

fn done_status(count: u32, allowed: bool) -> u8
    ensures { result ≡ done_status count allowed }
{
    if count != 0 {
        return DONE;
    }
    if allowed {
        return DONE;
    }
    EMPTY
}

// Where its seeds and its record are kept.
pub(crate) fn status_of(c: Closing, allowed: bool) -> u8
    ensures { result ≡ status_of c allowed }
{
    match c {
        Closing::Done { count } => done_status(count, allowed),
        Closing::NotDone { .. } => NOT_DONE,
    }
}
