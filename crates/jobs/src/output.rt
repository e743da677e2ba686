// Where the seeds go: standard output, or a FILE.
use crate::names::Names;
use outlets::Outlet;
use saving::{Begun, begin_file, close_output, finish_file};

pub(crate) fn begin_seeds(rt: &HostRuntime, names: Names) -> Option<Begun> {
    match names.seeds {
        Some(file) => begin_file(rt, file),
        None => Some(Begun {
            out: Outlet::Output(rt.stdout()),
            name: None,
        }),
    }
}

// Whether all seeds are kept. On standard output the record is still to come, where it has no FILE.
pub(crate) fn finish_seeds(rt: &HostRuntime, names: Names, begun: Begun) -> bool {
    match names.seeds {
        Some(file) => finish_file(rt, begun, file),
        None => names.record.is_none() || close_output(rt),
    }
}
