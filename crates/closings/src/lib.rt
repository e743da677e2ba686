// The record of a job that closed.
#![tactic(auto)]

ghost use Rattle.std.specs.Prelude.{◌<◌, ◌^◌, ◌≤◌, ◌≡◌, length};
ghost use Rattle.printing.specs.Written.{Written};
ghost use Rattle.closings.specs.Record.{record_text, told_column};

use outlets::{Outlet, fail};
use printing::put_numbers;
use rooms::copy;
use saving::{Begun, begin_file, close_output, drop_file, finish_file};
use std::io;
use yaml_job::Closing;

// `not done `, and four numbers of up to ten digits with a byte behind each.
const RECORD_ROOM: usize = 53;

// Columns are told from 1 on, as far as a word goes.
fn column(col: u32) -> u32
    ensures { result ≡ told_column col }
{
    col.min(4_294_967_294) + 1
}

// Bytes at the start; where the next goes.
fn put_front(out: &mut [u8], text: &[u8]) -> usize
    ensures { Written out.old 0 text.now out.new result }
{
    copy(out, 0, text);
    text.len()
}

// `done COUNT`, or `not done NUMBER LINE COLUMN COUNT`; how long it is.
fn put_record(out: &mut [u8], c: Closing) -> usize
    ensures written { Written out.old 0 (record_text c) out.new result }
    ensures upper_bound { result ≤ 53 }
{
    match c {
        Closing::Done { count } => {
            let n = put_front(out, b"done ");
            put_numbers(out, n, &[count], b' ', b'\n')
        }
        Closing::NotDone {
            number,
            mark,
            count,
        } => {
            let n = put_front(out, b"not done ");
            let col = column(mark.col);
            put_numbers(out, n, &[number, mark.line, col, count], b' ', b'\n')
        }
    }
}

fn write_record(to: &mut Outlet, c: Closing) -> io::Result<()> {
    let mut room = [0u8; RECORD_ROOM];
    let n = put_record(&mut room, c);
    to.put(&room[0..n])
}

// Behind the seeds.
fn print_record(rt: &HostRuntime, c: Closing) -> bool {
    if let Err(e) = write_record(&mut Outlet::Output(rt.stdout()), c) {
        fail(rt, b"standard output", e);
        return false;
    }
    close_output(rt)
}

fn file_record(rt: &HostRuntime, c: Closing, mut begun: Begun, file: &str) -> bool {
    if let Err(e) = write_record(&mut begun.out, c) {
        fail(rt, file.as_bytes(), e);
        drop_file(rt, begun);
        return false;
    }
    finish_file(rt, begun, file)
}

// Whether the record stands in FILE, or on standard output where no FILE is named. Where it doesn't, standard error says why.
pub fn save_record(rt: &HostRuntime, c: Closing, file: Option<&str>) -> bool {
    let Some(named) = file else {
        return print_record(rt, c);
    };
    match begin_file(rt, named) {
        Some(begun) => file_record(rt, c, begun, named),
        None => false,
    }
}
