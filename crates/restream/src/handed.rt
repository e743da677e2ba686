// The seeds and the closing record of a job, written as a line of vectors has them.
use job::{JOB_WORDS, next_seed};
use printing::say_numbers;
use std::io;
use yaml_job::{Closing, JobAnswer};

// Writes a seed and its count, with a comma before it unless it is the first.
fn say_seed(rt: &HostRuntime, value: u32, count: u32) -> io::Result<()> {
    if count != 1 {
        rt.write_all(b",")?;
    }
    print!(rt; "{value}:{count}")
}

fn say_closing(rt: &HostRuntime, c: Closing) -> io::Result<()> {
    match c {
        Closing::Done { count } => {
            rt.write_all(b"|done ")?;
            say_numbers(&[count], b'\n');
        }
        Closing::NotDone {
            number,
            mark,
            count,
        } => {
            rt.write_all(b"|not ")?;
            say_numbers(&[number, mark.index, mark.line, mark.col, count], b'\n');
        }
    }
    Ok(())
}

// Whether the answer was a seed.
fn say_answer(rt: &HostRuntime, a: JobAnswer) -> io::Result<bool> {
    match a {
        JobAnswer::Seed { value, count } => {
            say_seed(rt, value, count)?;
            Ok(true)
        }
        JobAnswer::Closed(c) => {
            say_closing(rt, c)?;
            Ok(false)
        }
        JobAnswer::Lost => {
            rt.write_all(b"|lost\n")?;
            Ok(false)
        }
    }
}

// A seed has a character at least, so that the last of so many calls hands over none.
pub(crate) fn say_job(
    rt: &HostRuntime,
    text: &[u8],
    words: &mut [u32],
    bytes: &mut [u8],
) -> io::Result<()> {
    let mut state = [0u32; JOB_WORDS];
    for _ in 0..=text.len() {
        let a = next_seed(&mut state, text, words, bytes);
        if !say_answer(rt, a)? {
            break;
        }
    }
    Ok(())
}
