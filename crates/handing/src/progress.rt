// How far a long job is, on a terminal.
use outlets::say;
use std::fmt::InlineText;
use std::io::IsTerminal;
use std::rt::Clock;

// The latest second, where there is a clock; whether a second has begun since the start; whether a line stands on the terminal.
#[derive(Clone, Copy)]
struct Shown {
    second: Option<u64>,
    begun: bool,
    line: bool,
}

// What is shown, where standard error is a terminal.
#[derive(Clone, Copy)]
pub struct Progress(Option<Shown>);

fn this_second(rt: &HostRuntime) -> Option<u64> {
    let time = rt.since_1970().ok()?;
    Some(time.as_secs())
}

// To the start of the line, and nothing behind it.
const CLEAR_LINE: &[u8] = b"\r\x1b[K";

// In the first second that begins nothing is shown: the start may be right before it.
fn next_second(rt: &HostRuntime, s: Shown, second: Option<u64>, count: u32) -> Shown {
    if s.begun {
        say(rt, CLEAR_LINE);
        say(rt, InlineText::<10>::of(count).as_str().as_bytes());
        say(rt, b" seeds so far");
    }
    Shown {
        second,
        begun: true,
        line: s.begun,
    }
}

impl Progress {
    pub fn start(rt: &HostRuntime) -> Progress {
        if !rt.stderr().is_terminal() {
            return Progress(None);
        }
        Progress(Some(Shown {
            second: this_second(rt),
            begun: false,
            line: false,
        }))
    }

    // The clock is read once in 1,024 seeds.
    pub fn tell(&mut self, rt: &HostRuntime, count: u32) {
        let Some(s) = self.0 else {
            return;
        };
        if count % 1024 == 0 {
            let second = this_second(rt);
            if second != s.second {
                self.0 = Some(next_second(rt, s, second, count));
            }
        }
    }

    pub fn end(&self, rt: &HostRuntime) {
        if let Some(Shown { line: true, .. }) = self.0 {
            say(rt, CLEAR_LINE);
        }
    }
}
