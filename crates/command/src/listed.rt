// `tokens`.
use arguments::word::MOST_WORD;
use arguments::{Plan, name_at};
use saving::close_output;
use sheets::{Sheet, open_sheet, read_sheet};
use tokens::{Listed, list_tokens};
use usage::status::{DONE, NOT_DONE, UNREAD, UNWRITTEN};

fn list_text(
    rt: &HostRuntime,
    name: Option<&str>,
    text: &[u8],
    words: &mut [u32],
    bytes: &mut [u8],
) -> u8 {
    let status = match list_tokens(rt, name, text, words, bytes) {
        Listed::Accepted => DONE,
        Listed::Refused => NOT_DONE,
        Listed::Unwritten => return UNWRITTEN,
    };
    // All that was written must be kept.
    if close_output(rt) { status } else { UNWRITTEN }
}

// A room that is full holds more bytes than a sheet may have, and is refused.
pub(crate) fn list_plan(
    rt: &HostRuntime,
    plan: Plan,
    text: &mut [u8],
    words: &mut [u32],
    bytes: &mut [u8],
) -> u8 {
    let mut space = [0u8; MOST_WORD];
    let name = name_at(rt, plan.sheet, &mut space);
    let Some(mut from) = open_sheet(rt, name) else {
        return UNREAD;
    };
    match read_sheet(rt, name, &mut from, text) {
        Sheet::Whole(n) => list_text(rt, name, &text[..n], words, bytes),
        Sheet::Full => list_text(rt, name, text, words, bytes),
        Sheet::Broken => UNREAD,
    }
}
