// Says a refusal in words.
#![tactic(auto)]

mod bracket;
pub mod count;

use crate::bracket::latest_open;
use wording::say;
use yaml_text::Refusal;

// Writes a refusal in words on standard error. No name is standard input. The rooms are used again, as by whoever scanned the text.
pub fn say_refusal(
    rt: &HostRuntime,
    name: Option<&str>,
    text: &[u8],
    f: Refusal,
    words: &mut [u32],
    bytes: &mut [u8],
) {
    // 42 and 47 name a bracket.
    let open = match f.number {
        42 | 47 => latest_open(text, words, bytes),
        _ => None,
    };
    say(rt, name, text, f, open);
}
