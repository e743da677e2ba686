// The characters that code names, as code points.
pub const TAB: u32 = b'\t' as u32;

pub const LINE_FEED: u32 = b'\n' as u32;

pub const CARRIAGE_RETURN: u32 = b'\r' as u32;

pub const SPACE: u32 = b' ' as u32;

pub const EXCLAMATION: u32 = b'!' as u32;

pub const DOUBLE_QUOTE: u32 = b'"' as u32;

pub const HASH: u32 = b'#' as u32;

pub const PERCENT: u32 = b'%' as u32;

pub const AMPERSAND: u32 = b'&' as u32;

pub const SINGLE_QUOTE: u32 = b'\'' as u32;

pub const ASTERISK: u32 = b'*' as u32;

pub const COMMA: u32 = b',' as u32;

pub const DASH: u32 = b'-' as u32;

pub const SLASH: u32 = b'/' as u32;

pub const ZERO: u32 = b'0' as u32;

pub const NINE: u32 = b'9' as u32;

pub const COLON: u32 = b':' as u32;

pub const SEMICOLON: u32 = b';' as u32;

pub const EQUALS: u32 = b'=' as u32;

pub const GREATER: u32 = b'>' as u32;

pub const QUESTION: u32 = b'?' as u32;

pub const AT_SIGN: u32 = b'@' as u32;

pub const UPPER_A: u32 = b'A' as u32;

pub const UPPER_F: u32 = b'F' as u32;

pub const UPPER_L: u32 = b'L' as u32;

pub const UPPER_N: u32 = b'N' as u32;

pub const UPPER_P: u32 = b'P' as u32;

pub const UPPER_U: u32 = b'U' as u32;

pub const UPPER_Z: u32 = b'Z' as u32;

pub const OPEN_BRACKET: u32 = b'[' as u32;

pub const BACKSLASH: u32 = b'\\' as u32;

pub const CLOSE_BRACKET: u32 = b']' as u32;

pub const UNDERSCORE: u32 = b'_' as u32;

pub const BACKTICK: u32 = b'`' as u32;

pub const LOWER_A: u32 = b'a' as u32;

pub const LOWER_B: u32 = b'b' as u32;

pub const LOWER_E: u32 = b'e' as u32;

pub const LOWER_F: u32 = b'f' as u32;

pub const LOWER_N: u32 = b'n' as u32;

pub const LOWER_R: u32 = b'r' as u32;

pub const LOWER_T: u32 = b't' as u32;

pub const LOWER_U: u32 = b'u' as u32;

pub const LOWER_V: u32 = b'v' as u32;

pub const LOWER_X: u32 = b'x' as u32;

pub const LOWER_Z: u32 = b'z' as u32;

pub const OPEN_BRACE: u32 = b'{' as u32;

pub const BAR: u32 = b'|' as u32;

pub const CLOSE_BRACE: u32 = b'}' as u32;

pub const TILDE: u32 = b'~' as u32;

pub const BYTE_ORDER_MARK: u32 = 0xFEFF;
