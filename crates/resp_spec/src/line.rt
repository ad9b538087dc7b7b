// A line of a request: it ends at LF, and one CR before that is dropped.
ghost use Rattle.std.specs.Prelude.{◌≡◌, ◌==◌, take};
ghost use Rattle.std.specs.List.{position};
ghost use Rattle.resp_spec.specs.Steps.{FeedIs, FeedIn, TextLen, LineIs};

// Where the line's LF stands.
#[derive(Clone, Copy)]
pub enum Feed {
    At(usize),
    NotYet,
    TooFar,
}

// The length of a line's text, and the bytes it takes with its end.
#[derive(Clone, Copy)]
pub enum Line {
    Text(usize, usize),
    Unfinished,
    TooLong,
}

// The LF stands at most this far from the line's start.
const MOST_LINE: usize = 65536;

// Where the first LF stands, as far as it may.
fn near_feed(s: &[u8]) -> Option<usize>
    ensures { result ≡ position (λ b. b == 10) (take 65537 s.now) }
{
    s.iter().take(MOST_LINE + 1).position(|byte| *byte == b'\n')
}

// Finds the LF of the line at the front.
fn find_feed(s: &[u8]) -> Feed
    ensures { FeedIs s.now result }
{
    match near_feed(s) {
        Some(i) => Feed::At(i),
        None if s.len() <= MOST_LINE => Feed::NotYet,
        None => Feed::TooFar,
    }
}

// The length of the text in front of an LF at n, without one CR at its end.
fn text_len(s: &[u8], n: usize) -> usize
    requires { FeedIn s.now n }
    ensures { TextLen s.now n result }
{
    if s[..n].ends_with(b"\r") { n - 1 } else { n }
}

// Reads the line at the front.
pub fn read_line(s: &[u8]) -> Line
    ensures { LineIs s.now result }
{
    match find_feed(s) {
        Feed::At(n) => Line::Text(text_len(s, n), n + 1),
        Feed::NotYet => Line::Unfinished,
        Feed::TooFar => Line::TooLong,
    }
}
