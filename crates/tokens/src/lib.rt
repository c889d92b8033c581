// Words of a text: what stands between blanks.
#![tactic(auto)]

ghost use Rattle.std.specs.Prelude.{◌≤◌, min, ◌≡◌, length};
ghost use Rattle.scan.specs.Bytes.{place_of, PlaceOf};
ghost use Rattle.tokens.specs.Words.{blank_of, blank_is, run_of, skip_of, next_word, SpanIn};

// The place of a word: its first byte, and one past its last.
#[derive(Clone, Copy)]
pub struct Span {
    pub start: usize,
    pub end: usize,
}

fn is_blank(byte: u8) -> bool
    ensures { result ≡ blank_of byte }
{
    matches!(byte, b' ' | b'\t')
}

// Whether a byte is blank (blank), or is not (not blank).
fn blank_is(blank: bool, byte: u8) -> bool
    ensures { result ≡ blank_is blank byte }
{
    is_blank(byte) == blank
}

// How many bytes in front are blank (blank), or are not (not blank).
fn run(blank: bool, text: &[u8]) -> usize
    ensures value { result ≡ run_of blank text.now }
    ensures upper_bound { result ≤ length text.now }
{
    text.iter()
        .take_while(|byte| blank_is(blank, **byte))
        .count()
}

// Past the blanks (blank), or past the word (not blank), that stands at `at`.
// Kept: the new form is no plainer. `blank` is a value that specs/ speaks of too (run_of); a closure in its place
// would be described by what its calls give, for each byte.
fn skip(blank: bool, text: &[u8], at: usize) -> usize
    ensures value { result ≡ skip_of blank text.now at }
    ensures lower_bound { min at (length text.now) ≤ result }
    ensures upper_bound { result ≤ length text.now }
{
    match text.get(at..) {
        Some(rest) => at + run(blank, rest),
        None => text.len(),
    }
}

// The next word from `at` on; empty, at the end, where there is none.
#[tactic(auto, unfolding(crate::specs::Words::next_word))]
pub fn next(text: &[u8], at: usize) -> Span
    ensures value { result ≡ next_word text.now at }
    ensures span_in { SpanIn result text.now }
{
    let start = skip(true, text, at);
    let end = skip(false, text, start);
    Span { start, end }
}

// The first place of a text that holds a byte.
// Kept: the new form is no plainer. It is the search of `scan` from 0 on; without it each caller writes that 0.
pub fn find(text: &[u8], byte: u8) -> Option<usize>
    ensures value { result ≡ place_of byte 0 text.now }
    ensures place { PlaceOf byte 0 text.now result }
{
    scan::find(text, 0, byte)
}
