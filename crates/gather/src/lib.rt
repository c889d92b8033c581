// A line's bytes as they come, whatever the reads cut them into.
#![tactic(auto)]

ghost use Rattle.std.specs.Prelude.{List, ◌∷◌, [], ◌++◌, ℕ, ◌<◌, ◌≤◌, ◌≡◌, length, IfSome, option_copied};
ghost use Rattle.gather.specs.Lines.{Keeps, Counts, Holds, part_of, rest_of, without_cr, ended_in, InsideBuffer};

// A line that has not ended.
// Kept: a buffer with a length beside it, since the project takes no heap, and so no Vec.
#[derive(Clone, Copy)]
pub struct Held<const ROOM: usize> {
    // Its first bytes, as many as there is room for.
    pub bytes: [u8; ROOM],
    // How many bytes have come; none where there were more than there is room for.
    pub length: Option<usize>,
}

fn without_cr(line: &[u8]) -> &[u8]
    ensures value { result.now ≡ without_cr line.now }
    ensures no_longer { length result.now ≤ length line.now }
{
    line.strip_suffix(b"\r").unwrap_or(line)
}

// Keeps one byte more, where the buffer has room for it.
fn push(line: &mut [u8], count: usize, byte: u8) -> usize
    ensures line_len_unchanged { length line.new ≡ length line.old }
    ensures counts { (bs : List ℕ) → Counts line.old count bs → Counts line.new result (bs ++ (byte ∷ [])) }
{
    if count < line.len() {
        line[count] = byte;
    }
    if count <= line.len() {
        count + 1
    } else {
        count
    }
}

// Takes a chunk up to the line's end and with it, into a buffer of any length: what follows that end, or none where the line goes on past the chunk.
pub fn take<'a>(chunk: &'a [u8], line: &mut [u8], came: &mut Option<usize>) -> Option<&'a [u8]>
    ensures line_len_unchanged { length line.new ≡ length line.old }
    ensures rest { option_copied result ≡ rest_of chunk.now }
    ensures shorter { IfSome result (λ rest. length rest.now < length chunk.now) }
    ensures keeps { (bs : List ℕ) → Keeps line.old came.old bs → Keeps line.new came.new (bs ++ part_of chunk.now) }
{
    // As a number, and by value from byte to byte: an Option in memory took a long line 1.7 times the time.
    let room = line.len();
    let mut count = came.unwrap_or(room + 1);
    for (i, byte) in chunk.iter().enumerate() {
        if *byte == b'\n' {
            *came = (count <= room).then_some(count);
            return Some(&chunk[i + 1..]);
        }
        count = push(line, count, *byte);
    }
    *came = (count <= room).then_some(count);
    None
}

// The text of a line that has ended, without a CR right before its end; none where it is too long.
pub fn text(line: &[u8], came: Option<usize>) -> Option<&[u8]>
    ensures inside_buffer { InsideBuffer (option_copied result) (length line.now) }
    ensures by_bytes { (bs : List ℕ) → Keeps line.now came bs → option_copied result ≡ ended_in (length line.now) bs }
{
    let kept = line.get(..came?)?;
    let text = without_cr(kept);
    if text.len() < 256 { Some(text) } else { None }
}

impl<const ROOM: usize> Held<ROOM> {
    // A line of which nothing has come.
    pub fn new() -> Held<ROOM>
        ensures { Holds result [] }
    {
        Held {
            bytes: [0; ROOM],
            length: Some(0),
        }
    }

    // The line has ended, and nothing of the next has come.
    pub fn clear(&mut self)
        ensures { Holds self.new [] }
    {
        self.length = Some(0);
    }

    // `take` into this buffer.
    pub fn take<'a>(&mut self, chunk: &'a [u8]) -> Option<&'a [u8]>
        ensures rest { option_copied result ≡ rest_of chunk.now }
        ensures shorter { IfSome result (λ rest. length rest.now < length chunk.now) }
        ensures holds { (bs : List ℕ) → Holds self.old bs → Holds self.new (bs ++ part_of chunk.now) }
    {
        take(chunk, &mut self.bytes, &mut self.length)
    }

    // `text` of this buffer.
    pub fn text(&self) -> Option<&[u8]>
        ensures inside_buffer { InsideBuffer (option_copied result) ROOM }
        ensures by_bytes { (bs : List ℕ) → Holds self.now bs → option_copied result ≡ ended_in ROOM bs }
    {
        text(&self.bytes, self.length)
    }
}
