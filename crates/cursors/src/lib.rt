// A line's text, read word by word.
#![tactic(auto)]

ghost use Rattle.std.specs.Prelude.{◌≡◌};
ghost use Rattle.cursors.specs.Names.{name_of};
ghost use Rattle.cursors.specs.Place.{place_of, line_start, span_at, bytes_at, past, at_end};
ghost use Rattle.cursors.specs.Trouble.{trouble_at};
ghost use Rattle.cursors.specs.Reading.{judged, end_read};

// What a line was to have where it cannot be read further.
#[derive(Clone, Copy)]
pub enum Expected {
    Keyword,
    Digits,
    Whole,
    Float,
    Command,
    At,
    Switches,
    Standstill,
    Set,
    End,
}

// A word that is not accepted: the place where it begins, and what was expected there.
#[derive(Clone, Copy)]
pub struct Trouble {
    pub at: usize,
    pub expected: Expected,
}

// A word, and the place where it begins; where none is left it is empty, at the end of the text.
// Kept: a missing word is an empty word at the end of the text, and no Option: it is refused in its place like any other.
#[derive(Clone, Copy)]
pub struct Word<'a> {
    pub at: usize,
    pub bytes: &'a [u8],
}

// A text, and the place from which its next word is looked for. Each reading moves past the words that it takes, also past one that it does not accept.
#[derive(Clone, Copy)]
pub struct Cursor<'a> {
    pub text: &'a [u8],
    pub at: usize,
}

impl Word<'_> {
    // The word as text; empty where its bytes are none.
    // Kept: the empty text, and no Option: no name is empty, so that the arms of a match on it read the same, and an Option would put `Some` round each name.
    pub fn name(&self) -> &str
        ensures { result.now ≡ name_of self.now.bytes.now }
    {
        match std::str::from_utf8(self.bytes) {
            Ok(name) => name,
            Err(_) => "",
        }
    }

    pub fn trouble(&self, expected: Expected) -> Trouble
        ensures { result ≡ trouble_at self.now.at expected }
    {
        Trouble {
            at: self.at,
            expected,
        }
    }

    // Nothing, where the word is accepted.
    pub fn judge(&self, accepted: bool, expected: Expected) -> Result<(), Trouble>
        ensures { result ≡ judged self.now.at accepted expected }
    {
        if accepted {
            Ok(())
        } else {
            Err(self.trouble(expected))
        }
    }
}

impl<'a> Cursor<'a> {
    pub fn new(text: &'a [u8]) -> Cursor<'a>
        ensures { place_of result ≡ line_start text.now }
    {
        Cursor { text, at: 0 }
    }

    // The next word, and past it.
    pub fn next(&mut self) -> Word<'a>
        ensures at { result.at ≡ (span_at (place_of self.old)).start }
        ensures bytes { result.bytes.now ≡ bytes_at (place_of self.old) }
        ensures moved { place_of self.new ≡ past (place_of self.old) }
    {
        let word = tokens::next(self.text, self.at);
        self.at = word.end;
        Word {
            at: word.start,
            bytes: &self.text[word.start..word.end],
        }
    }

    // Whether no word is left.
    pub fn at_end(&self) -> bool
        ensures { result ≡ at_end (place_of self.now) }
    {
        let word = tokens::next(self.text, self.at);
        word.start == self.text.len()
    }

    // Accepted where no word is left.
    #[tactic(auto, unfolding(crate::specs::Reading::end_read))]
    pub fn end(&mut self) -> Result<(), Trouble>
        ensures { (result, place_of self.new) ≡ end_read (place_of self.old) }
    {
        let word = self.next();
        word.judge(word.at == self.text.len(), Expected::End)
    }
}
