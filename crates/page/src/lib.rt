// A page, to which text is appended. What does not fit is cut off.
#![tactic(auto)]

ghost use Rattle.std.specs.Prelude.{◌≤◌, length};

pub mod figures;
pub mod straight;

pub use figures::Figure;
pub use straight::print;

// On bytes that the caller lends, as many as there are.
// Kept: bytes with a count beside them, since memory is fixed and a page may have any size: a `Vec` needs a heap.
#[derive(Drop)]
pub struct Page<'a> {
    bytes: &'a mut [u8],
    // How many of them are written.
    end: usize,
    pub ghost inside: { end ≤ length bytes.now },
}

impl<'a> Page<'a> {
    ghost use Rattle.std.specs.Prelude.{◌∷◌, [], ◌≡◌};
    ghost use Rattle.page.specs.Page.{seen, blank, written_to, printed};

    // Nothing is written yet.
    pub fn new(bytes: &'a mut [u8]) -> Page<'a>
        ensures { seen result ≡ blank bytes.old bytes.entry.ghost_name }
    {
        Page { bytes, end: 0 }
    }

    // Written up to a place; to its end, where the place is past that: nothing fits there.
    pub fn from(bytes: &'a mut [u8], at: usize) -> Page<'a>
        ensures { seen result ≡ written_to at bytes.old bytes.entry.ghost_name }
    {
        let end = at.min(bytes.len());
        Page { bytes, end }
    }

    pub fn written(&self) -> &[u8]
        ensures { result.now ≡ (seen self.now).text }
    {
        &self.bytes[..self.end]
    }

    // One byte; nothing where the page is full.
    #[tactic(auto, using(crate::proofs::Printing::printed_byte, crate::proofs::Printing::printed_full))]
    pub fn byte(&mut self, byte: u8)
        ensures { seen self.new ≡ printed (seen self.old) (byte ∷ []) }
    {
        if self.end < self.bytes.len() {
            self.bytes[self.end] = byte;
            self.end += 1;
        }
    }

    #[tactic(auto, using(crate::proofs::Printing::printed_more, crate::proofs::Printing::printed_nothing))]
    pub fn text(&mut self, text: &[u8])
        ensures { seen self.new ≡ printed (seen self.old) text.now }
    {
        for byte in text {
            self.byte(*byte);
        }
    }
}
