// Numbers on a page.
//
// Kept: std's `Display` prints numbers too, but promises its text only where `fmt` answers Ok, and no clause of std says that it does on a page that
// never fails. An answer is promised always (`Answers`, session/specs/Answering.antt), so its numbers are printed here.
ghost use Rattle.std.specs.Prelude.{ℕ, List, ◌++◌, ◌≤◌, ◌<◌, ◌≡◌};
ghost use Rattle.numerals.specs.Writing as writing;
ghost use Rattle.page.specs.Page.{seen, printed};

use crate::Page;

// A number that is printed in decimal.
pub trait Figure: Copy {
    ghost figures: { Self → List ℕ };

    fn print(self, page: &mut Page)
        ensures { seen page.new ≡ printed (seen page.old) (figures self) };
}

impl Figure for u64 {
    ghost figures = { writing.decimal };

    // 20 digits hold every one.
    fn print(self, page: &mut Page) {
        page.digits(self, 10, false, 20);
    }
}

impl Figure for u32 {
    ghost figures = { writing.decimal };

    fn print(self, page: &mut Page) {
        (self as u64).print(page);
    }
}

impl Figure for i32 {
    ghost figures = { writing.whole };

    #[tactic(auto, using(crate::proofs::Printing::printed_then))]
    fn print(self, page: &mut Page) {
        if self < 0 {
            page.byte(b'-');
        }
        self.unsigned_abs().print(page);
    }
}

// A digit below 16, in upper case.
fn glyph(digit: u64) -> u8
    requires { digit < 16 }
    ensures { result ≡ writing.glyph digit }
{
    if digit < 10 {
        b'0' + digit as u8
    } else {
        b'A' - 10 + digit as u8
    }
}

impl Page<'_> {
    // A number after its name.
    #[tactic(auto, using(crate::proofs::Printing::printed_then))]
    pub fn named<F: Figure>(&mut self, name: &[u8], number: F)
        ensures { seen self.new ≡ printed (seen self.old) (name.now ++ F.figures number) }
    {
        self.text(name);
        number.print(self);
    }

    // The last `places` hexadecimal digits.
    pub fn hexadecimal(&mut self, number: u64, places: usize)
        ensures { seen self.new ≡ printed (seen self.old) (writing.hexadecimal places number) }
    {
        self.digits(number, 16, true, places);
    }

    // The last `places` digits in a base, with the zeros in front of a number's own digits or without them.
    #[tactic(auto, using(crate::proofs::Printing::printed_then, crate::proofs::Printing::printed_nothing, crate::proofs::Last::no_digits, crate::proofs::Last::higher_and_last, crate::proofs::Last::last_alone))]
    fn digits(&mut self, number: u64, base: u64, zeros: bool, places: usize)
        requires base_nonzero { 0 < base }
        requires base_bound { base ≤ 16 }
        ensures { seen self.new ≡ printed (seen self.old) (writing.digits base zeros places number) }
    {
        if places == 0 {
            return;
        }
        if zeros | (base <= number) {
            self.digits(number / base, base, zeros, places - 1);
        }
        self.byte(glyph(number % base));
    }
}
