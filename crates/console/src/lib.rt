// The program: standard input, cut into lines; each is answered as soon as it has ended.
#![tactic(auto)]

ghost use Rattle.std.specs.Prelude.{ℕ, ◌<◌, ◌-◌, ◌^◌, List, [], ◌≡◌, length, Some, IfOk, IfSome};
ghost use Rattle.std.specs.Io.KnownBytes.{Appends};
ghost use Rattle.gather.specs.Lines.{Holds};
ghost use Rattle.page.specs.Page.{seen};
ghost use Rattle.session.specs.Answering.{meant, Answers};
ghost use Rattle.console.specs.Stream.{Stream, before_input, after_line, answer_to, with_bytes, finished_by, InStep};
ghost use Rattle.console.specs.Written.{answers_to, last_answer, answers_of, Writes, ReadAnswered, AllAnswered};

use gather::Held;
use page::Page;
use session::Session;
use std::env::{Env, FillError};
use std::io;
use std::io::{Input, Read, Write};

// What an argument is answered, a line a write.
const USAGE: [&str; 11] = [
    "It takes no arguments: it answers lines of standard input, one by one.\n",
    "  word HEX8\n",
    "  tick HEX4 COMMAND at I32 SWITCHES STILL SET HEX8\n",
    "  sheet LENGTH METHOD FAST SLOW OFFSET NUM DEN LOWER UPPER MAX P1 N1 P2 N2 OPTION RATED\n",
    "  layout LAYOUT LENGTH METHOD FAST SLOW OFFSET NUM DEN LOWER UPPER MAX P1 N1 P2 N2 OPTION RATED [HOMING]\n",
    "  fresh\n",
    "  settings METHOD FAST SLOW OFFSET NUM DEN LOWER UPPER MAX P1 N1 P2 N2 OPTION RATED [HOMING]\n",
    "  rail CELLS CAM WIDTH FAST SLOW\n",
    "  run START TICKS\n",
    "  picture START TICKS\n",
    "docs/LINES.md says what each word of a line means.\n",
];

// A session, and the line that has not ended yet.
#[derive(Drop)]
struct Console {
    session: Session,
    held: Held<256>,
}

// Where answers are written, and how that went: after a write that failed, nothing more is written.
// Kept: the Result is held, and not handed on by `?` from `answer`, since `serve` promises where the session stands after the whole chunk, also where
// a write fails (`InStep`, specs/Stream.antt).
#[derive(Drop)]
struct Output<W> {
    writer: W,
    written: io::Result<()>,
}

impl<W: Write> Output<W> {
    fn write(&mut self, answer: &[u8])
        ensures { Writes W.contents self.old self.new answer.now }
    {
        if self.written.is_ok() {
            self.written = self.writer.write_all(answer);
        }
    }
}

impl Console {
    // Nothing has come yet.
    fn fresh() -> Console
        ensures { InStep result before_input }
    {
        Console {
            session: Session::fresh(),
            held: Held::new(),
        }
    }

    // Prints what a line that has ended is answered.
    fn reply(&mut self, page: &mut Page)
        ensures { (bs : List ℕ) → Holds self.old.held bs → Answers self.new.session (seen page.old) (seen page.new) (after_line (meant self.old.session) bs) (answer_to (meant self.old.session) bs) }
    {
        match self.held.text() {
            Some(text) => self.session.line(text, page),
            None => self.session.long_line(page),
        }
    }

    // Answers a line that has ended.
    fn answer<W: Write>(&mut self, output: &mut Output<W>)
        ensures session { (bs : List ℕ) → Holds self.old.held bs → meant self.new.session ≡ after_line (meant self.old.session) bs }
        ensures written { (bs : List ℕ) → Holds self.old.held bs → Writes W.contents output.old output.new (answer_to (meant self.old.session) bs) }
        ensures none_held { Holds self.new.held [] }
    {
        let mut bytes = [0u8; 1024];
        let mut page = Page::new(&mut bytes);
        self.reply(&mut page);
        self.held.clear();
        output.write(page.written());
    }

    // Answers each line that ends in the chunk.
    fn serve<W: Write>(&mut self, chunk: &[u8], output: &mut Output<W>)
        ensures { (st : Stream) → InStep self.old st → AllAnswered W.contents output.old output.new self.new chunk.now st }
    {
        let mut rest = chunk;
        while let Some(after) = self.held.take(rest) {
            self.answer(output);
            rest = after;
        }
    }

    // Reads once, and answers: how many bytes were read, 0 at the input's end.
    fn read_once<R: Read, W: Write>(
        &mut self,
        input: &mut R,
        output: &mut Output<W>,
    ) -> io::Result<usize>
        ensures { (st : Stream) → InStep self.old st → IfOk result (λ n. ReadAnswered R.remaining W.contents input.old input.new output.old output.new self.new n st) }
    {
        let mut chunk = [0u8; 65536];
        let n = input.read(&mut chunk)?;
        self.serve(&chunk[..n], output);
        output.written?;
        Ok(n)
    }

    // Reads and answers to the input's end. A proved loop has to end: no run uses up so many reads.
    fn read_all<R: Read, W: Write>(
        &mut self,
        input: &mut R,
        output: &mut Output<W>,
    ) -> io::Result<()>
        ensures { (st : Stream) (bs : List ℕ) → InStep self.old st → R.remaining input.old ≡ Some bs → length bs < 2 ^ 64 - 1
            → IfOk result (λ _. AllAnswered W.contents output.old output.new self.new bs st) }
    {
        for _read in 0..u64::MAX {
            if self.read_once(input, output)? == 0 {
                return Ok(());
            }
        }
        Ok(())
    }

    // The last line may have no end.
    fn finish<W: Write>(&mut self, output: &mut Output<W>)
        ensures session { (st : Stream) → InStep self.old st → meant self.new.session ≡ finished_by st.conversation st.line }
        ensures written { (st : Stream) → InStep self.old st → Writes W.contents output.old output.new (last_answer st.conversation st.line) }
    {
        if self.held.length != Some(0) {
            self.answer(output);
        }
    }
}

// Answers an input to its end, and gives the writer back.
pub fn converse<R: Read, W: Write + Drop>(input: &mut R, writer: W) -> io::Result<W>
    ensures { IfOk result (λ w. IfSome (R.remaining input.old) (λ bs. length bs < 2 ^ 64 - 1 → Appends (W.contents writer) (W.contents w) (answers_of bs))) }
{
    let mut console = Console::fresh();
    let mut output = Output {
        writer,
        written: Ok(()),
    };
    console.read_all(input, &mut output)?;
    console.finish(&mut output);
    output.written?;
    Ok(output.writer)
}

// Whether there is an argument after the program's name.
fn has_argument(rt: &impl Env) -> bool {
    let mut room = [0u8; 1];
    !matches!(rt.arg(1, &mut room), Err(FillError::NotPresent))
}

// The program itself. An argument is answered by what the program is for.
pub fn run(rt: &(impl Env + Input + Print)) -> io::Result<()> {
    if has_argument(rt) {
        for line in USAGE {
            rt.write_all(line.as_bytes())?;
        }
        Ok(())
    } else {
        converse(&mut rt.reader(), io::writer(rt))?;
        Ok(())
    }
}
