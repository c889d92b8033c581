// The axis that the lines speak to, the settings and the rail of later runs, and the answer to each line.
#![tactic(auto)]

ghost use Rattle.std.specs.Prelude.{◌≡◌};
ghost use Rattle.lines.specs.Lines.{line_of};
ghost use Rattle.complaints.specs.Texts.{long_text};
ghost use Rattle.page.specs.Page.{seen, printed};
ghost use Rattle.session.specs.Answering.{meant, zero_settings, zero_rail, fresh_conversation, counted, drawn_text, conversation_after, text_of, Answers};

use carriage::Rail;
use cells::Lent;
use lines::Line;
use page::Page;
use settings::Settings;
use simulator::Trace;

#[derive(Clone, Copy)]
pub struct Session {
    // The axis's words.
    pub axis: Lent,
    // The settings and the rail of later runs.
    pub settings: Settings,
    pub rail: Rail,
    // Lines so far.
    pub lines: u64,
}

fn zero_settings() -> Settings
    ensures { result ≡ zero_settings }
{
    Settings {
        method: 0,
        fast: 0,
        slow: 0,
        offset: 0,
        numerator: 0,
        denominator: 0,
        lower: 0,
        upper: 0,
        maximum: 0,
        positive1: 0,
        negative1: 0,
        positive2: 0,
        negative2: 0,
        option: 0,
        rated: 0,
        homing: 0,
    }
}

fn zero_rail() -> Rail
    ensures { result ≡ zero_rail }
{
    Rail {
        length: 0,
        cam: 0,
        width: 0,
        fast: 0,
        slow: 0,
    }
}

// The picture of a run that is not refused.
#[tactic(auto, using(page::proofs::Printing::printed_nothing))]
fn drawn(page: &mut Page, rail: Rail, start: i32, trace: Trace)
    ensures { seen page.new ≡ printed (seen page.old) (drawn_text rail start trace) }
{
    if trace.outcome.number == 0 {
        drawing::picture(page, rail, start, trace);
    }
}

impl Session {
    pub fn fresh() -> Session
        ensures { meant result ≡ fresh_conversation }
    {
        let mut axis: Lent = [0; 39];
        axis::fresh(&mut axis);
        Session {
            axis,
            settings: zero_settings(),
            rail: zero_rail(),
            lines: 0,
        }
    }

    fn count_line(&mut self)
        ensures { meant self.new ≡ counted (meant self.old) }
    {
        self.lines = self.lines.wrapping_add(1);
    }

    #[tactic(auto, using(page::proofs::Printing::printed_nothing, page::proofs::Printing::printed_then))]
    fn act(&mut self, line: Line, page: &mut Page)
        ensures { Answers self.new (seen page.old) (seen page.new) (conversation_after (meant self.old) line) (text_of (meant self.old) line) }
    {
        match line {
            Line::Blank => {}
            Line::Fresh => {
                axis::fresh(&mut self.axis);
                page.text(b"fresh\n");
            }
            Line::Word(word) => {
                let verdict = axis::word(&mut self.axis, word);
                printer::word(page, settings::verdict_number(verdict));
            }
            Line::Tick(tick) => {
                let answer = axis::tick(&mut self.axis, tick);
                printer::tick(page, answer);
            }
            Line::Sheet(writing) => lent::write(page, b"sheet ", writing),
            Line::Layout(writing) => lent::write(page, b"layout ", writing),
            Line::Settings(settings) => {
                self.settings = settings;
                page.text(b"settings\n");
            }
            Line::Rail(rail) => {
                self.rail = rail;
                page.text(b"rail\n");
            }
            Line::Run(trial) => {
                let outcome = simulator::run(self.rail, self.settings, trial.start, trial.ticks);
                printer::run(page, b"run ", outcome);
            }
            Line::Picture(trial) => {
                let trace = simulator::follow(self.rail, self.settings, trial.start, trial.ticks);
                printer::run(page, b"picture ", trace.outcome);
                drawn(page, self.rail, trial.start, trace);
            }
            Line::Unreadable(trouble) => complaints::unreadable(page, self.lines, trouble),
        }
    }

    // A line, without its end, and its answer. One beyond 255 bytes is for `long_line`.
    pub fn line(&mut self, line: &[u8], page: &mut Page)
        ensures { Answers self.new (seen page.old) (seen page.new) (conversation_after (counted (meant self.old)) (line_of line.now)) (text_of (counted (meant self.old)) (line_of line.now)) }
    {
        self.count_line();
        self.act(lines::read(line), page);
    }

    // A line of more than 255 bytes.
    pub fn long_line(&mut self, page: &mut Page)
        ensures { Answers self.new (seen page.old) (seen page.new) (counted (meant self.old)) (long_text (counted (meant self.old)).lines) }
    {
        self.count_line();
        complaints::too_long(page, self.lines);
    }
}
