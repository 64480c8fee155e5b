// The text that the program `judge` prints, written into a lent buffer.
#![tactic(auto)]

ghost use Rattle.std.specs.Prelude.{◌≡◌, ◌+◌, ◌*◌, ◌≤◌, length};
ghost use Rattle.io.specs.Digits.{last_digits};
ghost use Rattle.traces.specs.Traces.{answer_size};
ghost use Rattle.report.specs.Text as T;
ghost use Rattle.report.specs.Inner as W;
ghost use Rattle.report.specs.Promises as P;

use effects::StepAnswer;
use monitor::Totals;
use refusal::Refusal;

// No text of a file is longer.
pub const LONGEST: usize = 52_125;

// The most decimal digits of a number, and the hexadecimal digits of a byte.
const MOST_DIGITS: usize = 20;

const HEX_DIGITS: usize = 2;

// A lent buffer, and the place behind what is written. What does not fit is counted and not stored. The count stops at
// `usize::MAX`, which no text of a file comes near.
#[derive(Drop)]
struct Writer<'a> {
    out: &'a mut [u8],
    at: usize,
}

impl<'a> Writer<'a> {
    fn bytes(&mut self, text: &[u8])
        ensures { W.Wrote self.old self.new text.now }
    {
        octets::store(self.out, self.at, text);
        self.at = self.at.saturating_add(text.len());
    }

    // `io` promises the digits. The writer is no `fmt::Write`: `write!` promises nothing of a text where it answers
    // `Err`, and no clause of it rules `Err` out.
    fn decimal(&mut self, n: u64)
        ensures { W.Wrote self.old self.new (T.decimal n) }
    {
        let mut digits = [0u8; MOST_DIGITS];
        let k = io::decimal(n, &mut digits);
        self.bytes(&digits[..k]);
    }

    // A byte in two hexadecimal digits.
    fn hex(&mut self, b: u8)
        ensures { W.Wrote self.old self.new (last_digits 16 2 b) }
    {
        let mut digits = [0u8; 16];
        let k = io::hex(b as u64, HEX_DIGITS, &mut digits);
        self.bytes(&digits[..k]);
    }

    // A byte, or `-` where it is not exposed.
    fn shown(&mut self, b: Option<u8>)
        ensures { W.Wrote self.old self.new (W.shown b) }
    {
        match b {
            Some(b) => self.hex(b),
            None => self.bytes(b"-"),
        }
    }

    fn line(&mut self, k: usize, a: StepAnswer)
        ensures { W.Wrote self.old self.new (T.line k a) }
    {
        let cpu = a.exposed % 2 == 1;
        let dma = a.exposed / 2 % 2 == 1;
        self.decimal(k as u64);
        self.bytes(b" ");
        self.decimal(a.cause as u64);
        self.bytes(b" ");
        self.shown(cpu.then_some(a.cpubyte));
        self.bytes(b" ");
        self.shown(dma.then_some(a.dmabyte));
        self.bytes(b"\n");
    }

    // The lines of the first n steps.
    fn lines(&mut self, room: &[u8], n: usize)
        requires { answer_size * n ≤ length room.now }
        ensures { W.Wrote self.old self.new (T.lines (W.answer_at room.now) n) }
    {
        for k in 0..n {
            self.line(k, answer_at(room, k));
        }
    }

    fn totals(&mut self, t: Totals)
        ensures { W.Wrote self.old self.new (T.totals_line t) }
    {
        self.bytes(b"steps ");
        self.decimal(t.steps as u64);
        self.bytes(b" resets ");
        self.decimal(t.resets as u64);
        self.bytes(b"\n");
    }

    fn refusal(&mut self, r: Refusal)
        ensures { W.Wrote self.old self.new (T.refused_line r) }
    {
        self.bytes(b"refused ");
        self.decimal(u64::from(r.reason.number()));
        self.bytes(b" ");
        self.decimal(r.place as u64);
        self.bytes(b"\n");
    }

    // The text of an answer, and of the room in which its steps' answers stand.
    fn tell(&mut self, o: Result<Totals, Refusal>, room: &[u8])
        requires { W.Tellable o (length room.now) }
        ensures { W.Wrote self.old self.new (W.text_of o room.now) }
    {
        match o {
            Ok(t) => {
                self.bytes(b"step cause cpu dma\n");
                self.lines(room, t.steps);
                self.totals(t);
            }
            Err(r) => self.refusal(r),
        }
    }
}

fn answer_at(room: &[u8], k: usize) -> StepAnswer
    requires { answer_size * k + answer_size ≤ length room.now }
    ensures { result ≡ W.answer_at room.now k }
{
    let at = traces::ANSWER * k;
    StepAnswer {
        cause: room[at],
        exposed: room[at + 1],
        cpubyte: room[at + 2],
        dmabyte: room[at + 3],
    }
}

// Judges a run file on lent memory and room, writes what `judge` prints of it, and answers the text's length. A shorter
// buffer gets the beginning of the text; bytes behind the text stay.
pub fn text(file: &[u8], memory: &mut [u8], room: &mut [u8], out: &mut [u8]) -> usize
    ensures { P.Writes file.now memory.old room.old out.old
        memory.new room.new out.new result }
{
    let o = runfile::judge(file, memory, room);
    let mut writer = Writer { out, at: 0 };
    writer.tell(o, room);
    writer.at
}
