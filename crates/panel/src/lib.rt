// The check of a job text on the operator panel: document 02 §5. The text comes in pieces, cut anywhere, and is never held whole: of the
// line that is being read a lent scratch buffer holds the first 81 bytes, enough to see that a line has more than 80. How far the check has
// come goes in by value and comes back by value. Between two calls the caller keeps the scratch buffer's first `held` bytes; its others are
// free, and all of them once a line is whole.
#![tactic(auto)]

ghost use Rattle.std.specs.Prelude.{◌≡◌, true, ◌≤◌, length};
ghost use Rattle.row.specs.computed.Buffer.{has_room};
ghost use Rattle.job.specs.computed.Check.{totals};
ghost use Rattle.panel.specs.computed.Over.{is_over};
ghost use Rattle.panel.specs.computed.Piece.{scratch_bytes, too_long, taken_of, kept_of, come_of, check_at, start_of, line_handed};
ghost use Rattle.panel.specs.computed.Piece.{last_handed, lines_handed, piece_of, short_of, Keeps, Hands, HandsAny, ReadsPiece};

use bench::Bench;
use job::Stage;
use reader::{LONGEST_LINE, LONGEST_TEXT};
use row::lines::has_room;
use tally::Tally;
use words::text::end_of_line;

// One byte more than a line may have, so that a longer one is seen to be longer.
pub const SCRATCH: usize = LONGEST_LINE as usize + 1;

#[derive(Clone, Copy)]
pub struct PanelCheck {
    pub stage: Stage,
    // Bytes that the text may still have: 65,536 at first.
    pub left: usize,
    // Bytes of the line being read that the scratch buffer holds: its first 81 at most.
    pub held: usize,
    pub tally: Tally,
}

// Whether the scratch buffer or the one for rows was too short, so that nothing was done; or whether there is more to come.
#[derive(Drop)]
pub enum Told {
    Short,
    More,
    Over,
}

// What the bytes taken come to: one more than a text may have; the end of the text; a line that goes on in the next piece; or a line that
// has come to its end, at an LF, which is a byte more, or at the end of the text.
#[derive(Drop)]
enum Come {
    TooMany,
    End,
    Wait,
    Line(usize),
}

// How many bytes of the piece were taken, how many of the buffer for rows were written, and how far the check has come.
#[derive(Drop)]
pub struct PieceRead {
    pub told: Told,
    pub took: usize,
    pub wrote: usize,
    pub check: PanelCheck,
}

// How many bytes of the piece are of the line: up to its LF, the end of the piece, or the last that the text may have.
fn taken(piece: &[u8], left: usize) -> usize
    ensures { result ≡ length (taken_of left piece.now) }
{
    let most = left.min(piece.len());
    end_of_line(&piece[..most], 0)
}

// Puts bytes of the line behind those that the scratch buffer holds, as far as there is room; answers how many it holds then.
fn keep(scratch: &mut [u8], held: usize, bytes: &[u8]) -> usize
    requires { scratch_bytes ≤ length scratch.old }
    ensures { Keeps (kept_of held scratch.old bytes.now) result scratch.new }
{
    let from = held.min(SCRATCH);
    let more = bytes.len().min(SCRATCH - from);
    row::push::text(scratch, from, &bytes[..more])
}

// Whether a byte stands behind those taken, how many the text may still have, whether the text ends with this piece, and how many bytes of
// the line are held.
fn come_to(more: bool, left: usize, last: bool, held: usize) -> Come
    ensures { result ≡ come_of more left last held }
{
    if more {
        if left == 0 {
            return Come::TooMany;
        }
        return Come::Line(1);
    }
    if !last {
        return Come::Wait;
    }
    if held == 0 {
        return Come::End;
    }
    Come::Line(0)
}

impl PanelCheck {
    // The check of a job that begins at this bench.
    #[tactic(auto, unfolding(crate::specs::computed::Piece::start_of))]
    pub fn start(bench: Bench) -> PanelCheck
        ensures { result ≡ start_of bench }
    {
        PanelCheck {
            stage: Stage::Header,
            left: LONGEST_TEXT,
            held: 0,
            tally: Tally::start(bench),
        }
    }

    // Whether all is handed out.
    pub fn is_over(self) -> bool
        ensures { result ≡ is_over self }
    {
        self.stage.is_over()
    }

    // The row of a line that has come to its end. Here and below the room stays a clause: `HandsAny` speaks of the lent buffer before and
    // after, which a type that held its loan with the fact could not give back in a PieceRead.
    fn row(self, line: &[u8], took: usize, out: &mut [u8]) -> PieceRead
        requires { has_room out.old 0 ≡ true }
        ensures { HandsAny (line_handed self.tally self.left took line.now) out.old result out.new }
    {
        let l = self.tally.read(line, out, 0);
        let (told, stage) = if l.over {
            (Told::Over, Stage::Over)
        } else {
            (Told::More, Stage::Lines)
        };
        PieceRead {
            told,
            took,
            wrote: l.next,
            check: PanelCheck {
                stage,
                left: self.left,
                held: 0,
                tally: l.tally.settled(),
            },
        }
    }

    // After the last row.
    fn last(self, took: usize, wrote: usize) -> PieceRead
        ensures { result ≡ record { told = Told.Over; took = took; wrote = wrote; check = check_at Stage.Over self.left 0 self.tally } }
    {
        PieceRead {
            told: Told::Over,
            took,
            wrote,
            check: PanelCheck {
                stage: Stage::Over,
                held: 0,
                ..self
            },
        }
    }

    // The last row of a text that has a byte too many.
    fn too_long(self, took: usize, out: &mut [u8]) -> PieceRead
        requires { has_room out.old 0 ≡ true }
        ensures { HandsAny (last_handed too_long self.tally self.left took) out.old result out.new }
    {
        let lines = self.tally.lines;
        if (LONGEST_TEXT as u64) < lines {
            return self.last(took, 0);
        }
        let place = row::lines::refused(out, 0, lines + 1, 30);
        self.last(took, place.unwrap_or(0))
    }

    // The last row of a text that was read to its end.
    fn total(self, took: usize, out: &mut [u8]) -> PieceRead
        requires { has_room out.old 0 ≡ true }
        ensures { HandsAny (last_handed totals self.tally self.left took) out.old result out.new }
    {
        let place = self.tally.total(out, 0);
        self.last(took, place.unwrap_or(0))
    }

    // Of a line that goes on the scratch buffer holds the first bytes.
    fn wait(self, took: usize) -> PieceRead
        ensures { result
            ≡ record { told = Told.More; took = took; wrote = 0; check = check_at Stage.Lines self.left self.held self.tally } }
    {
        PieceRead {
            told: Told::More,
            took,
            wrote: 0,
            check: PanelCheck {
                stage: Stage::Lines,
                ..self
            },
        }
    }

    // Takes bytes of the line being read, and writes its row where it has come to its end.
    fn line(self, scratch: &mut [u8], piece: &[u8], last: bool, out: &mut [u8]) -> PieceRead
        requires { (scratch_bytes ≤ length scratch.old) × (has_room out.old 0 ≡ true) }
        ensures { Hands (lines_handed self scratch.old piece.now last) out.old result
            scratch.new out.new }
    {
        let took = taken(piece, self.left);
        let held = keep(scratch, self.held, &piece[..took]);
        let check = PanelCheck {
            left: self.left - took,
            held,
            ..self
        };
        match come_to(took < piece.len(), check.left, last, held) {
            Come::TooMany => check.too_long(took, out),
            Come::End => check.total(took, out),
            Come::Wait => check.wait(took),
            Come::Line(lf) => {
                let left = check.left - lf;
                PanelCheck { left, ..check }.row(&scratch[..held], took + lf, out)
            }
        }
    }

    // A match and no closures, as in crate job.
    fn step(self, scratch: &mut [u8], piece: &[u8], last: bool, out: &mut [u8]) -> PieceRead
        requires { (scratch_bytes ≤ length scratch.old) × (has_room out.old 0 ≡ true) }
        ensures { Hands (piece_of self scratch.old piece.now last) out.old result
            scratch.new out.new }
    {
        match self.stage {
            Stage::Header => {
                let place = row::lines::header(out, 0);
                PieceRead {
                    told: Told::More,
                    took: 0,
                    wrote: place.unwrap_or(0),
                    check: PanelCheck {
                        stage: Stage::Lines,
                        held: self.held.min(SCRATCH),
                        ..self
                    },
                }
            }
            Stage::Lines => self.line(scratch, piece, last, out),
            Stage::Over => PieceRead {
                told: Told::Over,
                took: 0,
                wrote: 0,
                check: self,
            },
        }
    }

    // Nothing is done.
    fn short(self) -> PieceRead
        ensures { result ≡ short_of self }
    {
        PieceRead {
            told: Told::Short,
            took: 0,
            wrote: 0,
            check: self,
        }
    }

    // The next piece of the text, of any length, and whether the text ends with it. Bytes are taken up to the end of a line at most: what
    // is left of the piece, and what follows it, is for the next call. A row goes to the front of `out`; its later bytes stay.
    pub fn read(self, scratch: &mut [u8], piece: &[u8], last: bool, out: &mut [u8]) -> PieceRead
        ensures { ReadsPiece self scratch.old piece.now last out.old result scratch.new
            out.new }
    {
        if scratch.len() < SCRATCH || !has_room(out.len(), 0) {
            return self.short();
        }
        self.step(scratch, piece, last, out)
    }
}
