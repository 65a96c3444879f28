// Questions 34 to 37 about a line of words, and the number of the first "no" from 31 on.
ghost use Rattle.std.specs.Prelude.{◌≡◌, ◌&&◌};
ghost use Rattle.reader.specs.computed.Reader.{motion_right, on_pulse, all_on_pulse, all_known, centre_right, line_no};
ghost use Rattle.reader.specs.Reader.{end_stands, centre_stands, moving, is_arc};
ghost use Rattle.reader.specs.computed.Small.{Small, SmallWords};

use crate::{LONGEST_LINE, Motion, Reader};
use letters::word::{Word, Words};
use words::line::Line;

fn motion_right(g: Word) -> bool
    ensures { result ≡ motion_right g }
{
    !g.stands || (1 <= g.magnitude && g.magnitude <= 3)
}

fn on_pulse(scale: u64, w: Word) -> bool
    requires { Small scale w }
    ensures { result ≡ on_pulse scale w }
{
    w.magnitude * scale % 1_000 == 0
}

// Most lines have no centre: a word that does not stand has the magnitude 0, which takes no product to tell.
fn centre_on_pulse(scale: u64, ws: Words) -> bool
    requires { SmallWords scale ws }
    ensures { result ≡ (on_pulse scale ws.i && on_pulse scale ws.j) }
{
    (ws.i.magnitude == 0 && ws.j.magnitude == 0) || (on_pulse(scale, ws.i) && on_pulse(scale, ws.j))
}

fn all_on_pulse(scale: u64, ws: Words) -> bool
    requires { SmallWords scale ws }
    ensures { result ≡ all_on_pulse scale ws }
{
    on_pulse(scale, ws.x) && on_pulse(scale, ws.y) && centre_on_pulse(scale, ws)
}

fn end_stands(ws: Words) -> bool
    ensures { result ≡ end_stands ws }
{
    ws.x.stands || ws.y.stands
}

fn centre_stands(ws: Words) -> bool
    ensures { result ≡ centre_stands ws }
{
    ws.i.stands || ws.j.stands
}

pub fn moves(ws: Words) -> bool
    ensures { result ≡ moving ws }
{
    end_stands(ws) || centre_stands(ws)
}

pub fn is_arc(m: Option<Motion>) -> bool
    ensures { result ≡ is_arc m }
{
    matches!(m, Some(Motion::Arc(_)))
}

fn all_known(k: Reader, ws: Words) -> bool
    ensures { result ≡ all_known k ws }
{
    !moves(ws) || (k.motion.is_some() && k.feed.is_some())
}

fn centre_right(m: Option<Motion>, ws: Words) -> bool
    ensures { result ≡ centre_right m ws }
{
    if is_arc(m) {
        !end_stands(ws) || centre_stands(ws)
    } else {
        !centre_stands(ws)
    }
}

// k is the reader after the line.
#[tactic(auto, unfolding(crate::specs::computed::Reader::line_no))]
pub fn line_no(scale: u64, k: Reader, bytes: u64, l: Line) -> u64
    requires { SmallWords scale l.words }
    ensures { result ≡ line_no scale k bytes l }
{
    if LONGEST_LINE < bytes {
        return 31;
    }
    if !l.formed {
        return 32;
    }
    if !l.once {
        return 33;
    }
    if !motion_right(l.words.g) {
        return 34;
    }
    if !all_on_pulse(scale, l.words) {
        return 35;
    }
    if !all_known(k, l.words) {
        return 36;
    }
    if !centre_right(k.motion, l.words) {
        return 37;
    }
    0
}
