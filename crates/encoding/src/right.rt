// Whether words are a record's own: each that is no position has a value that `encode` writes. So nothing need be encoded again to know it.
ghost use Rattle.std.specs.Prelude.{◌≡◌};
ghost use Rattle.encoding.specs.computed.Right.{is_mark, head_right, nothing_right, line_right, arc_right, work_right, parts_right};

use crate::encode::{ABI, Head, WorkWords};
use crate::number::is_count;

fn is_mark(word: i64) -> bool
    ensures { result ≡ is_mark word }
{
    word == 0 || word == 1
}

#[tactic(auto, unfolding(crate::specs::computed::Right::head_right))]
pub fn head_right(h: Head) -> bool
    ensures { result ≡ head_right h }
{
    is_count(h.p) && is_count(h.w) && is_mark(h.mark) && is_count(h.remainder)
}

fn nothing_right(w: WorkWords) -> bool
    ensures { result ≡ nothing_right w }
{
    w.a == 0 && w.b == 0 && w.c == 0 && w.d == 0 && w.e == 0 && w.f == 0 && w.g == 0
}

fn line_right(w: WorkWords) -> bool
    ensures { result ≡ line_right w }
{
    is_count(w.e) && is_count(w.f) && is_count(w.g)
}

fn arc_right(w: WorkWords) -> bool
    ensures { result ≡ arc_right w }
{
    is_count(w.c) && is_count(w.f) && w.g == 0
}

#[tactic(auto, unfolding(crate::specs::computed::Right::work_right))]
pub fn work_right(w: WorkWords) -> bool
    ensures { result ≡ work_right w }
{
    if w.kind == 0 {
        return nothing_right(w);
    }
    if w.kind == 1 {
        return line_right(w);
    }
    (w.kind == 2 || w.kind == 3) && arc_right(w)
}

#[tactic(auto, unfolding(crate::specs::computed::Right::parts_right))]
pub fn words_right(abi: i64, h: Head, w: WorkWords) -> bool
    ensures { result ≡ parts_right abi h w }
{
    abi == ABI && head_right(h) && work_right(w)
}
