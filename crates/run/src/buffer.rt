// The bytes of a run.
ghost use Rattle.std.specs.Prelude.{◌≡◌, ◌≤◌, length};
ghost use Rattle.run.specs.computed.Gap.{cleared_of};

// The bytes of ticks without a cycle.
#[tactic(auto, using(std::proofs::lemmas::Slice::overwrites), unfolding(crate::specs::computed::Gap::cleared_of))]
pub fn clear(out: &mut [u8], n: u64)
    requires { n ≤ length out.old }
    ensures { out.new ≡ cleared_of n out.old }
{
    out[..n as usize].fill(0);
}
