// What is written to `answer`.
ghost use Rattle.std.specs.Prelude.{◌≡◌};
ghost use Rattle.linked.specs.Linked.{told};

// As many of the values as have room, to the start of `answer`.
#[tactic(auto, unfolding(crate::specs::Linked::told))]
pub fn tell(answer: &mut [u64], values: &[u64])
    ensures { answer.new ≡ told values.now answer.old }
{
    let n = values.len().min(answer.len());
    lane_loops::loops::copy_lanes(answer, values, n);
}
