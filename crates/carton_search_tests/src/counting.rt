ghost use Rattle.std.specs.Prelude.{◌≤◌};

use carton_base::{Motion, State};
use carton_judge::{GeometryJudge, Judge};
use carton_part::Verdict;

// A judge that hands each call to another, and counts the moves that it was asked of.
#[derive(Drop)]
pub struct CountingJudge<'a> {
    pub inner: GeometryJudge<'a>,
    pub moves: u32,
}

impl Judge for CountingJudge<'_> {
    ghost carton = { λ j. j.inner.carton.now };

    ghost slack = { λ j. j.inner.slack };

    fn state(&mut self, at: &State) -> Verdict {
        self.inner.state(at)
    }

    fn step(&mut self, motion: &Motion) -> Verdict {
        self.moves = self.moves.saturating_add(1);
        self.inner.step(motion)
    }
}
