// Moves that were refused.
ghost use Rattle.std.specs.Prelude.{◌≡◌};
ghost use Rattle.ak_model.specs.Kernels.Repeats.{is_done, same_flags, same_move};

use ak_core::{Answer, Flags, Move};

/// The answer is Ok, a handle or an exit: the move was done.
pub(crate) fn is_done(a: &Answer) -> bool
    ensures { result ≡ is_done a.now }
{
    matches!(*a, Answer::Ok | Answer::OkHandle(_) | Answer::Exit(_))
}

/// The moves are equal.
pub(crate) fn is_same(m: &Move, n: &Move) -> bool
    ensures { result ≡ same_move m.now n.now }
{
    *m == *n
}
