//! What doesn't depend on how many workers read the segments: each law is a function without a body.

ghost use Rattle.std.specs.Prelude.{ℕ, List};
ghost use Rattle.raft_log_replay.specs.Segments.{HaveReadSame, HasReadSegments, HoldsOne};

use crate::machine::ReplayMachine;
use crate::source::ReplaySource;

/// Any two numbers of workers have the same result. Suppose that each segment holds one list of batches. Then two
/// readings of all segments have read the same batches in the same order, and have the same endings.
pub fn workers_are_invisible<S: ReplaySource, M: ReplayMachine>()
    ensures { (source : S) → HoldsOne (S.holds source) → (count : ℕ) (m n : M) (es fs : List S.Ending)
        → HasReadSegments (S.holds source) (M.reads (S.queue_of source)) 0 count m es
        → HasReadSegments (S.holds source) (M.reads (S.queue_of source)) 0 count n fs
        → HaveReadSame (M.reads (S.queue_of source)) m es n fs }
{}
