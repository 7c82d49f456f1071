//! Bytes that are signed for the file to which they are written.
ghost use Rattle.std.specs.Prelude.{◌≡◌};

use raft_log_record_base::LogFileContext;

/// Bytes that are signed for the file to which they are written.
pub trait ReactiveBytes {
    ghost use Rattle.std.specs.Prelude.{ℕ, List};
    ghost use Rattle.raft_log_record_base.specs.declared.pipe_log.LogFileContext.{LogFileContext};

    /// The value that is written, whatever file it is signed for.
    type Content;

    ghost said: { Self → Self.Content };

    ghost bytes: { Self → List ℕ };

    ghost signed: { Self → LogFileContext → List ℕ };

    /// Signs the bytes for a file.
    fn sign(&mut self, context: &LogFileContext)
        ensures bytes { bytes self.new ≡ signed self.old context.now }
        ensures same { signed self.new ≡ signed self.old }
        ensures said { said self.new ≡ said self.old };

    /// The bytes, as they are signed.
    fn as_bytes(&self) -> &[u8]
        ensures { result.now ≡ bytes self.now };
}
