// Where random bytes come from.
ghost use Rattle.std.specs.Prelude.{◌≡◌, ℕ, List, IfSome, OnErr, OnOk, is_err, option_map};
ghost use Rattle.std.specs.declared.option.Option.{Option};
ghost use Rattle.edge_io.specs.Counts.{next_listed, one_more};
ghost use Rattle.edge_io.specs.Entropy.{MovesNext, fill_fails};
ghost use Rattle.edge_io.specs.Faults.{HasCause};

use crate::Failed;

/// A source of random bytes that counts its faults.
pub trait Entropy {
    /// The bytes that are left, where they are told.
    ghost left: { Self → Option (List ℕ) };

    /// How often it has failed.
    ghost faults: { Self → ℕ };

    /// How many calls were made, where it is told; it stands still at the end of 64 bits.
    ghost calls: { Self → Option ℕ };

    /// The numbers of the calls that fail, from 0, where they are told.
    ghost failing: { Self → Option (List ℕ) };

    /// Moves the next 32 bytes to `out`. Where fewer are left, the call fails. A call that fails moves nothing.
    /// Where the bytes and the calls that fail are told, no other call fails.
    fn fill(&mut self, out: &mut [u8; 32]) -> Result<(), Failed>
        ensures moved { OnOk result (IfSome (left self.old) (λ bytes. MovesNext bytes (left self.new) out.new)) }
        ensures failed { OnErr result (left self.new ≡ left self.old) }
        ensures untouched { OnErr result (out.new ≡ out.old) }
        ensures cause { HasCause (faults self.old) (faults self.new) result }
        ensures fails { IfSome (fill_fails (left self.old) (next_listed (calls self.old) (failing self.old)))
            (λ fails. is_err result ≡ fails) }
        ensures counted { calls self.new ≡ option_map one_more (calls self.old) }
        ensures failing { failing self.new ≡ failing self.old };
}
