// Where key files come from.
ghost use Rattle.std.specs.Prelude.{◌≡◌, ◌≤◌, ℕ, List, length, IfOk, IfSome, option_map};
ghost use Rattle.std.specs.declared.option.Option.{Option};
ghost use Rattle.edge_io.specs.Counts.{next_listed, one_more};
ghost use Rattle.edge_io.specs.KeyFiles.{FetchCounts, FetchGives, fetched, is_failed};

use crate::FetchError;
use std::alloc::Global;

/// The most bytes of a key file that are fetched.
pub const MAX_KEY_FILE: usize = 1024;

/// Key files by path, which count their faults.
pub trait KeyFiles {
    /// Each file with its path, where they are told: of several files of one path the first counts.
    ghost files: { Self → Option (List (List ℕ × List ℕ)) };

    /// How often they have failed.
    ghost faults: { Self → ℕ };

    /// How many calls were made, where it is told; it stands still at the end of 64 bits.
    ghost calls: { Self → Option ℕ };

    /// The numbers of the calls that fail, from 0, where they are told.
    ghost failing: { Self → Option (List ℕ) };

    /// Gives the first 1024 bytes of the file at a path, of a shorter file all, and `Missing` where no file has
    /// this path. No answer changes a file. Where the calls that fail are told, the others don't fail.
    fn fetch(&mut self, alloc: Global, path: &str) -> Result<Vec<u8>, FetchError>
        ensures gives { IfSome (files self.old) (λ files. FetchGives result (fetched path.now files)) }
        ensures short { IfOk result (λ bytes. length bytes.items ≤ MAX_KEY_FILE) }
        ensures told { files self.new ≡ files self.old }
        ensures cause { FetchCounts (faults self.old) (faults self.new) result }
        ensures listed { IfSome (next_listed (calls self.old) (failing self.old)) (λ fails. is_failed result ≡ fails) }
        ensures counted { calls self.new ≡ option_map one_more (calls self.old) }
        ensures failing { failing self.new ≡ failing self.old };
}
