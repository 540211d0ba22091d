// What a run takes from, and how.
ghost use Rattle.std.specs.Prelude.{◌≡◌, ℕ, List, [], ◌∷◌, true, Some, IfErr, IfOk, IfSome, if◌then◌else◌};
ghost use Rattle.std.specs.Result.{result_err};
ghost use Rattle.edge_io.specs.Counts.{next_listed};
ghost use Rattle.edge_io.specs.Entropy.{fill_fails};
ghost use Rattle.edge_io.specs.Faults.{Rose};
ghost use Rattle.edge_io.specs.KeyFiles.{fetched as fetched_at};
ghost use Rattle.edge_io.specs.Told.{unread};
ghost use Rattle.key_machine.specs.Fair.{WasAsked, SeedWasAsked};
ghost use Rattle.shell_run.specs.Answers.{Acts, Fetches, Fills, FillsFrom, IsCalled, Reads, fetch_fails, is_fault, is_seed_fault};
ghost use Rattle.shell_run.specs.Endings.{SourceFaults};
ghost use Rattle.shell_run.specs.Outer.{Calls, Outer, calls_of};
ghost use Rattle.shell_run.specs.Progress.{IsNextLine, NoneTaken};
ghost use Rattle.shell_run.specs.Script.{ToldScript, script_of};
ghost use Rattle.shell_run.specs.Takings.{is_fetch, is_fill};
ghost use Rattle.shell_run.specs.Transcript.{material_of};

use crate::ending::{Ending, Halt};
use crate::found::{Found, FoundEntry};
use crate::script::{take_line, take_prompt};
use dataset_tree::NoMemory;
use edge_io::{Entropy, FetchError, KeyFiles, LineReader, Source};
use encryption_roots::{Fetched, Location, Material, PathText, SeedGot};
use std::alloc::{AllocError, Global};

/// The objects that a run takes from: its script, key files and entropy, and the list of the takings that failed.
pub(crate) trait Outside {
    /// What is told of key files, entropy and the list.
    ghost told: { Self → Outer };

    /// What is told of the script.
    ghost script: { Self → ToldScript };

    /// The count of faults of the script's source.
    ghost faults: { Self → ℕ };

    /// The references that it holds, by their names: it goes on holding the same.
    ghost holds: { Self → List ℕ };

    /// The number of the next line.
    fn next(&self) -> u32
        ensures { result ≡ (script self.now).next };

    /// Takes the next line of the script. An `Err` says how the run ends.
    fn take_line(&mut self) -> Result<Vec<u8>, Ending>
        ensures line { IfOk result (λ line. IsNextLine line.items (script self.old) (script self.new)) }
        ensures none { IfErr result (λ ending. NoneTaken ending (script self.old) (script self.new)) }
        ensures faults { SourceFaults (result_err result) (faults self.old) (faults self.new) }
        ensures told { told self.new ≡ told self.old }
        ensures holds { holds self.new ≡ holds self.old };

    /// Fetches the key material at a place, as this taking: from a file, or from the next line of the script.
    fn fetch(&mut self, alloc: Global, place: &Location, entry: FoundEntry) -> Result<Fetched, Halt>
        requires { is_fetch entry.what ≡ true }
        ensures takes { Acts entry.line (told self.old) (told self.new)
            (Fetches result entry (Some place.now) (told self.old).files (script self.old) (script self.new)) }
        ensures reads { Reads (result_err result) (script self.old) (script self.new) (faults self.old)
            (faults self.new) }
        ensures asked { IfOk result (λ fetched. WasAsked fetched) }
        ensures fault { result ≡ Ok Fetched.Fault → Rose (told self.old).fetches.faults (told self.new).fetches.faults }
        ensures holds { holds self.new ≡ holds self.old };

    /// Takes 32 random bytes, if they are wanted, as this taking.
    fn fill(&mut self, is_wanted: bool, entry: FoundEntry) -> Result<SeedGot, NoMemory>
        requires { is_fill entry.what ≡ true }
        ensures takes { Acts entry.line (told self.old) (told self.new)
            (Fills result entry is_wanted (told self.old).entropy) }
        ensures asked { IfOk result (λ seed. is_wanted ≡ true → SeedWasAsked seed) }
        ensures fault { result ≡ Ok SeedGot.Fault → Rose (told self.old).fills.faults (told self.new).fills.faults }
        ensures script { script self.new ≡ script self.old }
        ensures faults { faults self.new ≡ faults self.old }
        ensures holds { holds self.new ≡ holds self.old };
}

/// What is lent to a run, with a reader of the script and the number of the next line. Each reference has a
/// lifetime of its own.
#[derive(Drop)]
pub(crate) struct Lent<'r, 's, 'f, 'e, 'l, S: Source, F: KeyFiles, E: Entropy> {
    pub(crate) next: u32,
    pub(crate) reader: &'r mut LineReader,
    pub(crate) source: &'s mut S,
    pub(crate) files: &'f mut F,
    pub(crate) entropy: &'e mut E,
    pub(crate) found: &'l mut Found,
}

impl<S: Source, F: KeyFiles, E: Entropy> Outside for Lent<'_, '_, '_, '_, '_, S, F, E> {
    ghost told = { λ lent. record {
      files = F.files lent.files.now;
      fetches = calls_of (F.calls lent.files.now) (F.failing lent.files.now) (F.faults lent.files.now);
      entropy = E.left lent.entropy.now;
      fills = calls_of (E.calls lent.entropy.now) (E.failing lent.entropy.now) (E.faults lent.entropy.now);
      found = lent.found.now;
    } };

    ghost script = { λ lent. script_of lent.next (unread lent.reader.now (S.left lent.source.now)) };

    ghost faults = { λ lent. S.faults lent.source.now };

    ghost holds = { λ lent. lent.source.ghost_name ∷ lent.files.ghost_name ∷ lent.entropy.ghost_name
        ∷ lent.found.ghost_name ∷ [] };

    fn next(&self) -> u32 {
        self.next
    }

    fn take_line(&mut self) -> Result<Vec<u8>, Ending> {
        take_line(&mut self.next, self.reader, self.source)
    }

    fn fetch(
        &mut self,
        alloc: Global,
        place: &Location,
        entry: FoundEntry,
    ) -> Result<Fetched, Halt> {
        match place {
            Location::Prompt => {
                match take_prompt(alloc, &mut self.next, self.reader, self.source) {
                    Ok(material) => Ok(Fetched::Got(Material::new(material))),
                    Err(halt) => Err(halt),
                }
            }
            Location::File(path) => {
                self.found.push(entry)?;
                let fetched = fetch_file(alloc, self.files, path);
                self.found.settle(has_failed(&fetched));
                match fetched {
                    Ok(fetched) => Ok(fetched),
                    Err(_) => Err(Halt::NoMemory),
                }
            }
        }
    }

    fn fill(&mut self, is_wanted: bool, entry: FoundEntry) -> Result<SeedGot, NoMemory> {
        if !is_wanted {
            return Ok(SeedGot::NotAsked);
        }
        self.found.push(entry)?;
        let seed = fill_seed(self.entropy);
        self.found.settle(is_seed_fault(&seed));
        Ok(seed)
    }
}

/// Fetches a key file.
fn fetch_file<F: KeyFiles>(
    alloc: Global,
    files: &mut F,
    path: &PathText,
) -> Result<Fetched, NoMemory>
    ensures material { IfOk result (λ fetched. IfSome (F.files files.old) (λ told.
        fetched ≡ (if is_fault fetched then Fetched.Fault else material_of (fetched_at path.now told)))) }
    ensures call { let before : Calls = calls_of (F.calls files.old) (F.failing files.old) (F.faults files.old) in
        let after : Calls = calls_of (F.calls files.new) (F.failing files.new) (F.faults files.new) in
        IsCalled (next_listed (F.calls files.old) (F.failing files.old)) (fetch_fails result) before after }
    ensures files { F.files files.new ≡ F.files files.old }
    ensures asked { IfOk result (λ fetched. WasAsked fetched) }
{
    match files.fetch(alloc, path.as_str()) {
        Ok(bytes) => Ok(Fetched::Got(Material::new(bytes))),
        Err(FetchError::Missing) => Ok(Fetched::Missing),
        Err(FetchError::Failed) => Ok(Fetched::Fault),
        Err(FetchError::NoMemory) => Err(AllocError),
    }
}

/// Takes 32 random bytes.
fn fill_seed<E: Entropy>(entropy: &mut E) -> SeedGot
    ensures seed { IfSome (E.left entropy.old) (λ left. FillsFrom left (E.left entropy.new) result) }
    ensures call { let before : Calls = calls_of (E.calls entropy.old) (E.failing entropy.old) (E.faults entropy.old) in
        let after : Calls = calls_of (E.calls entropy.new) (E.failing entropy.new) (E.faults entropy.new) in
        IsCalled (fill_fails (E.left entropy.old) (next_listed (E.calls entropy.old) (E.failing entropy.old)))
        (is_seed_fault result) before after }
    ensures asked { SeedWasAsked result }
{
    let mut seed = [0; 32];
    match entropy.fill(&mut seed) {
        Ok(()) => SeedGot::Got(seed),
        Err(_) => SeedGot::Fault,
    }
}

fn has_failed(fetched: &Result<Fetched, NoMemory>) -> bool
    ensures { result ≡ fetch_fails fetched.now }
{
    matches!(fetched, Ok(Fetched::Fault))
}

fn is_seed_fault(seed: &SeedGot) -> bool
    ensures { result ≡ is_seed_fault seed.now }
{
    matches!(seed, SeedGot::Fault)
}
