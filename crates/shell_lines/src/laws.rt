// Laws of the language, above the definitions that `parse_line` is proved against.
ghost use Rattle.std.specs.Prelude.{◌≡◌, ◌≢◌, ◌∷◌, ℕ, ◌<◌, ◌↔◌, true, false, List, [], None, Some, length, slice_index};
ghost use Rattle.std.specs.List.{All};
ghost use lib.Chars.{codes};
ghost use Rattle.dataset_tree.specs.declared.kinds.Format.TheVariants.{Hex, Passphrase};
ghost use Rattle.encryption_roots.specs.Options.{no_options};
ghost use Rattle.encryption_roots.specs.declared.props.Location.TheVariants.{Prompt, File};
ghost use Rattle.shell_lines.specs.declared.line.Line.{Line};
ghost use Rattle.shell_lines.specs.declared.line.Line.TheVariants.{Silent, Create, LoadKey, LoadBelow, LoadAll, UnloadBelow, ChangeKey, InheritKey, Touch, Remove, Write, Read, Truncate, Files, Verify, Snapshot, Clone, Destroy};
ghost use Rattle.shell_lines.specs.Words.{words_of};
ghost use Rattle.shell_lines.specs.Runs.{IsRun, IsInWord, StandFrom};
ghost use Rattle.shell_lines.specs.Commands.{commands};
ghost use Rattle.shell_lines.specs.Grammar.{line_of};
ghost use Rattle.shell_lines.specs.Language.{IsLine, IsFirstWrong, IsFirstUnprintable, IsComment, IsPlain, texts_of};
ghost use Rattle.shell_lines.specs.Sized.{HasRecordSize};

/// The law of the offset at which bytes stop to spell a line: it is that of the first byte outside 0x20 to
/// 0x7e, else of the first word that can't stand where it stands, else, where a word is missing, the line's
/// length.
pub fn bad_at_the_first_wrong_word()
    ensures comment { (bytes : List ℕ) (inside : ℕ) → IsComment bytes → line_of bytes inside ≡ Ok Silent }
    ensures unprintable { (bytes : List ℕ) (inside at : ℕ) → ¬ IsComment bytes → IsFirstUnprintable bytes at
        → line_of bytes inside ≡ Err at }
    ensures line { (bytes : List ℕ) (line : Line) → IsPlain bytes
        → (line_of bytes 0 ≡ Ok line ↔ IsLine commands (texts_of (words_of bytes)) line) }
    ensures wrong { (bytes : List ℕ) (at : ℕ) → IsPlain bytes
        → (line_of bytes 0 ≡ Err at ↔ IsFirstWrong commands (words_of bytes) (length bytes) at) }
    ensures blank { (bytes : List ℕ) (inside : ℕ) → IsPlain bytes → words_of bytes ≡ []
        → line_of bytes inside ≡ Ok Silent }
    ensures inside { (bytes : List ℕ) (inside : ℕ) → IsPlain bytes → 0 < inside → words_of bytes ≢ []
        → line_of bytes inside ≡ Err 0 }
{}

/// Values of the language: what sample options say.
pub fn options_say_what_they_spell()
    ensures passphrase { line_of
        (codes "create -o pbkdf2iters=0100000 -o keylocation=prompt -o keyformat=passphrase t") 0
        ≡ Ok (Create (codes "t") (record no_options
        { format = Some Passphrase; place = Some Prompt; iters = Some 100000 })) }
    ensures hex { line_of (codes "create -o keyformat=hex t") 0
        ≡ Ok (Create (codes "t") (record no_options { format = Some Hex })) }
    ensures tested { line_of (codes "load-key -n t") 0 ≡ Ok (LoadKey (codes "t") true None) }
    ensures fetched { line_of (codes "load-key -L file:///k t") 0
        ≡ Ok (LoadKey (codes "t") false (Some (File (codes "/k")))) }
    ensures once { line_of (codes "load-key -n -n t") 0 ≡ Err 12 }
    ensures below { line_of (codes "load-key -n -r t") 0 ≡ Ok (LoadBelow (codes "t") true) }
    ensures everywhere { line_of (codes "load-key -a") 0 ≡ Ok (LoadAll false) }
    ensures unloaded { line_of (codes "unload-key -r t") 0 ≡ Ok (UnloadBelow (codes "t")) }
    ensures changed { line_of (codes "change-key -o keylocation=file:///k -l -o pbkdf2iters=100000 t") 0
        ≡ Ok (ChangeKey (codes "t") (record no_options {
          place = Some (File (codes "/k"));
          iters = Some 100000;
        }) true) }
    ensures inherited { line_of (codes "change-key -l -i t") 0 ≡ Ok (InheritKey (codes "t") true) }
    ensures kept { line_of (codes "change-key -o keyformat=hex -i t") 0 ≡ Err 28 }
{}

/// Values of the language: what sample lines on files say.
#[tactic(auto, unfolding(hex::specs::Hex::decode_pairs))]
pub fn file_lines_say_what_they_spell()
    ensures made { line_of (codes "touch t f") 0 ≡ Ok (Touch (codes "t") (codes "f")) }
    ensures removed { line_of (codes "rm t f") 0 ≡ Ok (Remove (codes "t") (codes "f")) }
    ensures written { line_of (codes "write t f 0010 0aFf") 0
        ≡ Ok (Write (codes "t") (codes "f") 10 (10 ∷ 255 ∷ [])) }
    ensures odd { line_of (codes "write t f 0 abc") 0 ≡ Err 12 }
    ensures no_digit { line_of (codes "write t f 0 0g") 0 ≡ Err 12 }
    ensures no_bytes { line_of (codes "write t f 0") 0 ≡ Err 11 }
    ensures eleven { line_of (codes "write t f 00000000000 01") 0 ≡ Err 10 }
    ensures shown { line_of (codes "read t@s f 9999999999 16384") 0
        ≡ Ok (Read (codes "t@s") (codes "f") 9999999999 16384) }
    ensures too_long { line_of (codes "read t f 0 16385") 0 ≡ Err 11 }
    ensures cut { line_of (codes "truncate t f 5") 0 ≡ Ok (Truncate (codes "t") (codes "f") 5) }
    ensures files { line_of (codes "ls t") 0 ≡ Ok (Files (codes "t")) }
    ensures tested { line_of (codes "verify t@s") 0 ≡ Ok (Verify (codes "t@s")) }
    ensures named { line_of (codes "ls -r") 0 ≡ Ok (Files (codes "-r")) }
{}

/// Values of the language: what sample lines on snapshots say.
pub fn snapshot_lines_say_what_they_spell()
    ensures taken { line_of (codes "snapshot t@s") 0 ≡ Ok (Snapshot (codes "t@s")) }
    ensures any_word { line_of (codes "snapshot t") 0 ≡ Ok (Snapshot (codes "t")) }
    ensures cloned { line_of (codes "clone t@s c") 0 ≡ Ok (Clone (codes "t@s") (codes "c")) }
    ensures nameless { line_of (codes "clone t@s") 0 ≡ Err 9 }
    ensures destroyed { line_of (codes "destroy t@s") 0 ≡ Ok (Destroy (codes "t@s")) }
    ensures named { line_of (codes "destroy -r") 0 ≡ Ok (Destroy (codes "-r")) }
    ensures one { line_of (codes "destroy -r t") 0 ≡ Err 11 }
{}

/// The law of record sizes: that of a line, where it has one, is in form.
pub fn record_sizes_are_in_form()
    ensures { (bytes : List ℕ) (inside : ℕ) (line : Line) → line_of bytes inside ≡ Ok line → HasRecordSize line }
{}

/// The law of a line's words: they are its longest runs of bytes other than spaces, each of them once, from
/// left to right.
pub fn words_are_the_longest_runs()
    ensures run { (line : List ℕ) → All (IsRun line) (words_of line) }
    ensures whole { (line : List ℕ) (at : ℕ) → at < length line → slice_index line at ≢ 0x20
        → IsInWord at (words_of line) }
    ensures order { (line : List ℕ) → StandFrom 0 (words_of line) }
{}
