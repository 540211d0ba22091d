// Laws of the definitions of a run.
ghost use Rattle.std.specs.Prelude.{◌≡◌, ◌<◌, List, [], ◌∷◌, map};
ghost use Rattle.std.specs.declared.option.Option.TheVariants.{Some as Found, None as Missing};
ghost use lib.Chars.{codes};
ghost use Rattle.shell_run.specs.declared.found.FoundEntry.{FoundEntry};
ghost use Rattle.shell_run.specs.Answers.{Agrees};
ghost use Rattle.shell_run.specs.Takings.{AreInOrder, Taking, failures};
ghost use Rattle.shell_run.specs.Words.{limit_of};

/// Of one line, takings of a part stand before those of a later part, and no taking stands twice.
pub fn parts_stand_in_order()
    ensures parts { (first second : FoundEntry) (later : List FoundEntry) → first.line ≡ second.line
        → second.part < first.part →
        ¬ AreInOrder (first ∷ second ∷ later) }
    ensures once { (entry : FoundEntry) (later : List FoundEntry) → ¬ AreInOrder (entry ∷ entry ∷ later) }
{}

/// The failed takings of a run say of each of its takings whether it failed: of takings in order, the list is
/// determined by them and determines them.
pub fn failures_tell_what_failed()
    ensures { (made : List Taking) → AreInOrder (map (λ taking. taking.entry) made) → Agrees (failures made) made }
{}

/// Words in the form of a command line, and what they say of the uses of a salt.
pub fn words_say_the_limit()
    ensures none { limit_of [] ≡ Found 400000000 }
    ensures next { limit_of (codes "--max-salt-uses" ∷ codes "2" ∷ []) ≡ Found 2 }
    ensures equals { limit_of (codes "--max-salt-uses=2" ∷ []) ≡ Found 2 }
    ensures least { limit_of (codes "--max-salt-uses=1" ∷ []) ≡ Found 1 }
    ensures greatest { limit_of (codes "--max-salt-uses" ∷ codes "400000000" ∷ []) ≡ Found 400000000 }
    ensures zeros { limit_of (codes "--max-salt-uses=000000007" ∷ []) ≡ Found 7 }
{}

/// Words that are those of no command line: the value is 0, too great, of ten digits, empty, missing or no number,
/// the option stands twice, or it is another word.
pub fn other_words_are_faulty()
    ensures zero { limit_of (codes "--max-salt-uses" ∷ codes "0" ∷ []) ≡ Missing }
    ensures above { limit_of (codes "--max-salt-uses=400000001" ∷ []) ≡ Missing }
    ensures ten_digits { limit_of (codes "--max-salt-uses=0000000001" ∷ []) ≡ Missing }
    ensures ten_digits_next { limit_of (codes "--max-salt-uses" ∷ codes "0000000001" ∷ []) ≡ Missing }
    ensures empty { limit_of (codes "--max-salt-uses=" ∷ []) ≡ Missing }
    ensures empty_next { limit_of (codes "--max-salt-uses" ∷ [] ∷ []) ≡ Missing }
    ensures missing { limit_of (codes "--max-salt-uses" ∷ []) ≡ Missing }
    ensures no_number { limit_of (codes "--max-salt-uses=+2" ∷ []) ≡ Missing }
    ensures twice { limit_of (codes "--max-salt-uses=2" ∷ codes "--max-salt-uses=2" ∷ []) ≡ Missing }
    ensures twice_next { limit_of (codes "--max-salt-uses" ∷ codes "2" ∷ codes "--max-salt-uses=2" ∷ []) ≡ Missing }
    ensures both { limit_of (codes "--max-salt-uses=" ∷ codes "2" ∷ []) ≡ Missing }
    ensures front { limit_of (codes "--max-salt-use" ∷ codes "2" ∷ []) ≡ Missing }
    ensures longer { limit_of (codes "--max-salt-usess=2" ∷ []) ≡ Missing }
    ensures dashes { limit_of (codes "--" ∷ []) ≡ Missing }
    ensures behind_dashes { limit_of (codes "--" ∷ codes "--max-salt-uses=2" ∷ []) ≡ Missing }
    ensures generate { limit_of (codes "--generate" ∷ codes "2" ∷ []) ≡ Missing }
    ensures nothing { limit_of ([] ∷ []) ≡ Missing }
{}
