//! Runs of a program that copies at most two bytes.

ghost use Rattle.std.specs.Prelude.{[], ◌∷◌};
ghost use Rattle.hevc_tools_examples.specs.Runs.{Copies, asked, not_asked, holding, failed_with, two_bytes, three_bytes};

/// All is read and written; the words ask for nothing; a write fails.
pub fn right_runs()
    ensures whole { Copies asked two_bytes (holding []) (holding two_bytes) 0 }
    ensures nothing { Copies not_asked two_bytes (holding two_bytes) (holding []) 2 }
    ensures write { Copies asked two_bytes (holding []) (failed_with (7 ∷ [])) 4 }
{}

/// On an answer a byte isn't written, or isn't read, or the status is another; and the input is too long.
pub fn wrong_answers()
    ensures text { Copies asked two_bytes (holding []) (holding (7 ∷ [])) 0 → ⊥ }
    ensures end { Copies asked two_bytes (holding (8 ∷ [])) (holding two_bytes) 0 → ⊥ }
    ensures status { Copies asked two_bytes (holding []) (holding two_bytes) 1 → ⊥ }
    ensures limit { Copies asked three_bytes (holding []) (holding three_bytes) 0 → ⊥ }
{}

/// Other bytes are written, or the whole on 4 and 5.
pub fn wrong_writes()
    ensures part { Copies asked [] (holding []) (holding (9 ∷ [])) 5 → ⊥ }
    ensures write { Copies asked two_bytes (holding []) (failed_with two_bytes) 4 → ⊥ }
    ensures memory { Copies asked two_bytes (holding []) (holding two_bytes) 5 → ⊥ }
{}

/// A status that the words don't allow, or with which something is read or written.
pub fn wrong_words()
    ensures asked { Copies asked three_bytes (holding three_bytes) (holding []) 2 → ⊥ }
    ensures nothing_asked { Copies not_asked two_bytes (holding []) (holding two_bytes) 0 → ⊥ }
    ensures read_nothing { Copies not_asked two_bytes (holding []) (holding []) 2 → ⊥ }
    ensures wrote_nothing { Copies not_asked two_bytes (holding two_bytes) (holding (7 ∷ [])) 2
        → ⊥ }
{}

/// A status that the ends or the input's length don't allow, or with which something is written.
pub fn wrong_statuses()
    ensures read { Copies asked three_bytes (holding three_bytes) (holding []) 3 → ⊥ }
    ensures read_alone { Copies asked two_bytes (failed_with two_bytes) (holding (7 ∷ [])) 3 → ⊥ }
    ensures write { Copies asked three_bytes (holding []) (holding (7 ∷ [])) 4 → ⊥ }
    ensures long { Copies asked two_bytes (failed_with []) (holding []) 6 → ⊥ }
    ensures long_alone { Copies asked three_bytes (holding []) (holding (7 ∷ [])) 6 → ⊥ }
    ensures completes { Copies asked two_bytes (holding two_bytes) (holding []) 9 → ⊥ }
{}
