//! What holds of showing and reading, whatever the code does.

ghost use Rattle.std.specs.Prelude.{◌≡◌, List, [], ◌∷◌, ◌++◌, ℕ, Bool, true, false, map};
ghost use Rattle.spec_model.specs.Values.{Assignment, is_assignment};
ghost use Rattle.spec_model.specs.Syntax.{VariableData};
ghost use Rattle.session_lines.specs.Shown.{show};
ghost use Rattle.session_lines.specs.Reading.{Reads};
ghost use Rattle.session_lines.specs.Room.{domains};
ghost use Rattle.session_lines.specs.Taking.{GivesLine};
ghost use Rattle.session_lines.specs.Handed.{HandsOut, EndsWith};
ghost use Rattle.session_lines.specs.declared.reader.Taken.{Taken};
ghost use Rattle.session_lines.specs.Plain.{ArePlain, AreWritable, AreNames};

/// What is shown of an assignment reads as it.
pub fn what_is_shown_is_read()
    ensures { (names : List (List ℕ)) (vs : List VariableData) (xs : Assignment) → AreNames names → AreWritable names vs
        → ArePlain (map (λ v. v.name) vs) → is_assignment (domains vs) xs ≡ true → Reads names vs (show names vs xs) xs }
{}

/// No line reads as two assignments.
pub fn no_line_reads_as_two()
    ensures { (names : List (List ℕ)) (vs : List VariableData) (line : List ℕ) (xs ys : Assignment) → AreNames names → AreWritable names vs
        → Reads names vs line xs → Reads names vs line ys → xs ≡ ys }
{}

/// Before the first line nothing was handed out, and each line adds to those that were.
pub fn lines_follow_one_another()
    ensures start { HandsOut [] [] [] }
    ensures one_more { (given before got line after : List ℕ) (handed : List (List ℕ)) → HandsOut given handed before
        → GivesLine Taken.Line false before got line after → HandsOut (given ++ got) (handed ++ line ∷ []) after }
{}

/// Where no line follows, those that were handed out are all the lines of what was given, or the next one is too long.
pub fn an_end_tells_all_lines()
    ensures { (what : Taken) (ended : Bool) (given before got line after : List ℕ) (handed : List (List ℕ)) → HandsOut given handed before
        → GivesLine what ended before got line after → EndsWith what ended (given ++ got) handed line }
{}
