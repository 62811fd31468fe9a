//! What holds of showing and reading in every well-typed specification.

ghost use Rattle.std.specs.Prelude.{◌≡◌, List, ℕ, true};
ghost use Rattle.spec_model.specs.Values.{Assignment, is_assignment};
ghost use Rattle.spec_model.specs.Syntax.{Specification};
ghost use Rattle.spec_model.specs.WellTyped.{WellTyped};
ghost use Rattle.session_lines.specs.Shown.{show, inputs_of, outputs_of};
ghost use Rattle.session_lines.specs.Reading.{Reads};
ghost use Rattle.session_lines.specs.Room.{domains};

/// What is shown of an assignment of the inputs, or of the outputs, of a well-typed specification reads as it.
pub fn what_typed_specifications_show_is_read()
    ensures inputs { (s : Specification) (xs : Assignment) → WellTyped s → is_assignment (domains (inputs_of s)) xs ≡ true
        → Reads s.names (inputs_of s) (show s.names (inputs_of s) xs) xs }
    ensures outputs { (s : Specification) (xs : Assignment) → WellTyped s → is_assignment (domains (outputs_of s)) xs ≡ true
        → Reads s.names (outputs_of s) (show s.names (outputs_of s) xs) xs }
{}

/// No line reads as two assignments of the inputs, or of the outputs, of a well-typed specification.
pub fn no_line_of_a_typed_specification_reads_as_two()
    ensures inputs { (s : Specification) (line : List ℕ) (xs ys : Assignment) → WellTyped s
        → Reads s.names (inputs_of s) line xs → Reads s.names (inputs_of s) line ys → xs ≡ ys }
    ensures outputs { (s : Specification) (line : List ℕ) (xs ys : Assignment) → WellTyped s
        → Reads s.names (outputs_of s) line xs → Reads s.names (outputs_of s) line ys → xs ≡ ys }
{}
