//! What holds of every run.

ghost use Rattle.std.specs.Prelude.{◌≡◌};
ghost use Rattle.spec_model.specs.Syntax.{Specification};
ghost use Rattle.spec_model.specs.Agreement.{Agrees};
ghost use Rattle.spec_model.specs.Games.{GameData};
ghost use Rattle.spec_model.specs.Rules.{Run};
ghost use Rattle.trace_planes.specs.Findings.{first_finding_in};
ghost use Rattle.trace_planes.specs.GameFindings.{first_finding};

/// In a game that agrees with a specification the first finding on a run is the specification's: the first position that
/// breaks a line, and there the first assumption that its input breaks, or else the first guarantee or monitor's line that its
/// output breaks.
pub fn findings_agree()
    ensures { (s : Specification) (g : GameData) → Agrees s g → (h : Run) → first_finding g h ≡ first_finding_in s h }
{}
