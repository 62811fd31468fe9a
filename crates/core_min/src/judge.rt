//! Who says which sets of numbers win.

ghost use Rattle.std.specs.Prelude.{◌↔◌, ℕ, List, Option, IfOk, IfErr, IsTrue};
ghost use Rattle.core_min.specs.Sets.{IsSetBelow, PartsWin};
ghost use Rattle.core_min.specs.Judges.{IsAnswered, IsSameJudge};

/// Says which sets of the numbers below a size win.
pub trait Judge {
    /// Why a set could not be judged.
    type Fault: Copy;

    /// How many numbers there are, from 0.
    ghost size: { Self → ℕ };

    /// The set wins.
    ghost IsWinning: { Self → List ℕ → Type 0 };

    /// This fault may be answered for this set.
    ghost MayFail: { Self → List ℕ → Self.Fault → Type 0 };

    /// How often a set could not be judged.
    ghost faults: { Self → ℕ };

    /// The last fault, with the set that it was answered for.
    ghost last: { Self → Option (Self.Fault × List ℕ) };

    /// Whether the set wins. An error is a fault that may be answered for it.
    fn wins(&mut self, kept: &[usize]) -> Result<bool, Self::Fault>
        requires set { IsSetBelow (size self.old) kept.now }
        ensures answer { IfOk result (λ yes. IsTrue yes ↔ IsWinning self.old kept.now) }
        ensures cause { IfErr result (λ fault. IsAnswered faults last MayFail self.old self.new fault kept.now) }
        ensures keeps { IsSameJudge size IsWinning MayFail faults self.old self.new };

    /// A set that wins has only parts that win.
    ghost parts: { (j : Self) → PartsWin (IsWinning j) };
}
