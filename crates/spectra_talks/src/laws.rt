//! Laws over the definitions alone. These functions do nothing: their contracts are the laws.

ghost use Rattle.std.specs.Prelude.{ℕ, List};
ghost use Rattle.spec_model.specs.Syntax.{Specification};
ghost use Rattle.spec_model.specs.WellTyped.{WellTyped};
ghost use Rattle.spectra_talks.specs.Verifying.{verify_ending, WinsIfVerified};

use strategy_tables::laws::sound_tables_win;
use strategy_text::laws::only_tables_are_read;

/// What is verified of a well-typed specification wins it, with the numbers that are told.
pub fn what_is_verified_wins()
    ensures { (s : Specification) (bytes : List ℕ) → WellTyped s → WinsIfVerified s (verify_ending s bytes) }
{
    sound_tables_win();
    only_tables_are_read();
}
