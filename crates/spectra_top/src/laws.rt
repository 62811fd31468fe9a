//! What holds of every text. These functions do nothing: their contracts are the laws.

ghost use Rattle.std.specs.Prelude.{◌≡◌, List, ℕ, Some};
ghost use Rattle.sp_outside.specs.Files.{Files, told_file};
ghost use Rattle.spec_model.specs.Syntax.{Specification};
ghost use Rattle.spec_model.specs.WellTyped.{WellTyped};
ghost use Rattle.command_words.specs.declared.words.Command.{Command};
ghost use Rattle.spectra_files.specs.Reading.{Told};
ghost use Rattle.spectra_top.specs.Meanings.{Reads};
ghost use Rattle.spectra_talks.specs.Streams.{Moment};
ghost use Rattle.spectra_top.specs.Budgets.{NeverFilled, NeverRunsOut};

use solve::crowded_only_below_the_need;
use spec_order::laws::crowded_orders_only_below_the_need;
use spectra_types::faultless_files_are_well_typed;

/// Over told files no text means two specifications.
pub fn no_text_means_two_specifications()
    ensures { (files : Files) (name text : List ℕ) (s s' : Specification) → Reads (told_file (Some files)) name text s
        → Reads (told_file (Some files)) name text s' → s ≡ s' }
{}

/// A specification that a text means is well typed.
pub fn what_a_text_means_is_well_typed()
    ensures { (told : Told) (name text : List ℕ) (s : Specification) → Reads told name text s → WellTyped s }
{
    faultless_files_are_well_typed();
}

/// With as many nodes as the specification that a command solves needs, no sets that the solver may hold fill them, so that the
/// node budget is never reached.
pub fn enough_nodes_never_run_out()
    ensures filled { (command : Command) (nodes : ℕ) (s : Specification) → NeverFilled command nodes s }
    ensures decided { (command : Command) (nodes : ℕ) (s : Specification) (before after : Moment) → NeverRunsOut command nodes s before after }
{
    crowded_only_below_the_need();
    crowded_orders_only_below_the_need();
}
