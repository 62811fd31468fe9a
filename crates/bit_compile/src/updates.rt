//! Where the next value of a hidden table is the one that follows.

ghost use Rattle.std.specs.Prelude.{◌≡◌, ◌<◌, ◌≤◌, ◌^◌, length, map, get_or, IfOk, ◌⊎◌};
ghost use Rattle.spec_model.specs.Values.{values_of, same_value};
ghost use Rattle.spec_model.specs.GameViews.{game_data, hidden_data};
ghost use Rattle.spec_model.specs.WellMade.{WellMade};
ghost use Rattle.game_values.specs.Whole.{IsWhole};
ghost use Rattle.bdd_bits.specs.Contents.{function_at};
ghost use Rattle.bit_compile.specs.Domains.{state_domains, table_domain, level_count};
ghost use Rattle.bit_compile.specs.Compiled.{never, coded, some_pair, lettered, led_to, following as following_lem, table_update, updates_of};
ghost use Rattle.bit_compile.specs.CaseRoots.{AreKept, MakesCases, cases_at};
ghost use Rattle.bit_compile.specs.CompileLaws.{IsUpdateOf};
ghost use Rattle.bit_compile.specs.Crowding.{MakesNamed};
ghost use Rattle.bit_compile.specs.Named.{IsOfCoded, IsOfLettered, IsOfPairs, IsOfLed, IsOfFollowing, IsOfUpdate, IsNamedUpdate};

use crate::blocks::pair_root;
use crate::cases::{CaseRoot, Source, cases_from, release_all};
use crate::codes::Codes;
use crate::compiling::truth_cases;
use crate::domains::{domain_of, values};
use crate::pairs::Test;
use crate::scenes::Scene;
use crate::spans::{coded_cases, letter_cases};
use bdd_bits::{Diagrams, Root};
use game_values::cells::letters;
use game_values::seen::At;
use regions::Halt;
use spec_model::expr::Compare;
use spec_model::game::{Game, Hidden};
use std::alloc::Global;

/// Each value of the hidden table, with where it is led to from one of these values by one of these letters.
fn led_cases(
    diagrams: &mut Diagrams,
    alloc: Global,
    h: &Hidden,
    from: &[CaseRoot],
    by: &[CaseRoot],
) -> Result<Vec<CaseRoot>, Halt>
    requires whole { IsWhole h.now }
    requires from_kept { AreKept diagrams.old.state from.now }
    requires by_kept { AreKept diagrams.old.state by.now }
    ensures { let c = diagrams.old in let next = h.now.next.items in let letters = 2 ^ length h.now.atoms.items in let vs = values_of (table_domain (hidden_data h.now)) in
        MakesCases c diagrams.new result (led_to next letters (cases_at c from.now) (cases_at c by.now) vs) (IsOfLed next letters (cases_at c from.now) (cases_at c by.now) vs) }
{
    let Ok(values) = values(alloc, &domain_of(h)) else {
        return Err(Halt::Memory);
    };
    cases_from(
        diagrams,
        alloc,
        &Source::Leads(&h.next, letters(h), from, by),
        &values,
    )
}

/// Each value of the hidden table, with where it is led to from one of these values by the letter of the atoms.
fn led_by_atoms(
    diagrams: &mut Diagrams,
    alloc: Global,
    h: &Hidden,
    from: &[CaseRoot],
    atoms: &[CaseRoot],
) -> Result<Vec<CaseRoot>, Halt>
    requires whole { IsWhole h.now }
    requires counted { length atoms.now ≡ length h.now.atoms.items }
    requires from_kept { AreKept diagrams.old.state from.now }
    requires atoms_kept { AreKept diagrams.old.state atoms.now }
    ensures { let c = diagrams.old in let fs = map (λ a. function_at c a.root) atoms.now in let next = h.now.next.items in let letters = 2 ^ length h.now.atoms.items in let vs = values_of (table_domain (hidden_data h.now)) in
        MakesCases c diagrams.new result (led_to next letters (cases_at c from.now) (lettered fs) vs) (λ f. IsOfLettered fs f ⊎ IsOfLed next letters (cases_at c from.now) (lettered fs) vs f) }
{
    let by = letter_cases(diagrams, alloc, h, atoms)?;
    let cases = led_cases(diagrams, alloc, h, from, &by);
    release_all(diagrams, by);
    cases
}

/// Each value of the hidden table at this place, with where it follows.
fn following(
    diagrams: &mut Diagrams,
    codes: &Codes,
    k: usize,
    h: &Hidden,
    atoms: &[CaseRoot],
) -> Result<Vec<CaseRoot>, Halt>
    requires known { k < length codes.now }
    requires levels { level_count codes.now ≤ diagrams.old.state.table.levels }
    requires whole { IsWhole h.now }
    requires counted { length atoms.now ≡ length h.now.atoms.items }
    requires kept { AreKept diagrams.old.state atoms.now }
    ensures { let c = diagrams.old in let fs = map (λ a. function_at c a.root) atoms.now in
        MakesCases c diagrams.new result (following_lem codes.now k (hidden_data h.now) fs) (IsOfFollowing codes.now k (hidden_data h.now) fs) }
{
    let alloc = codes.alloc();
    let from = coded_cases(diagrams, codes, At::Now, k, &domain_of(h), alloc)?;
    let cases = led_by_atoms(diagrams, alloc, h, &from, atoms);
    release_all(diagrams, from);
    cases
}

/// Where the next value of the hidden table at this place is had by one of these.
fn next_among(
    diagrams: &mut Diagrams,
    codes: &Codes,
    k: usize,
    h: &Hidden,
    cases: &[CaseRoot],
) -> Result<Root, Halt>
    requires known { k < length codes.now }
    requires levels { level_count codes.now ≤ diagrams.old.state.table.levels }
    requires whole { IsWhole h.now }
    requires kept { AreKept diagrams.old.state cases.now }
    ensures { let c = diagrams.old in let d = table_domain (hidden_data h.now) in let next = coded codes.now At.Next k d in
        MakesNamed c diagrams.new result (some_pair same_value next (cases_at c cases.now)) (λ f. IsOfCoded codes.now At.Next k d f ⊎ IsOfPairs same_value next (cases_at c cases.now) f) }
{
    let next = coded_cases(diagrams, codes, At::Next, k, &domain_of(h), codes.alloc())?;
    let root = pair_root(diagrams, &Test::Compared(Compare::Eq), &next, cases);
    release_all(diagrams, next);
    root
}

/// Where the next value of the hidden table at this place is the one that follows.
fn update_root(
    diagrams: &mut Diagrams,
    codes: &Codes,
    k: usize,
    h: &Hidden,
    atoms: &[CaseRoot],
) -> Result<Root, Halt>
    requires known { k < length codes.now }
    requires levels { level_count codes.now ≤ diagrams.old.state.table.levels }
    requires whole { IsWhole h.now }
    requires counted { length atoms.now ≡ length h.now.atoms.items }
    requires kept { AreKept diagrams.old.state atoms.now }
    ensures { let c = diagrams.old in let fs = map (λ a. function_at c a.root) atoms.now in
        MakesNamed c diagrams.new result (table_update codes.now k (hidden_data h.now) fs) (IsOfUpdate codes.now k (hidden_data h.now) fs) }
{
    let cases = following(diagrams, codes, k, h, atoms)?;
    let root = next_among(diagrams, codes, k, h, &cases);
    release_all(diagrams, cases);
    root
}

/// The diagram that is true where the next value of a hidden table is the one that its present value and its letter lead
/// to. Refusals are those of `compile`.
pub fn update(diagrams: &mut Diagrams, codes: &Codes, game: &Game, k: usize) -> Result<Root, Halt>
    requires made { WellMade (game_data game.now) }
    requires codes { codes.now ≡ state_domains (game_data game.now) }
    requires levels { level_count codes.now ≤ diagrams.old.state.table.levels }
    requires known { k < length (game_data game.now).hidden }
    ensures meaning { IfOk result (λ r. IsUpdateOf (game_data game.now) k (function_at diagrams.new r)) }
    ensures compiled { let g = game_data game.now in
        MakesNamed diagrams.old diagrams.new result (get_or (updates_of g) k never) (IsNamedUpdate g k) }
{
    let scene = Scene {
        codes,
        game,
        hidden: &game.hidden,
    };
    let h = &game.hidden[k];
    let atoms = truth_cases(diagrams, &scene.before(k), At::Now, &h.atoms)?;
    let root = update_root(diagrams, codes, k, h, &atoms);
    release_all(diagrams, atoms);
    root
}
