//! Types and definitions that are used in their own bodies.

ghost use Rattle.std.specs.Prelude.{◌≡◌, map, length, OnOk, IfOk};
ghost use Rattle.spectra_resolved.specs.Findings.{with_faults};
ghost use Rattle.spectra_resolved.specs.Reports.{found_in};
ghost use Rattle.spectra_resolved.specs.Texts.{ResolvedAlias};
ghost use Rattle.spectra_resolved.specs.TextViews.{type_data, alias_data};
ghost use Rattle.spectra_bounds.specs.Cycles.{on_cycles as on_cycles_lem, type_uses as type_uses_lem, cycle_faults, type_cycles};

use spectra_judge::findings::report_if;
use spectra_resolved::findings::Findings;
use spectra_resolved::spot::Spot;
use spectra_resolved::text::{Alias, TypeUse};
use spectra_trees::faults::CYCLE;
use spectra_uses::cycles::cycles;
use spectra_uses::placing::order_of;
use std::alloc::{AllocError, Global};

/// Reports each definition that is marked as one that is used in its own body, at the place of its name (15).
pub fn report_cycles(findings: &mut Findings, on_cycle: &[bool], places: &[Spot])
    requires { length on_cycle.now ≡ length places.now }
    ensures { found_in findings.new ≡ with_faults (found_in findings.old) (cycle_faults on_cycle.now places.now) }
{
    for k in 0..places.len() {
        report_if(findings, on_cycle[k], CYCLE, places[k]);
    }
}

// For each of several definitions whether it is used in its own body.
fn on_cycles(alloc: Global, uses: &[Vec<usize>]) -> Result<Vec<bool>, AllocError>
    ensures { IfOk result (λ marks. marks.items ≡ on_cycles_lem (map (λ us. us.items) uses.now)) }
{
    let order = order_of(alloc, uses)?;
    let marks = cycles(alloc, uses, &order)?;
    Ok(marks)
}

// The declared type that a type is a name for.
fn type_uses(alloc: Global, t: &TypeUse) -> Result<Vec<usize>, AllocError>
    ensures { IfOk result (λ uses. uses.items ≡ type_uses_lem (type_data t.now)) }
{
    let mut uses = Vec::new(alloc);
    match t {
        TypeUse::Named(k) => uses.push(*k)?,
        _ => {}
    }
    Ok(uses)
}

#[tactic(auto, using(spectra_resolved::proofs::Mapped::pushed))]
// The declared type that each type is a name for.
fn uses_of_types(alloc: Global, types: &[Alias<'_>]) -> Result<Vec<Vec<usize>>, AllocError>
    ensures { IfOk result (λ all. map (λ uses. uses.items) all.items ≡ map (λ (a : ResolvedAlias). type_uses_lem a.body) (map alias_data types.now)) }
{
    let mut all = Vec::new(alloc);
    for alias in types {
        all.push(type_uses(alloc, &alias.body)?)?;
    }
    Ok(all)
}

// Where the names of types stand.
fn places_of_types(alloc: Global, types: &[Alias<'_>]) -> Result<Vec<Spot>, AllocError>
    ensures { IfOk result (λ places. places.items ≡ map (λ (a : ResolvedAlias). a.name.at) (map alias_data types.now)) }
{
    let mut places = Vec::new(alloc);
    for alias in types {
        places.push(alias.name.at)?;
    }
    Ok(places)
}

/// Reports each type that its own name goes round to (15). The error is that memory is short.
pub fn report_type_cycles(
    alloc: Global,
    findings: &mut Findings,
    types: &[Alias<'_>],
) -> Result<(), AllocError>
    ensures { OnOk result (found_in findings.new ≡ with_faults (found_in findings.old) (type_cycles (map alias_data types.now))) }
{
    let uses = uses_of_types(alloc, types)?;
    let on_cycle = on_cycles(alloc, &uses)?;
    let places = places_of_types(alloc, types)?;
    report_cycles(findings, &on_cycle, &places);
    Ok(())
}
