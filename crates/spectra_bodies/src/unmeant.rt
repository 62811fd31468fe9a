//! Ranges without numbers where nothing else is wrong.

ghost use Rattle.std.specs.Prelude.{◌≡◌, map, flat_map};
ghost use Rattle.spectra_resolved.specs.Findings.{with_faults};
ghost use Rattle.spectra_resolved.specs.Reports.{found_in};
ghost use Rattle.spectra_resolved.specs.Texts.{ResolvedVariable, ResolvedAlias, ResolvedDefinition, ResolvedPattern};
ghost use Rattle.spectra_resolved.specs.TextViews.{type_data, variable_data, alias_data, definition_data, pattern_data, text_data};
ghost use Rattle.spectra_judge.specs.KindViews.{kind_data};
ghost use Rattle.spectra_holes.specs.Holed.{is_anything as is_anything_lem};
ghost use Rattle.spectra_bounds.specs.TypeViews.{constants_data};
ghost use Rattle.spectra_bodies.specs.Unmeant.{unmeant, each_unmeant, all_unmeant};

use spectra_bounds::constants::Constants;
use spectra_bounds::types::type_kind;
use spectra_judge::findings::report_if;
use spectra_judge::kind::Kind;
use spectra_resolved::findings::Findings;
use spectra_resolved::text::{Alias, Definition, Pattern, Text, TypeUse, Variable};
use spectra_trees::faults::TOO_LARGE;

// Whether a type has no meaning.
fn is_anything(kind: Kind<'_>) -> bool
    ensures { result ≡ is_anything_lem (kind_data kind.entry) }
{
    match kind {
        Kind::Anything => true,
        Kind::Truth | Kind::Whole(_, _) | Kind::SomeWhole | Kind::NameOf(_) | Kind::OneName(_) =>
            false,
    }
}

// Reports a range without numbers, at its `Int`.
fn report_unmeant(findings: &mut Findings, constants: &Constants<'_>, t: &TypeUse)
    ensures { found_in findings.new ≡ with_faults (found_in findings.old) (unmeant (constants_data constants.now) (type_data t.now)) }
{
    match t {
        TypeUse::Range(at, _, _) => {
            let kind = type_kind(constants, &[], t);
            report_if(findings, is_anything(kind), TOO_LARGE, *at);
        }
        _ => {}
    }
}

// Reports those among several types.
fn report_each(findings: &mut Findings, constants: &Constants<'_>, ts: &[TypeUse])
    ensures { found_in findings.new ≡ with_faults (found_in findings.old) (each_unmeant (constants_data constants.now) (map type_data ts.now)) }
{
    for t in ts {
        report_unmeant(findings, constants, t);
    }
}

// Reports those among the types of variables.
fn report_variables(findings: &mut Findings, constants: &Constants<'_>, variables: &[Variable<'_>])
    ensures { found_in findings.new ≡ with_faults (found_in findings.old) (flat_map (λ (v : ResolvedVariable). unmeant (constants_data constants.now) v.domain) (map variable_data variables.now)) }
{
    for variable in variables {
        report_unmeant(findings, constants, &variable.domain);
    }
}

// Reports those among declared types.
fn report_aliases(findings: &mut Findings, constants: &Constants<'_>, types: &[Alias<'_>])
    ensures { found_in findings.new ≡ with_faults (found_in findings.old) (flat_map (λ (a : ResolvedAlias). unmeant (constants_data constants.now) a.body) (map alias_data types.now)) }
{
    for alias in types {
        report_unmeant(findings, constants, &alias.body);
    }
}

// Reports those among the types of predicates' parameters.
fn report_parameters(
    findings: &mut Findings,
    constants: &Constants<'_>,
    definitions: &[Definition<'_>],
)
    ensures { found_in findings.new ≡ with_faults (found_in findings.old) (flat_map (λ (d : ResolvedDefinition). each_unmeant (constants_data constants.now) d.params) (map definition_data definitions.now)) }
{
    for definition in definitions {
        report_each(findings, constants, &definition.params);
    }
}

// Reports those among the types of patterns' own variables.
fn report_own(findings: &mut Findings, constants: &Constants<'_>, patterns: &[Pattern<'_>])
    ensures { found_in findings.new ≡ with_faults (found_in findings.old) (flat_map (λ (p : ResolvedPattern). each_unmeant (constants_data constants.now) p.own) (map pattern_data patterns.now)) }
{
    for pattern in patterns {
        report_each(findings, constants, &pattern.own);
    }
}

/// Reports each range in a text that has no numbers, at its `Int` (19).
pub fn report_all_unmeant(findings: &mut Findings, constants: &Constants<'_>, text: &Text<'_>)
    ensures { found_in findings.new ≡ with_faults (found_in findings.old) (all_unmeant (constants_data constants.now) (text_data text.now)) }
{
    report_variables(findings, constants, &text.variables);
    report_aliases(findings, constants, &text.types);
    report_parameters(findings, constants, &text.definitions);
    report_own(findings, constants, &text.patterns);
}
