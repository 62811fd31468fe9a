//! The lines of several files: assumptions, guarantees and those of monitors.

ghost use Rattle.std.specs.Prelude.{◌≡◌, [], ◌∷◌, ◌++◌, length, map, flat_map, option_map, IfOk, OnOk};
ghost use Rattle.spectra_trees.specs.Data.{NameData};
ghost use Rattle.spectra_trees.specs.Views.{name_data, expr_data, part_data, body_data as tree_body};
ghost use Rattle.spectra_resolved.specs.Spots.{spot_of as spot_of_lem};
ghost use Rattle.spectra_resolved.specs.Resolving.{misuses};
ghost use Rattle.spectra_resolved.specs.ResolverViews.{resolved_by};
ghost use Rattle.spectra_resolved.specs.Views.{resolved_data};
ghost use Rattle.spectra_resolved.specs.TextViews.{body_data, line_data};
ghost use Rattle.spectra_resolved.specs.Texts.{ResolvedBody};
ghost use Rattle.spectra_items.specs.Meanings.{use_of as use_of_lem, use_faults, body_of, body_faults, monitor_line, monitor_lines, monitor_faults, line_of};
ghost use Rattle.spectra_items.specs.ItemViews.{line_item_data};
ghost use Rattle.spectra_items.specs.Steps.{names_by, look_by, Adds, Finds};

use spec_model::spec::Role;
use spectra_resolved::findings::Findings;
use spectra_resolved::regexes::regex;
use spectra_resolved::resolving::{Resolver, tree, trees};
use spectra_resolved::spot::{Spot, spot_at, spot_of};
use spectra_resolved::table::Named;
use spectra_resolved::text::{Body, Line, PatternUse};
use spectra_resolved::tree::Resolved;
use spectra_trees::faults::{ARITY, UNKNOWN};
use spectra_trees::tree::{BodyTree, ExprTree, LineItem, Name, Part, PartForm, Place};
use std::alloc::AllocError;

// ---- the use of a pattern

// What a pattern's name with so many arguments stands for.
fn use_of(named: Option<Named>, count: usize) -> PatternUse
    ensures { result ≡ use_of_lem named count }
{
    match named {
        Some(Named::Pattern(number, arity)) => {
            if count == arity {
                PatternUse::Pattern(number)
            } else {
                PatternUse::Arity(number)
            }
        }
        _ => PatternUse::Unknown,
    }
}

// Reports a pattern's use that means nothing.
fn report_use(findings: &mut Findings, at: Spot, used: PatternUse)
    ensures { Finds findings.old findings.new (use_faults at used) }
{
    match used {
        PatternUse::Pattern(_) => {}
        PatternUse::Arity(_) => findings.report(ARITY, at),
        PatternUse::Unknown => findings.report(UNKNOWN, at),
    }
}

// The trees of a pattern's arguments. Each misused name is reported.
fn arguments(
    resolver: &Resolver<'_, '_>,
    findings: &mut Findings,
    es: &[ExprTree],
) -> Result<Vec<Resolved>, AllocError>
    ensures trees { IfOk result (λ ts. map resolved_data ts.items
        ≡ map (resolved_by resolver.now) (map expr_data es.now)) }
    ensures found { OnOk result (Finds findings.old findings.new
        (flat_map misuses (map (resolved_by resolver.now) (map expr_data es.now)))) }
{
    let made = trees(resolver, findings, es)?;
    Ok(made)
}

#[tactic(auto, using(spectra_resolved::proofs::First::with_faults_append, spectra_resolved::proofs::Mapped::length_map))]
// The use of a pattern.
fn pattern_use(
    resolver: &Resolver<'_, '_>,
    findings: &mut Findings,
    name: &Name,
    es: &[ExprTree],
) -> Result<Body, AllocError>
    ensures body { IfOk result (λ b. body_data b ≡ ResolvedBody.Pattern
        (spot_of_lem resolver.now.file (name_data name.now))
        (use_of_lem ((names_by resolver.now).patterns (name_data name.now).text) (length (map expr_data es.now)))
        (map (resolved_by resolver.now) (map expr_data es.now))) }
    ensures found { OnOk result (Finds findings.old findings.new
        (use_faults (spot_of_lem resolver.now.file (name_data name.now))
        (use_of_lem ((names_by resolver.now).patterns (name_data name.now).text) (length (map expr_data es.now)))
        ++ flat_map misuses (map (resolved_by resolver.now) (map expr_data es.now)))) }
{
    let at = spot_of(resolver.file, name);
    let named = resolver.look.scope.patterns.get(name.text.as_str());
    let used = use_of(named, es.len());
    report_use(findings, at, used);
    let arguments = arguments(resolver, findings, es)?;
    Ok(Body::Pattern(at, used, arguments))
}

// ---- assumptions and guarantees

#[tactic(auto, using(spectra_resolved::proofs::First::with_faults_append))]
// What a line says. Each misused name in it is reported.
fn body(
    resolver: &Resolver<'_, '_>,
    findings: &mut Findings,
    body: &BodyTree,
) -> Result<Body, AllocError>
    ensures body { IfOk result (λ b. body_data b ≡ body_of (names_by resolver.now)
        (look_by resolver.now) resolver.now.file (tree_body body.now)) }
    ensures found { OnOk result (Finds findings.old findings.new (body_faults (body_of
        (names_by resolver.now) (look_by resolver.now) resolver.now.file (tree_body body.now)))) }
{
    match body {
        BodyTree::Initial(e) => Ok(Body::Initial(tree(resolver, findings, e)?)),
        BodyTree::Always(e) => Ok(Body::Safety(tree(resolver, findings, e)?)),
        BodyTree::Recurring(e) => Ok(Body::Recurring(tree(resolver, findings, e)?)),
        BodyTree::Trigger(at, cause, effect) => {
            let cause = regex(resolver, findings, cause)?;
            let effect = regex(resolver, findings, effect)?;
            Ok(Body::Trigger(spot_at(resolver.file, *at), cause, effect))
        }
        BodyTree::Call(name, es) => pattern_use(resolver, findings, name, es),
    }
}

// The name of a line.
fn label(name: &Option<Name>) -> Option<&str>
    ensures { option_map (λ text. text.now) result
        ≡ option_map (λ (n : NameData). n.text) (option_map name_data name.now) }
{
    match name {
        Some(name) => Some(name.text.as_str()),
        None => None,
    }
}

/// An assumption or a guarantee. What means nothing in it is reported.
pub fn line<'t>(
    resolver: &Resolver<'_, '_>,
    findings: &mut Findings,
    item: &'t LineItem,
) -> Result<Line<'t>, AllocError>
    ensures line { IfOk result (λ l. line_data l ≡ line_of (names_by resolver.now)
        (look_by resolver.now) resolver.now.file (line_item_data item.now)) }
    ensures found { OnOk result (Finds findings.old findings.new (body_faults (body_of
        (names_by resolver.now) (look_by resolver.now) resolver.now.file (tree_body item.now.body)))) }
{
    let body = body(resolver, findings, &item.body)?;
    Ok(Line {
        at: spot_at(resolver.file, item.at),
        item: spot_at(resolver.file, item.at),
        role: item.role,
        name: label(&item.name),
        body,
    })
}

// ---- monitors

#[tactic(auto, using(spectra_resolved::proofs::Mapped::map_push))]
// Puts a line of the monitor that begins at a place behind others.
fn push_line(
    all: &mut Vec<Line<'_>>,
    file: usize,
    monitor: Place,
    at: Place,
    body: Body,
) -> Result<(), AllocError>
    ensures { OnOk result (Adds line_data all.old.items all.new.items
        (monitor_line file monitor at (body_data body) ∷ [])) }
{
    all.push(Line {
        at: spot_at(file, at),
        item: spot_at(file, monitor),
        role: Role::Monitor,
        name: None,
        body,
    })?;
    Ok(())
}

// Puts what a part of the monitor that begins at a place says behind others. Each misused name in it is reported.
fn add_monitor_line(
    all: &mut Vec<Line<'_>>,
    resolver: &Resolver<'_, '_>,
    findings: &mut Findings,
    monitor: Place,
    part: &Part,
) -> Result<(), AllocError>
    ensures added { OnOk result (Adds line_data all.old.items all.new.items
        (monitor_lines (look_by resolver.now) resolver.now.file monitor (part_data part.now))) }
    ensures found { OnOk result (Finds findings.old findings.new
        (monitor_faults (look_by resolver.now) resolver.now.file (part_data part.now))) }
{
    match &part.form {
        PartForm::Own(_, _) => Ok(()),
        PartForm::Initial(e) => {
            let body = Body::Initial(tree(resolver, findings, e)?);
            push_line(all, resolver.file, monitor, part.at, body)
        }
        PartForm::Always(e) => {
            let body = Body::Safety(tree(resolver, findings, e)?);
            push_line(all, resolver.file, monitor, part.at, body)
        }
        PartForm::Recurring(e) => {
            let body = Body::Recurring(tree(resolver, findings, e)?);
            push_line(all, resolver.file, monitor, part.at, body)
        }
    }
}

/// Puts the lines of the monitor that begins at a place behind others. Each misused name in them is reported.
pub fn add_monitor_lines(
    all: &mut Vec<Line<'_>>,
    resolver: &Resolver<'_, '_>,
    findings: &mut Findings,
    monitor: Place,
    parts: &[Part],
) -> Result<(), AllocError>
    ensures added { OnOk result (Adds line_data all.old.items all.new.items
        (flat_map (monitor_lines (look_by resolver.now) resolver.now.file monitor) (map part_data parts.now))) }
    ensures found { OnOk result (Finds findings.old findings.new
        (flat_map (monitor_faults (look_by resolver.now) resolver.now.file) (map part_data parts.now))) }
{
    for part in parts {
        add_monitor_line(all, resolver, findings, monitor, part)?;
    }
    Ok(())
}
