//! Small name spaces: the names of an enum, the parameters of a definition, the names in a pattern.

ghost use Rattle.std.specs.Prelude.{◌≡◌, map, IfOk, OnOk};
ghost use Rattle.spectra_resolved.specs.Reports.{found_in};
ghost use Rattle.spectra_resolved.specs.Spaces.{no_names, declared, clashes, is_doubled as is_doubled_lem};
ghost use Rattle.spectra_resolved.specs.SpaceViews.{with_entries};
ghost use Rattle.spectra_resolved.specs.Looks.{looked_up};
ghost use Rattle.spectra_resolved.specs.LookViews.{scope_data};
ghost use Rattle.spectra_resolved.specs.Tables.{told};
ghost use Rattle.spectra_items.specs.ItemViews.{entry_data, table_look};
ghost use Rattle.spectra_items.specs.Steps.{names_by, look_by, Finds};

use spectra_resolved::findings::Findings;
use spectra_resolved::look::{Look, Scope, Sight};
use spectra_resolved::resolving::Resolver;
use spectra_resolved::spot::Mention;
use spectra_resolved::table::{Named, Table};
use std::alloc::{AllocError, Global};

// The table of declarations. Each second one of a name is reported.
fn table_of<'t>(
    alloc: Global,
    findings: &mut Findings,
    entries: &[(Mention<'t>, Named)],
) -> Result<Table<'t>, AllocError>
    ensures { IfOk result (λ table. told table findings.new ≡ with_entries
        (record { look = no_names; found = found_in findings.old }) (map entry_data entries.now)) }
{
    let mut table = Table::new(alloc);
    for entry in entries {
        table.declare(findings, entry.0, entry.1)?;
    }
    Ok(table)
}

/// What names stand for by these declarations alone. Each second one of a name is reported (8), but for an enum name in two enums.
pub fn space_of<'t>(
    alloc: Global,
    findings: &mut Findings,
    entries: &[(Mention<'t>, Named)],
) -> Result<Table<'t>, AllocError>
    ensures look { IfOk result (λ table. table_look table ≡ declared (map entry_data entries.now)) }
    ensures found { OnOk result (Finds findings.old findings.new (clashes (map entry_data entries.now))) }
{
    let table = table_of(alloc, findings, entries)?;
    Ok(table)
}

/// Whether some name is declared twice.
pub fn is_doubled(alloc: Global, entries: &[(Mention<'_>, Named)]) -> Result<bool, AllocError>
    ensures { IfOk result (λ doubled. doubled ≡ is_doubled_lem (map entry_data entries.now)) }
{
    let mut own = Findings::new();
    let _table = space_of(alloc, &mut own, entries)?;
    Ok(own.first().is_some())
}

/// What expressions of a file are resolved by inside of a definition or a pattern, whose own names hide what is outside.
pub fn resolver_inside<'s, 't>(
    alloc: Global,
    scope: &'s Scope<'t>,
    around: &'s Table<'t>,
    sight: Sight,
    file: usize,
) -> Resolver<'s, 't>
    ensures names { names_by result ≡ scope_data scope.now }
    ensures look { look_by result ≡ looked_up sight (scope_data scope.now) (table_look around.now) }
    ensures file { result.file ≡ file }
{
    let around = Some(around);
    let look = Look {
        scope,
        around,
        sight,
        quantified: &[],
    };
    Resolver { alloc, look, file }
}
