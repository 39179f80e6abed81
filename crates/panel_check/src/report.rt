//! The report on a panel text, and its findings: faults and warnings.
ghost use Rattle.std.specs.Prelude.{◌≡◌, ◌++◌, IfOk, OnOk, string_bytes};
ghost use Rattle.std.specs.List.{flat_map};
ghost use Rattle.panel_check.specs.Page.{finding_line, report_text, verdict_text, warnings_text};
ghost use Rattle.panel_check.specs.Report.{AreInOrder, HasFirstCause, IsFaultlessIfAccepted, ReportsFaults, fault_count, is_fault};
ghost use Rattle.panels.specs.PanelText.{panel_text};

use crate::telling::report_on;
use lu_pool::PoolFault;
use panels::{Draft, Location, TreeFault, split_input};
use std::alloc::{AllocError, Global};
use std::fmt;

/// The kind of a finding. `TextWraps`, `FillNotNumeric` and `NoKeyLeads` are warnings, all others are faults.
#[derive(Clone, Copy, Debug, PartialEq, Eq)]
pub enum Cause {
    /// The text isn't TOML.
    NotToml,
    /// A table has a fault. One fault may have several findings: one of keys has one for each key that is wrong.
    Tree(TreeFault, Location),
    /// The list of the LUs has a fault.
    Lus(PoolFault),
    /// A text is longer than the rest of its row, and goes on in the next row.
    TextWraps,
    /// A numeric field has a fill with characters that a terminal doesn't accept in it.
    FillNotNumeric,
    /// No keys lead from the first panel to this one, or to a panel that is shown as this one in some sessions.
    NoKeyLeads,
}

impl Cause {
    /// Whether it is a fault, for which the panel reader or the LU pool refuses the text, and no warning.
    pub fn is_fault(&self) -> bool
        ensures { result ≡ is_fault self.now }
    {
        match self {
            Cause::NotToml | Cause::Tree(_, _) | Cause::Lus(_) => true,
            Cause::TextWraps | Cause::FillNotNumeric | Cause::NoKeyLeads => false,
        }
    }
}

/// A fault of a panel text, or a warning. Prints as `33: panel MENU, field option: unknown key 'requird'`.
#[derive(Debug, Drop)]
pub struct Finding {
    /// What it is that was found.
    pub cause: Cause,
    /// The line of the text, from 1 on.
    pub line: usize,
    /// The names of the table, as `panel MENU, field option`, unless it is the text's own; and what is wrong, in words.
    pub words: String,
}

impl fmt::Display for Finding {
    ghost use Rattle.std.specs.Prelude.{Some};
    ghost use Rattle.panel_check.specs.Page.{finding_text};

    ghost output = { λ finding. Some (finding_text finding) };

    fn fmt<W: fmt::Write>(&self, f: &mut fmt::Formatter<W>) -> fmt::Result {
        let is_fault = self.cause.is_fault();
        let kind = if is_fault { "" } else { "warning: " };
        write!(f, "{}: {kind}{}", self.line, self.words)
    }
}

/// The numbers of panels, of fields of all panels, with all copies, and of LUs in a text.
#[derive(Clone, Copy, Debug, PartialEq, Eq)]
pub struct Sizes {
    pub panels: usize,
    pub fields: usize,
    pub lus: usize,
}

pub(crate) fn sizes_of(draft: &Draft) -> Sizes {
    let (panels, lus, mut fields) = (draft.panels.len(), draft.lus.len(), 0usize);
    for panel in &draft.panels {
        for item in &panel.fields {
            fields = fields.saturating_add(usize::from(!item.is_value));
        }
    }
    Sizes {
        panels,
        fields,
        lus,
    }
}

/// The findings in a panel text, in the order of its lines.
#[derive(Drop)]
pub struct Report {
    /// The faults and warnings.
    pub findings: Vec<Finding>,
    /// How many panels, fields and LUs the text has; `None` if it isn't TOML.
    pub sizes: Option<Sizes>,
}

/// The report on the panel text of an input. It has each fault that `panels` and `lu_pool` find in the text, once for
/// a table, and no other; but a fault of a value that isn't in the text is reported as the key that is missing, or has
/// another type. If `PanelSet::read` and `Pool::read` accept the text, it has only warnings; else it has the fault for
/// which they refuse it. Err only if memory is refused.
pub fn check(alloc: Global, text: &str) -> Result<Report, AllocError>
    ensures faults { IfOk result (λ report. ReportsFaults (panel_text text.now) report.findings.items) }
    ensures faultless { IfOk result (λ report. IsFaultlessIfAccepted (panel_text text.now) report.findings.items) }
    ensures reason { IfOk result (λ report. HasFirstCause (panel_text text.now) report.findings.items) }
    ensures order { IfOk result (λ report. AreInOrder report.findings.items) }
{
    let (text, _) = split_input(text);
    report_on(alloc, text)
}

/// A number and a noun, which is in the plural unless the number is 1.
#[derive(Clone, Copy)]
struct Count(usize, &'static str);

impl fmt::Display for Count {
    ghost use Rattle.std.specs.Prelude.{Some};
    ghost use Rattle.panel_check.specs.Page.{counted};

    ghost output = { λ count. Some (counted count.0 count.1.now) };

    fn fmt<W: fmt::Write>(&self, f: &mut fmt::Formatter<W>) -> fmt::Result {
        let ending = if self.0 == 1 { "" } else { "s" };
        write!(f, "{} {}{ending}", self.0, self.1)
    }
}

/// Adds a line for each of these findings, which begins with the file's `name`.
fn put_findings(page: &mut String, name: &str, findings: &[Finding]) -> Result<(), AllocError>
    ensures { OnOk result
        (string_bytes page.new ≡ string_bytes page.old ++ flat_map (finding_line name.now) findings.now) }
{
    for finding in findings {
        writeln!(page, "{name}:{finding}")?;
    }
    Ok(())
}

/// Adds the sizes of a text without a fault, or else the number of faults.
fn put_verdict(page: &mut String, sizes: Option<Sizes>, faults: usize) -> Result<(), AllocError>
    ensures { OnOk result (string_bytes page.new ≡ string_bytes page.old ++ verdict_text sizes faults) }
{
    match sizes {
        Some(sizes) if faults == 0 => {
            let (panels, fields) = (Count(sizes.panels, "panel"), Count(sizes.fields, "field"));
            write!(page, "ok: {panels}, {fields}, {}", Count(sizes.lus, "LU"))
        }
        _ => write!(page, "{}", Count(faults, "fault")),
    }
}

/// Adds the number of warnings, if there are any.
fn put_warnings(page: &mut String, warnings: usize) -> Result<(), AllocError>
    ensures { OnOk result (string_bytes page.new ≡ string_bytes page.old ++ warnings_text warnings) }
{
    if warnings == 0 {
        return Ok(());
    }
    write!(page, ", {}", Count(warnings, "warning"))
}

impl Report {
    /// The number of findings that are faults.
    pub fn faults(&self) -> usize
        ensures { result ≡ fault_count self.now.findings.items }
    {
        let faults = self.findings.iter().filter(|it| it.cause.is_fault());
        faults.count()
    }

    /// The report as text: a line for each finding, which begins with the file's `name`, and a line with the totals.
    /// Err only if memory is refused.
    pub fn page(&self, alloc: Global, name: &str) -> Result<String, AllocError>
        ensures { IfOk result (λ page. string_bytes page ≡ report_text name.now self.now) }
    {
        let mut page = String::new(alloc);
        put_findings(&mut page, name, &self.findings)?;
        let faults = self.faults();
        put_verdict(&mut page, self.sizes, faults)?;
        put_warnings(&mut page, self.findings.len().saturating_sub(faults))?;
        page.push('\n')?;
        Ok(page)
    }
}
