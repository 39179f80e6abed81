//! The report on a text: each fault, and warnings, in the order of the text's lines.
ghost use Rattle.std.specs.Prelude.{◌≡◌, ◌≤◌, ◌⊎◌, ◌↔◌, [], true, None, Some, IfOk, IsTrue, OnOk, length};
ghost use Rattle.toml.specs.Parse.{parse_document};
ghost use Rattle.toml.specs.View.{table_view};
ghost use Rattle.panel_check.specs.Causes.{IsStated, in_table};
ghost use Rattle.panel_check.specs.Listed.{AddsOf, AreCausesOf, AreFindingsOf};
ghost use Rattle.panel_check.specs.Report.{HasCause, IsReportOn, is_fault};

use crate::lines::{Lines, line_ends};
use crate::report::{Cause, Finding, Report, sizes_of};
use crate::words::{Done, Said, words_on};
use lu_pool::PoolFault;
use panels::Draft;
use std::alloc::{AllocError, Global};
use toml::Table;
use toml::de::Error;

/// The causes of warnings.
const WARNINGS: [Cause; 3] = [Cause::TextWraps, Cause::FillNotNumeric, Cause::NoKeyLeads];

/// All faults of a text: those of its tables, in the order in which `PanelSet::read` looks for them, and those of its
/// LUs; and behind them the warnings.
fn causes_in(alloc: Global, draft: &Draft) -> Result<Vec<Cause>, AllocError>
    ensures { IfOk result (λ causes. AreCausesOf draft.now causes.items) }
{
    let mut causes = Vec::new(alloc);
    for at in &draft.faults(alloc)? {
        causes.push(Cause::Tree(at.fault, at.part))?;
    }
    for fault in &lu_pool::faults(alloc, &draft.lus)? {
        causes.push(Cause::Lus(*fault))?;
    }
    causes.extend_from_slice(&WARNINGS)?;
    Ok(causes)
}

/// Whether the value that a fault is of is in the text.
fn is_stated(draft: &Draft, cause: Cause) -> bool
    ensures { IsTrue result ↔ IsStated draft.now cause }
{
    match cause {
        Cause::Tree(fault, part) => draft.is_stated(fault, part),
        Cause::Lus(PoolFault::BadCount) => draft.has_lus,
        _ => true,
    }
}

/// A fault of a copy of an item as a fault of the item's table.
fn in_table(draft: &Draft, cause: Cause) -> Cause
    ensures { result ≡ in_table draft.now cause }
{
    match cause {
        Cause::Tree(fault, part) => Cause::Tree(fault, draft.table(part)),
        _ => cause,
    }
}

/// Whether both are the same fault.
fn is_same(one: Cause, other: Cause) -> bool
    ensures { IsTrue result → one ≡ other }
{
    match (one, other) {
        (Cause::Tree(fault, part), Cause::Tree(other, table)) => fault == other && part == table,
        _ => false,
    }
}

/// Whether one of the findings is for a cause.
fn is_reported(findings: &[Finding], cause: Cause) -> bool
    ensures { IsTrue result → HasCause cause findings.now }
{
    for finding in findings {
        if is_same(finding.cause, cause) {
            return true;
        }
    }
    false
}

/// Adds findings for a cause, each with its line and its words.
fn add_all(findings: &mut Vec<Finding>, cause: Cause, found: &[Said]) -> Done
    ensures added { OnOk result (AddsOf cause findings.old.items findings.new.items) }
    ensures told { OnOk result (1 ≤ length found.now → HasCause cause findings.new.items) }
{
    for said in found {
        let (line, words) = (said.0, said.1.clone()?);
        findings.push(Finding { cause, line, words })?;
    }
    Ok(())
}

/// Adds the findings for a cause, unless its table has some for it, by another copy; or the value of the fault isn't in
/// the text, and it isn't the first.
#[tactic(auto, using(crate::proofs::Reporting::adds_none))]
fn tell(findings: &mut Vec<Finding>, draft: &Draft, lines: &Lines, cause: Cause) -> Done
    ensures added { OnOk result (AddsOf (in_table draft.now cause) findings.old.items findings.new.items) }
    ensures told { OnOk result (is_fault cause ≡ true → (findings.old.items ≡ []) ⊎ IsStated draft.now cause
        → HasCause (in_table draft.now cause) findings.new.items) }
{
    let reported = in_table(draft, cause);
    if is_reported(findings, reported) {
        return Ok(());
    }
    if !findings.is_empty() && !is_stated(draft, cause) {
        return Ok(());
    }
    let found = words_on(draft, lines, cause)?;
    add_all(findings, reported, &found)
}

/// The findings for all faults of a text and for warnings, in the order of its lines.
fn report_in(draft: &Draft, lines: &Lines) -> Result<Report, AllocError>
    ensures { IfOk result (λ report. AreFindingsOf draft.now report.findings.items) }
{
    let causes = causes_in(lines.alloc, draft)?;
    let mut findings = Vec::new(lines.alloc);
    for cause in &causes {
        tell(&mut findings, draft, lines, *cause)?;
    }
    findings.sort_by_key(|finding| finding.line)?;
    let sizes = Some(sizes_of(draft));
    Ok(Report { findings, sizes })
}

/// The report on a text whose TOML tree is `top`.
fn report_on_tree(alloc: Global, text: &str, top: &Table) -> Result<Report, AllocError>
    ensures { parse_document text.now ≡ Some (table_view top.now)
        → IfOk result (λ report. IsReportOn text.now report.findings.items) }
{
    let draft = Draft::of(alloc, top)?;
    report_in(&draft, &Lines::of_text(alloc, text)?)
}

/// The report on a text that isn't TOML, with the line of the error.
fn report_no_toml(alloc: Global, text: &str, error: &Error) -> Result<Report, AllocError>
    ensures { parse_document text.now ≡ None → IfOk result (λ report. IsReportOn text.now report.findings.items) }
{
    let start = error.span().unwrap_or(0..0).start;
    let line = line_ends(text, start).saturating_add(1);
    let words = String::from_str(alloc, error.message())?;
    let (cause, sizes, mut findings) = (Cause::NotToml, None, Vec::new(alloc));
    findings.push(Finding { cause, line, words })?;
    Ok(Report { findings, sizes })
}

/// The report on a panel text.
pub(crate) fn report_on(alloc: Global, text: &str) -> Result<Report, AllocError>
    ensures { IfOk result (λ report. IsReportOn text.now report.findings.items) }
{
    match toml::table_from_str(alloc, text) {
        Ok(top) => report_on_tree(alloc, text, &top),
        Err(error) if error.is_memory() => Err(AllocError),
        Err(error) => report_no_toml(alloc, text, &error),
    }
}
