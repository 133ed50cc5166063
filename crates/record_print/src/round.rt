//! The lines that tell of a round: what it reports, or that a fault of the disk ended it.
ghost use Rattle.std.specs.Prelude.{◌≡◌, codes, IfOk, OnOk};
ghost use Rattle.record_print.specs.PrintedRounds.{failed_round_data, is_complete, report_data, subjects_data};
ghost use Rattle.record_print.specs.Printed.{line_text};
ghost use Rattle.line_writing.specs.Writing.{AddsMember, AddsTokens, AddsValue};
ghost use Rattle.record_print.specs.Jobs.{job_tokens};

use crate::spelled::job_text;
use cell_records::JobName;
use convergence::Report;
use json::Writer;
use line_writing::{
    begin, begin_list, end, end_list, line_begun, line_ended, put_key, put_number, put_text,
    put_truth,
};
use std::alloc::{AllocError, Global};

/// What a round reports.
pub fn report_text(alloc: Global, report: &Report) -> Result<Vec<u8>, AllocError>
    ensures { IfOk result (λ v. v.items ≡ line_text (report_data report.now)) }
{
    let mut line = line_begun(alloc)?;
    put_report(&mut line, alloc, report)?;
    line_ended(line)
}

fn put_report(line: &mut Writer, alloc: Global, report: &Report) -> Result<(), AllocError>
    ensures { OnOk result (AddsValue line.old line.new (report_data report.now)) }
{
    begin(line)?;
    put_number(line, "asked", report.asked as u64)?;
    put_truth(line, "complete", is_complete(report))?;
    put_number(line, "foreign", report.foreign)?;
    put_number(line, "line", report.line as u64)?;
    put_number(line, "lost", report.lost)?;
    put_text(line, "op", "round")?;
    put_number(line, "own", report.own)?;
    put_number(line, "refused", report.refused.len() as u64)?;
    put_number(line, "stopped", report.stopped.len() as u64)?;
    put_unplaced(line, alloc, report.unplaced.items())?;
    end(line)
}

fn is_complete(report: &Report) -> bool
    ensures { result ≡ is_complete report.now }
{
    report.lost == 0
        && report.refused.is_empty()
        && report.unplaced.is_empty()
        && report.foreign == 0
}

fn put_unplaced(line: &mut Writer, alloc: Global, jobs: &[JobName]) -> Result<(), AllocError>
    ensures { OnOk result
        (AddsMember line.old line.new (codes "unplaced") (subjects_data jobs.now)) }
{
    put_key(line, "unplaced")?;
    put_subjects(line, alloc, jobs)
}

fn put_subjects(line: &mut Writer, alloc: Global, jobs: &[JobName]) -> Result<(), AllocError>
    ensures { OnOk result (AddsValue line.old line.new (subjects_data jobs.now)) }
{
    begin_list(line)?;
    put_jobs(line, alloc, jobs)?;
    end_list(line)
}

fn put_jobs(line: &mut Writer, alloc: Global, jobs: &[JobName]) -> Result<(), AllocError>
    ensures { OnOk result (AddsTokens line.old line.new (job_tokens jobs.now)) }
{
    for job in jobs {
        line.string(&job_text(alloc, job)?)?;
    }
    Ok(())
}

/// A round that a fault of the disk ended, at this line of the scenario. It has no report.
pub fn failed_round_text(alloc: Global, line: u32) -> Result<Vec<u8>, AllocError>
    ensures { IfOk result (λ v. v.items ≡ line_text (failed_round_data line)) }
{
    let mut text = line_begun(alloc)?;
    put_failed_round(&mut text, line)?;
    line_ended(text)
}

fn put_failed_round(text: &mut Writer, line: u32) -> Result<(), AllocError>
    ensures { OnOk result (AddsValue text.old text.new (failed_round_data line)) }
{
    begin(text)?;
    put_text(text, "answer", "disk")?;
    put_number(text, "line", line as u64)?;
    put_text(text, "op", "round")?;
    end(text)
}
