//! The laws of texts of runs. Each is the contract of a function that does nothing.

ghost use Rattle.caf_report.specs.declared.report.Report.{Report};
ghost use Rattle.caf_report.specs.declared.report.Shown.{Shown};
ghost use Rattle.caf_report.specs.ReportText.{report_text};
ghost use Rattle.trace_forms.specs.Files.{Written};
ghost use Rattle.written_runs.specs.Shown.{ShowsTrace};

/// The text of a report that shows its trace is written for that trace: no line that an image printed, and none of the
/// final values or of the end, is taken for one of the trace, and the line before them says the form.
pub fn law_report_is_written()
    ensures { (shown : Shown) (r : Report) → ShowsTrace shown r → Written (report_text shown r) r.names r.trace.entries }
{}
