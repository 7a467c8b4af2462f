// Laws on reports: what a report tells.
ghost use Rattle.std.specs.Prelude.{◌≡◌};
ghost use Rattle.ak_core.specs.Journal.{Journal, SameLists};
ghost use Rattle.ak_report.specs.Report.{report};
ghost use Rattle.ak_report.specs.Types.{KeepsTypes};

/// Journals with the same report are equal, but for their room.
pub fn reports_tell_journals()
    ensures { (first second : Journal) → KeepsTypes first → KeepsTypes second → report first ≡ report second → SameLists first second }
{}
