// What the program tipshare prints for a job file.
ghost use Rattle.std.specs.Prelude.{◌≡◌, ◌≤◌, length, take};
ghost use Rattle.text.specs.Buffer.{Printed};
ghost use Rattle.file_report.specs.Summary.{summary_of, text_room, taken_bytes, ReportRule};
ghost use Rattle.refusal.specs.Told.{Refusal};
ghost use Rattle.report.specs.Report.{refused_text};
ghost use Rattle.cases.specs.Cases.{Told};
ghost use Rattle.file_calls.specs.Cases.{read_cases};

#[unsafe(no_mangle)]
pub extern "C" fn tipshare_report(file: &[u8], out: &mut [u8]) -> usize
    ensures text { Printed (summary_of file.now (length out.old)) out.old result out.new }
    ensures cases { (r : Refusal) → text_room ≤ length out.old → Told (read_cases (take taken_bytes file.now)) r
        → (r.number ≡ 0 → ⊥) → Printed (refused_text r.number) out.old result out.new }
    ensures rule { ReportRule file.now (length out.old) result out.new }
{
    file_report::summarize(file, out)
}
