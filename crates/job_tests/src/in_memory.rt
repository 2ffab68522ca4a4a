//! Jobs over texts in memory, which the tests of jobs and those of devices share.

use command_line::Job;
use std::alloc::Global;
use tape_core::Watched;
use tape_jobs::Outcome;

/// The header of the scripts here, of 20 bytes.
pub const HEADER: &[u8] = b"Script started on X\n";

/// Two chunks of a byte each, half a second apart.
pub const AB: &str = "0.000000 1\n0.500000 1\n";

/// The picture of a screen at half a second with `ab` on its first line, and the cursor behind that.
pub const AB_PICTURE: &str =
    "<svg xmlns=\"http://www.w3.org/2000/svg\" class=\"i\" viewBox=\"-10 -10 820 500\" width=\"820\" height=\"500\" role=\"group\" aria-label=\"Screen\" xml:space=\"preserve\"><title>Screen at 0.500000 s</title><desc>ab\n\n\n\n\n\n\n\n\n\n\n\n\n\n\n\n\n\n\n\n\n\n\n\n</desc>\
<style>text{font:16.67px 'DejaVu Sans Mono',Menlo,Consolas,'Liberation Mono',monospace;white-space:pre}path{shape-rendering:crispEdges}.i{fill:#ddd}.p{fill:#111}.b{font-weight:bold}.n{fill:none}.k{animation:k 1s step-end infinite}@keyframes k{50%{opacity:.2}}@media print{.i{fill:#111}.p{fill:#fff}}@media print,(prefers-reduced-motion:reduce){.k{animation:none}}</style>\n\
<path class=\"p\" d=\"M-10 -10h820v500h-820z\"/>\n\
<path d=\"\"/>\n\
<g transform=\"translate(0 0)\"><text y=\"15\"><tspan x=\"0 10\">ab</tspan></text></g>\n\
<g transform=\"translate(0 20)\"></g>\n\
<g transform=\"translate(0 40)\"></g>\n\
<g transform=\"translate(0 60)\"></g>\n\
<g transform=\"translate(0 80)\"></g>\n\
<g transform=\"translate(0 100)\"></g>\n\
<g transform=\"translate(0 120)\"></g>\n\
<g transform=\"translate(0 140)\"></g>\n\
<g transform=\"translate(0 160)\"></g>\n\
<g transform=\"translate(0 180)\"></g>\n\
<g transform=\"translate(0 200)\"></g>\n\
<g transform=\"translate(0 220)\"></g>\n\
<g transform=\"translate(0 240)\"></g>\n\
<g transform=\"translate(0 260)\"></g>\n\
<g transform=\"translate(0 280)\"></g>\n\
<g transform=\"translate(0 300)\"></g>\n\
<g transform=\"translate(0 320)\"></g>\n\
<g transform=\"translate(0 340)\"></g>\n\
<g transform=\"translate(0 360)\"></g>\n\
<g transform=\"translate(0 380)\"></g>\n\
<g transform=\"translate(0 400)\"></g>\n\
<g transform=\"translate(0 420)\"></g>\n\
<g transform=\"translate(0 440)\"></g>\n\
<g transform=\"translate(0 460)\"></g>\n\
<g transform=\"translate(0 0)\"><path class=\"p\" d=\"M20 0h10v20h-10zm1 1v18h8v-18z\"/><path d=\"M21 1h8v18h-8zm1 1v16h6v-16z\"/></g>\n\
</svg>\n";

/// The outcome of a job that is done.
pub const DONE: Outcome = Outcome {
    status: 0,
    fault: None,
};

/// Both texts that a job wrote, the note that it told, and how it ended.
#[derive(Drop)]
pub struct Ended {
    pub outcome: Outcome,
    pub text: Vec<u8>,
    pub new_timing: Vec<u8>,
    pub note: Vec<u8>,
}

/// Does a job over texts in memory.
pub fn do_job(alloc: Global, job: Job, script: &[u8], timing: &[u8], requests: &[u8]) -> Ended {
    do_job_beside(alloc, job, &[], script, timing, requests)
}

/// The same, with a text beside the job.
pub fn do_job_beside(
    alloc: Global,
    job: Job,
    text: &[char],
    script: &[u8],
    timing: &[u8],
    requests: &[u8],
) -> Ended {
    let mut out = Watched::new(Vec::new(alloc));
    let mut out_timing = Watched::new(Vec::new(alloc));
    let mut note = Watched::new(Vec::new(alloc));
    let outcome = tape_jobs::run_with(
        alloc,
        job,
        text,
        &mut Watched::new(script),
        &mut Watched::new(timing),
        &mut Watched::new(requests),
        &mut out,
        &mut out_timing,
        &mut note,
    );
    Ended {
        outcome,
        text: out.into_inner(),
        new_timing: out_timing.into_inner(),
        note: note.into_inner(),
    }
}

/// What stands in a page between its player's parts.
pub fn data_of(page: &[u8]) -> &str {
    let text = str::from_utf8(page).unwrap_or("");
    let (_, rest) = text.split_once(" id=\"entries\">\n").unwrap_or(("", ""));
    let (data, _) = rest.split_once("\n</script>\n").unwrap_or(("", ""));
    data
}
