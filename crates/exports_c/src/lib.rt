// The C library: the functions of `exports` under their C names, each with the same clauses.
// Kept: the C interface. A function of a library can't be `extern "C"` without a C name, so each one here calls its twin there.
#![tactic(auto)]

ghost use Rattle.exports.specs.Exports.{Checked, Rewritten, Read};

#[unsafe(no_mangle)]
pub extern "C" fn ghadibosh_check(
    file: &[u8],
    report: &mut [u32],
    place: &mut u64,
    job: &mut u64,
) -> u32
    ensures { Checked file.now report.old result place.new job.new report.new }
{
    exports::ghadibosh_check(file, report, place, job)
}

#[unsafe(no_mangle)]
pub extern "C" fn ghadibosh_rewrite(
    file: &[u8],
    out: &mut [u8],
    place: &mut u64,
    job: &mut u64,
) -> u32
    ensures { Rewritten file.now out.old result place.new job.new out.new }
{
    exports::ghadibosh_rewrite(file, out, place, job)
}

#[unsafe(no_mangle)]
pub extern "C" fn ghadibosh_read(file: &[u8], place: &mut u64, job: &mut u64) -> u32
    ensures { Read file.now result place.new job.new }
{
    exports::ghadibosh_read(file, place, job)
}
