// What a person reads of the times of stages.

ghost use Rattle.std.specs.Prelude.{◌≡◌, ◌*◌, ◌/◌, ◌-◌, ◌<◌, ◌^◌, min};

use crate::times::StageTime;
use std::alloc::{AllocError, Global};

/// The line of a stage: its number from 0, what its steps come to, their share of the run's time,
/// in nanoseconds, and the names of its nodes. An error comes where memory runs out.
pub fn stage_line(
    alloc: Global,
    at: usize,
    time: StageTime,
    run_time: u64,
    names: &[u8],
) -> Result<Vec<u8>, AllocError> {
    let steps = time.steps;
    let noun = if steps == 1 { "step" } else { "steps" };
    let seconds = seconds_text(alloc, time.nanoseconds)?;
    let share = share_text(alloc, time.nanoseconds, run_time)?;
    let whole = seconds_text(alloc, run_time)?;
    let told = format!(in alloc;
        "strc: stage {at}: {steps} {noun} in {seconds} s, {share}% of {whole} s: "
    )?;
    let mut line = told.as_bytes().to_vec(alloc)?;
    line.extend_from_slice(names)?;
    line.push(b'\n')?;
    Ok(line)
}

/// The line of a run in which no stage took a step by a worker of its own, and how long everything
/// took, in nanoseconds. An error comes where memory runs out.
pub fn alone_line(alloc: Global, time: u64) -> Result<Vec<u8>, AllocError> {
    let seconds = seconds_text(alloc, time)?;
    let told = format!(in alloc;
        "strc: the calling thread did all, in {seconds} s with reading and writing\n"
    )?;
    told.as_bytes().to_vec(alloc)
}

// Nanoseconds as seconds, with six digits after the point.
fn seconds_text(alloc: Global, nanoseconds: u64) -> Result<String, AllocError> {
    let seconds = nanoseconds / 1_000_000_000;
    let microseconds = nanoseconds % 1_000_000_000 / 1000;
    format!(in alloc; "{seconds}.{microseconds:06}")
}

// A part of a whole in percent, with one digit after the point.
fn share_text(alloc: Global, part: u64, whole: u64) -> Result<String, AllocError> {
    let share = thousandths(part, whole);
    format!(in alloc; "{}.{}", share / 10, share % 10)
}

// How many thousandths of a whole a part is, rounded down; none of nothing.
fn thousandths(part: u64, whole: u64) -> u64
    ensures part { 0 < whole → result ≡ min (part * 1000 / whole) (2 ^ 64 - 1) }
    ensures none { whole ≡ 0 → result ≡ 0 }
{
    if whole == 0 {
        return 0;
    }
    u64::try_from(u128::from(part) * 1000 / u128::from(whole)).unwrap_or(u64::MAX)
}
