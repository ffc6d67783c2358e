//! The text of runs of neighbours.

ghost use Rattle.std.specs.Prelude.{◌≡◌, ◌++◌, OnOk};
ghost use Rattle.std.specs.List.{flat_map};
ghost use Rattle.certificate.specs.Runs.{runs_of};
ghost use Rattle.certificate.specs.Text.{run_text};

use crate::writing::push_number;
use std::alloc::AllocError;

/// Adds the run from the first number to the last.
fn push_run(out: &mut Vec<u8>, first: u32, last: u32) -> Result<(), AllocError>
    ensures { OnOk result (out.new.items ≡ out.old.items ++ run_text (record { first = first; last = last })) }
{
    push_number(out, b" ", u64::from(first))?;
    if first == last {
        return Ok(());
    }
    push_number(out, b"-", u64::from(last))
}

/// Adds the runs of the numbers.
pub(crate) fn push_runs(out: &mut Vec<u8>, numbers: &[u32]) -> Result<(), AllocError>
    ensures { OnOk result (out.new.items ≡ out.old.items ++ flat_map run_text (runs_of numbers.now)) }
{
    let [start, others @ ..] = numbers else {
        return Ok(());
    };
    let mut first = *start;
    let mut last = *start;
    for number in others {
        if last.checked_add(1) != Some(*number) {
            push_run(out, first, last)?;
            first = *number;
        }
        last = *number;
    }
    push_run(out, first, last)
}
