// What every call that is lent a work area does with it: it asks its length, works on as much of it as a call uses, and clears that.
ghost use Rattle.std.specs.Prelude.{◌≡◌, ◌≤◌, ◌<◌, length, take, Err};
ghost use Rattle.model.specs.declared.Refusal.TheVariants.{WorkAreaShort};
ghost use Rattle.model.specs.Work.{work_length, cleared};
ghost use Rattle.work_area.specs.Step.{RunsOnArea, StepRan};

use crate::clear;
use model::Refusal;
use model::limits::WORK_LENGTH;

// Runs a step on a call's part of the work area and on the buffer that it fills, unless the area is too short.
pub fn in_work_area<T: Drop, B, F: FnOnce(&mut [u32], &mut [B]) -> Result<T, Refusal>>(
    work: &mut [u32],
    buffer: &mut [B],
    step: F,
) -> Result<T, Refusal>
    requires { RunsOnArea F.FnOnce step }
    ensures short { length work.old < work_length → (result ≡ Err WorkAreaShort) × (buffer.new ≡ buffer.old) }
    ensures ran { work_length ≤ length work.old → StepRan F.FnOnce step (take work_length work.old) buffer.old result buffer.new }
    ensures area_cleared { work.new ≡ cleared work.old }
{
    if work.len() < WORK_LENGTH {
        return Err(Refusal::WorkAreaShort);
    }
    let given = step(&mut work[..WORK_LENGTH], buffer);
    clear(work);
    given
}
