// The steps of a run.
ghost use Rattle.std.specs.Prelude.{◌≡◌};
ghost use Rattle.machine.specs.Step.{Zero};
ghost use Rattle.dry_run_outcome.specs.Run.{run};
ghost use Rattle.dry_run_outcome.specs.Run.{ran_for};

use crate::image::Placed;
use dry_run_outcome::{Ran, Stopped};
use machine::effects::Operands;
use machine::{Effect, Machine, Reason, effects, words};

// kept: a constructor; each return of `run` written out would be longer.
fn ran(machine: Machine, reason: Reason, steps: u32) -> Ran
    ensures { result ≡ ran_for steps machine reason }
{
    Ran {
        machine,
        stopped: Stopped { reason, steps },
    }
}

// Runs words from the machine's pc on, one a step, until the allowance is used up, the pc has no whole word, or a word stops the run.
pub(crate) fn run(image: &Placed<'_>, machine: Machine, allowance: u32) -> Ran
    requires { Zero machine.registers }
    ensures { result ≡ run allowance image.now machine }
{
    let mut m = machine;
    for steps in 0..allowance {
        let pc = m.pc;
        let Some(word) = image.fetch(pc) else {
            return ran(m, Reason::Pc, steps);
        };
        let i = words::rs(word);
        let j = words::rt(word);
        let s = m.registers[i];
        let t = m.registers[j];
        match effects::effect(word, pc, Operands { s, t }) {
            Effect::SetRt(value) => {
                m.registers[j] = value;
                m.registers[0] = 0;
                m.pc = effects::next_pc(pc);
            }
            Effect::SetRd(value) => {
                let k = words::rd(word);
                m.registers[k] = value;
                m.registers[0] = 0;
                m.pc = effects::next_pc(pc);
            }
            Effect::Go(target) => m.pc = target,
            Effect::Overflows => return ran(m, Reason::Overflow, steps),
            Effect::Unknown => return ran(m, Reason::Word, steps),
        }
    }
    ran(m, Reason::Allowance, allowance)
}
