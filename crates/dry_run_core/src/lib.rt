// The dry run of a region list.
#![tactic(auto)]

ghost use Rattle.std.specs.Prelude.{◌≡◌, MatchResult};
ghost use Rattle.reading.specs.Reading.{image_of};
ghost use Rattle.dry_run_outcome.specs.DryRun.{can_start, started, dry_run_verdict, dry_run_outcome};

use dry_run_outcome::DryRun;
use image::Placed;
use machine::Machine;
use refusal::Refusal;
use regions::Regions;

mod image;
mod steps;

// Runs the image from the machine's pc on, or refuses to start.
pub fn dry_run(regions: &[u8], machine: Machine, allowance: u32) -> DryRun
    ensures { result ≡ dry_run_outcome regions.now machine allowance }
{
    match check(regions, machine.pc) {
        Err(refusal) => DryRun {
            machine,
            answer: Err(refusal),
        },
        Ok(image) => {
            let ran = steps::run(&image, start(machine), allowance);
            DryRun {
                machine: ran.machine,
                answer: Ok(ran.stopped),
            }
        }
    }
}

// Returns the image if a run may start at this pc, else the refusal.
fn check(regions: &[u8], pc: u32) -> Result<Placed<'_>, Refusal>
    ensures { MatchResult result
        (λ image. (dry_run_verdict regions.now pc ≡ Ok tt) × (image ≡ image_of regions.now))
        (λ refusal. dry_run_verdict regions.now pc ≡ Err refusal) }
{
    refusal::check_layout(0, regions::first_bad_region(regions))?;
    let image = Placed::new(Regions::new(regions));
    if !can_start(&image, pc) {
        return Err(Refusal::BadStart);
    }
    Ok(image)
}

fn can_start(image: &Placed<'_>, pc: u32) -> bool
    ensures { result ≡ can_start image.now pc }
{
    pc % 4 == 0 && image.fetch(pc).is_some()
}

// Sets $zero to 0, whatever was given for it.
fn start(machine: Machine) -> Machine
    ensures { result ≡ started machine }
{
    let mut m = machine;
    m.registers[0] = 0;
    m
}
