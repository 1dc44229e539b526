// Counts how many constants in a range load by each form (document 02, P14), without walking the range.
#![tactic(auto)]

ghost use Rattle.std.specs.Prelude.{◌≡◌, ◌-◌, ◌^◌, ◌≤◌, min};
ghost use Rattle.form_counts.specs.FormCounts.{count_forms};
ghost use Rattle.form_counts.specs.Below.{below, between};

use refusal::Refusal;

#[derive(Clone, Copy)]
pub struct FormCounts {
    pub addiu: u64,
    pub ori: u64,
    pub lui: u64,
    pub both: u64,
}

// Counts the constants below n by form.
fn count_below(n: u64) -> FormCounts
    requires { n ≤ 2 ^ 32 }
    ensures { result ≡ below n }
{
    let addiu = n.min(0x8000) + n.saturating_sub(0xFFFF_8000);
    let ori = n.min(0x1_0000).saturating_sub(0x8000);
    let lui = ((n + 0xFFFF) / 0x1_0000).saturating_sub(1);
    let both = n.saturating_sub(addiu + ori + lui);
    FormCounts {
        addiu,
        ori,
        lui,
        both,
    }
}

// Subtracts the counts below a range from the counts up to its end.
fn less(to: FormCounts, from: FormCounts) -> FormCounts
    ensures { result ≡ between from to }
{
    FormCounts {
        addiu: to.addiu.saturating_sub(from.addiu),
        ori: to.ori.saturating_sub(from.ori),
        lui: to.lui.saturating_sub(from.lui),
        both: to.both.saturating_sub(from.both),
    }
}

// Counts the constants from `start` to `end` inclusive, by form.
pub fn count_forms(start: u32, end: u32) -> Result<FormCounts, Refusal>
    ensures { result ≡ count_forms start end }
{
    if end < start {
        return Err(Refusal::StartPastEnd);
    }
    let from = count_below(u64::from(start));
    let to = count_below(u64::from(end) + 1);
    Ok(less(to, from))
}
