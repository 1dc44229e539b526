// Looks a name up in a list of labels, through an ordered index, and counts the names compared (document 02, P13).
#![tactic(auto)]

ghost use Rattle.std.specs.Prelude.{◌≡◌};
ghost use Rattle.label_finder.specs.Find.{layout_verdicts, FindIs};

use labels::{Found, LabelTable};
use refusal::Refusal;

// Refusal 1: the first buffer that breaks its layout.
fn check_layouts(labels: &[u8], name: &[u8]) -> Result<(), Refusal>
    ensures { result ≡ layout_verdicts labels.now name.now }
{
    refusal::check_layout(0, labels::first_bad_label(labels))?;
    refusal::check_layout(1, record::past_limit(name))
}

// Finds the label that `name` stands for in `source`: returns its address or none, and the count of names compared, or a refusal.
pub fn find_label(labels: &[u8], name: &[u8], source: u32) -> Result<Found, Refusal>
    ensures { FindIs labels.now name.now source result }
{
    check_layouts(labels, name)?;
    let mut order = [0u16; labels::MOST];
    let mut spare = [0u16; labels::MOST];
    let table = LabelTable::make(labels, &mut order, &mut spare)?;
    Ok(table.get(source, name))
}
