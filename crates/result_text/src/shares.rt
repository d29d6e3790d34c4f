// What part of the entries a filter passes.
ghost use Rattle.std.specs.Prelude.{◌≡◌, ◌++◌, OnOk};
ghost use Rattle.rdf_model.specs.{flow_line, percent};
ghost use Rattle.result_text.specs.{counts_seen};

use crate::numbers::{put_count, put_wide};
use loop_pieces::Counts;
use rdf_values::{Label, Memory, Text};
use std::alloc::Global;

// Appends what percentage a part is of a whole, with two decimals cut off, or `none` of nothing.
fn put_percent(alloc: Global, text: &mut Text, part: u64, whole: u64) -> Result<(), Memory>
    ensures { OnOk result (text.new ≡ text.old ++ percent part whole) }
{
    if whole == 0 {
        return text.extend(b"none");
    }
    let hundredths = u128::from(part) * 10_000 / u128::from(whole);
    let decimals = hundredths % 100;
    put_wide(alloc, text, hundredths / 100)?;
    text.push(b'.')?;
    put_wide(alloc, text, decimals / 10)?;
    put_wide(alloc, text, decimals % 10)
}

/// Appends the line of a filter in a report of that name, where the first filter shown was reached by so many entries.
pub fn put_flow_line(
    alloc: Global,
    text: &mut Text,
    name: &[u8],
    first: u64,
    label: &Label,
    counts: Counts,
) -> Result<(), Memory>
    ensures { OnOk result (text.new ≡ text.old ++ flow_line name.now first label.now (counts_seen counts)) }
{
    text.extend(name)?;
    text.extend(b": ")?;
    text.extend(label.bytes())?;
    text.extend(b" pass=")?;
    put_count(alloc, text, counts.pass)?;
    text.extend(b" all=")?;
    put_count(alloc, text, counts.all)?;
    text.extend(b" eff=")?;
    put_percent(alloc, text, counts.pass, counts.all)?;
    text.extend(b" cumulative=")?;
    put_percent(alloc, text, counts.pass, first)?;
    text.push(b'\n')
}
