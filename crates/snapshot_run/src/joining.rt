// The records of clusters, put together under a limit.
ghost use Rattle.std.specs.Prelude.{◌≡◌, ◌+◌, ◌++◌, IfSome, OnOk, flat_map, length};
ghost use Rattle.snapshot_text.specs.{header_text};
ghost use Rattle.snapshot_plan.specs.{plan_columns};
ghost use Rattle.snapshot_run.specs.{IsTogether};

use crate::stop::SnapStop;
use rdf_values::{Memory, Text};
use snapshot_plan::SnapPlan;
use snapshot_text::put_header;
use std::alloc::Global;

// The most bytes that a snapshot has.
const MOST_BYTES: usize = 67108864;

// So many bytes and those of the texts; none where no word has their number.
fn total(first: usize, texts: &[Text]) -> Option<usize>
    ensures { IfSome result (λ n. n ≡ first + length (flat_map (λ t. t) texts.now)) }
{
    let mut total = first;
    for text in texts {
        total = total.checked_add(text.as_bytes().len())?;
    }
    Some(total)
}

// Appends the texts in their order.
fn put_texts(whole: &mut Text, texts: &[Text]) -> Result<(), Memory>
    ensures { OnOk result (whole.new ≡ whole.old ++ flat_map (λ t. t) texts.now) }
{
    for text in texts {
        whole.extend(text.as_bytes())?;
    }
    Ok(())
}

/// The header of the plan's columns, and behind it the records.
pub(crate) fn put_together(
    alloc: Global,
    plan: &SnapPlan,
    records: &[Text],
) -> Result<Text, SnapStop>
    ensures { IsTogether (header_text (plan_columns plan.now) ++ flat_map (λ t. t) records.now) result }
{
    let header = plan.header(alloc)?;
    let mut text = Text::new(alloc);
    put_header(&mut text, header.as_slice())?;
    let Some(bytes) = total(text.as_bytes().len(), records) else {
        return Err(SnapStop::Memory);
    };
    if bytes > MOST_BYTES {
        return Err(SnapStop::TooLong { bytes });
    }
    put_texts(&mut text, records)?;
    Ok(text)
}
