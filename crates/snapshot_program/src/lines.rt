// The lines that are this program's own.
ghost use Rattle.std.specs.Prelude.{◌≡◌, ◌++◌, ◌∷◌, IfOk, length};
ghost use Rattle.rdf_model.specs.{fault_name};
ghost use Rattle.rdf_values.specs.{line};
ghost use Rattle.snapshot_due.specs.{cause_line, fault_line, long_line, under_text, usage_line};
ghost use Rattle.snapshot_program.specs.{IsWithin};

use rdf_values::{EntryFault, Memory, Name, Text};
use result_text::numbers::put_count;
use snapshot_plan::{SnapCause, Under};
use snapshot_words::SnapCommand;
use std::alloc::Global;

fn whole(alloc: Global, bytes: &[u8]) -> Result<Text, Memory>
    ensures { IfOk result (λ text. text ≡ bytes.now) }
{
    let mut text = Text::new(alloc);
    text.extend(bytes)?;
    Ok(text)
}

// A line that ends in some bytes.
fn ending(alloc: Global, label: &[u8], bytes: &[u8]) -> Result<Text, Memory>
    ensures { IfOk result (λ text. text ≡ line (label.now ++ bytes.now)) }
{
    let mut text = Text::new(alloc);
    text.extend(label)?;
    text.extend(bytes)?;
    text.push(b'\n')?;
    Ok(text)
}

/// How the command is called.
pub(crate) fn usage_line(alloc: Global) -> Result<Text, Memory>
    ensures { IfOk result (λ text. text ≡ usage_line) }
{
    whole(
        alloc,
        b"usage: rdf_snapshot SCRIPT TABLE NODE COLUMNS UNDER [--slots N] [--cluster N]\n",
    )
}

/// The text would be too long.
pub(crate) fn long_line(alloc: Global) -> Result<Text, Memory>
    ensures { IfOk result (λ text. text ≡ long_line) }
{
    whole(alloc, b"snapshot longer than 67108864 bytes\n")
}

// The name and the tag of a variation around a colon.
fn varied_text(alloc: Global, name: &Name, tag: &Name) -> Result<Text, Memory>
    ensures { IfOk result (λ text. text ≡ name.now ++ 58 ∷ tag.now) }
{
    let mut text = Text::new(alloc);
    text.extend(name.bytes())?;
    text.push(b':')?;
    text.extend(tag.bytes())?;
    Ok(text)
}

// Nominal or a variation, as the command's word says it.
fn under_text(alloc: Global, under: &Under) -> Result<Text, Memory>
    ensures { IfOk result (λ text. text ≡ under_text under.now) }
{
    match under {
        Under::Nominal => whole(alloc, b"nominal"),
        Under::Varied { name, tag } => varied_text(alloc, name, tag),
    }
}

/// Why there is no plan.
pub(crate) fn cause_line(
    alloc: Global,
    command: &SnapCommand,
    cause: SnapCause,
) -> Result<Text, Memory>
    requires { IsWithin (length command.now.columns) cause }
    ensures { IfOk result (λ text. text ≡ cause_line command.now cause) }
{
    match cause {
        SnapCause::BadNode => ending(alloc, b"no node ", command.node.bytes()),
        SnapCause::BadColumn { column } => {
            let name = command.columns.at(column as usize);
            ending(alloc, b"no column ", name.bytes())
        }
        SnapCause::BadVariation => {
            let under = under_text(alloc, &command.under)?;
            ending(alloc, b"no variation ", under.as_bytes())
        }
        SnapCause::TooMany { count: _ } => whole(alloc, b"too many columns\n"),
    }
}

fn fault_name(kind: EntryFault) -> &'static str
    ensures { result.now ≡ fault_name kind }
{
    match kind {
        EntryFault::Overflow => "F1 Overflow",
        EntryFault::ZeroDivisor => "F2 ZeroDivisor",
        EntryFault::Index => "F3 Index",
        EntryFault::EmptyVector => "F4 EmptyVector",
        EntryFault::Lengths => "F5 Lengths",
        EntryFault::VaryCount => "F6 VaryCount",
        EntryFault::Weight => "F7 Weight",
        EntryFault::Function => "F8 Function",
    }
}

/// The first fault, at an entry of that node.
pub(crate) fn fault_line(
    alloc: Global,
    node: &Name,
    entry: u32,
    kind: EntryFault,
) -> Result<Text, Memory>
    ensures { IfOk result (λ text. text ≡ fault_line node.now (record { entry = entry; kind = kind })) }
{
    let mut text = Text::new(alloc);
    text.extend(b"fault at entry ")?;
    put_count(alloc, &mut text, u64::from(entry))?;
    text.extend(b" in ")?;
    text.extend(node.bytes())?;
    text.extend(b": ")?;
    text.extend(fault_name(kind).as_bytes())?;
    text.push(b'\n')?;
    Ok(text)
}
