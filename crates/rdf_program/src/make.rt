// A table that is made from two numbers, and a script for it: a large input that anybody can make again.
ghost use Rattle.std.specs.Prelude.{◌≡◌, ◌≤◌, ◌++◌, ◌∷◌, [], OnOk, IfOk, decimal, map};
ghost use Rattle.std.specs.List.{join_with_byte};
ghost use Rattle.rdf_values.specs.{entry_line, generated_script, generated_table, residue};

use itoa::Buffer;
use rdf_values::{Bytes, Memory};
use std::alloc::Global;

/// The text of the script for a generated table.
pub(crate) fn make_script(alloc: Global) -> Result<Bytes, Memory>
    ensures { IfOk result (λ bytes. bytes ≡ generated_script) }
{
    let mut bytes = Bytes::new(alloc);
    bytes.extend(b"v = df.Vary(\"c0\", \"{c0 - 100, c0 + 100}\", [\"down\", \"up\"])\n")?;
    bytes.extend(b"f = v.Filter(\"c0 > 499\", \"high\")\n")?;
    bytes.extend(b"n = f.Count()\n")?;
    bytes.extend(b"s = f.Sum(\"c0\")\n")?;
    bytes.extend(b"h = df.Histo1D([0, 500, 1000], \"v\")\n")?;
    bytes.extend(b"m = df.Max(\"c3\")\n")?;
    bytes.extend(b"r = df.Report()\n")?;
    bytes.extend(b"VariationsFor(n)\nVariationsFor(s)\n")?;
    bytes.extend(b"Print(n)\nPrint(s)\nPrint(h)\nPrint(m)\nPrint(r)\n")?;
    Ok(bytes)
}

fn residue(seed: u32, entry: u32, column: u32) -> u32
    ensures { result ≡ residue seed entry column }
{
    let sum = u64::from(entry) * 7919 + u64::from(column) * 104_729 + u64::from(seed);
    (sum % 1000) as u32
}

// Appends a number and the byte behind it.
fn push_number(bytes: &mut Bytes, number: u32, end: u8) -> Result<(), Memory>
    ensures { OnOk result (bytes.new ≡ bytes.old ++ (decimal number ++ end ∷ [])) }
{
    bytes.extend(Buffer::new().format(number).as_bytes())?;
    bytes.push(end)
}

// Appends the elements of a vector, and the end of the line.
fn push_vector(bytes: &mut Bytes, elements: &[u32]) -> Result<(), Memory>
    ensures { OnOk result (bytes.new ≡ bytes.old ++ (join_with_byte 59 (map decimal elements.now) ++ 10 ∷ [])) }
{
    match elements {
        [] => bytes.push(b'\n'),
        [last] => push_number(bytes, *last, b'\n'),
        [first, rest @ ..] => {
            push_number(bytes, *first, b';')?;
            push_vector(bytes, rest)
        }
    }
}

// Appends the line of an entry: its four numbers, and as many of the last three as the first says.
fn push_line(bytes: &mut Bytes, seed: u32, entry: u32) -> Result<(), Memory>
    ensures { OnOk result (bytes.new ≡ bytes.old ++ entry_line seed entry) }
{
    let c0 = residue(seed, entry, 0);
    let c1 = residue(seed, entry, 1);
    let c2 = residue(seed, entry, 2);
    let c3 = residue(seed, entry, 3);
    push_number(bytes, c0, b',')?;
    push_number(bytes, c1, b',')?;
    push_number(bytes, c2, b',')?;
    push_number(bytes, c3, b',')?;
    let elements = [c1, c2, c3];
    push_vector(bytes, &elements[..(c0 % 4) as usize])
}

/// The text of the table of so many entries from a seed.
pub(crate) fn make_table(alloc: Global, entries: u32, seed: u32) -> Result<Bytes, Memory>
    requires some { 1 ≤ entries }
    requires few { entries ≤ 1000000 }
    ensures { IfOk result (λ bytes. bytes ≡ generated_table entries seed) }
{
    let mut bytes = Bytes::new(alloc);
    bytes.extend(b"c0:int,c1:int,c2:int,c3:int,v:vec\n")?;
    for entry in 0..entries {
        push_line(&mut bytes, seed, entry)?;
    }
    Ok(bytes)
}
