// Numbers in bytes.
ghost use Rattle.std.specs.Prelude.{◌≡◌, ◌≤◌, ◌<◌, ◌+◌, ◌*◌, ◌++◌, All, FitsSigned, IfOk, drop, length, vec_capacity, vec_len};
ghost use Rattle.std.specs.Int.{from_le_bytes, w64};
ghost use Rattle.columns.specs.{IsWidth, number_in, packed_by, values_in};

use crate::packing::Packing;
use rdf_values::Memory;

/// The number of so many bytes at a place, lowest first.
pub(crate) fn number_at(bytes: &[u8], at: usize, width: u32) -> u64
    requires width { IsWidth width }
    requires there { at + width ≤ length bytes.now }
    ensures { result ≡ number_in width (drop at bytes.now) }
{
    match width {
        0 => 0,
        1 => u64::from(bytes[at]),
        2 => u64::from(u16::from_le_bytes([bytes[at], bytes[at + 1]])),
        4 => u64::from(u32::from_le_bytes([
            bytes[at],
            bytes[at + 1],
            bytes[at + 2],
            bytes[at + 3],
        ])),
        _ => u64::from_le_bytes([
            bytes[at],
            bytes[at + 1],
            bytes[at + 2],
            bytes[at + 3],
            bytes[at + 4],
            bytes[at + 5],
            bytes[at + 6],
            bytes[at + 7],
        ]),
    }
}

// Reads numbers from their bytes: each one's difference to the least stands in so many, lowest first.
fn read_each<const WIDTH: u32>(bytes: &[u8], least: i64, numbers: &mut [i64])
    requires width { IsWidth WIDTH }
    requires long { length numbers.old * WIDTH ≤ length bytes.now }
    requires words { All (FitsSigned w64) (values_in least WIDTH (length numbers.old) bytes.now) }
    ensures { numbers.new ≡ values_in least WIDTH (length numbers.old) bytes.now }
{
    for place in 0..numbers.len() {
        let difference = number_at(bytes, place * WIDTH as usize, WIDTH);
        numbers[place] = least.wrapping_add_unsigned(difference);
    }
}

/// Reads numbers from their bytes. Each width has a loop of its own, without a call or a test for each number.
pub(crate) fn read_packed(bytes: &[u8], packing: Packing, numbers: &mut [i64])
    requires width { IsWidth packing.width }
    requires long { length numbers.old * packing.width ≤ length bytes.now }
    requires words { All (FitsSigned w64) (values_in packing.least packing.width (length numbers.old) bytes.now) }
    ensures { numbers.new ≡ values_in packing.least packing.width (length numbers.old) bytes.now }
{
    let least = packing.least;
    match packing.width {
        0 => read_each::<0>(bytes, least, numbers),
        1 => read_each::<1>(bytes, least, numbers),
        2 => read_each::<2>(bytes, least, numbers),
        4 => read_each::<4>(bytes, least, numbers),
        _ => read_each::<8>(bytes, least, numbers),
    }
}

// Appends the bytes of numbers, for which there is room: each one's difference to the least in so many, lowest first.
// The bytes come by value, so that how many they are can stay in a register.
#[tactic(auto, using(std::proofs::lemmas::List::take_all))]
fn push_each<const WIDTH: usize>(values: &[i64], least: i64, mut bytes: Vec<u8>) -> Vec<u8>
    requires width { IsWidth WIDTH }
    requires room { vec_len bytes + length values.now * WIDTH ≤ vec_capacity bytes }
    ensures grown { result.items ≡ bytes.items ++ packed_by (record { least = least; width = WIDTH }) values.now }
    ensures words { All (FitsSigned w64) values.now }
{
    for value in values {
        let low = value.abs_diff(least).to_le_bytes();
        for byte in &low[..WIDTH] {
            bytes.push_reserved(*byte);
        }
    }
    bytes
}

/// Appends the bytes of numbers. Each width has a loop of its own, without a call or a test for each number.
pub(crate) fn push_packed(
    values: &[i64],
    packing: Packing,
    mut bytes: Vec<u8>,
) -> Result<Vec<u8>, Memory>
    requires width { IsWidth packing.width }
    requires few { length values.now ≤ 1000000 }
    ensures grown { IfOk result (λ all. all.items ≡ bytes.items ++ packed_by packing values.now) }
    ensures words { IfOk result (λ _. All (FitsSigned w64) values.now) }
{
    let least = packing.least;
    bytes.reserve(values.len() * packing.width as usize)?;
    Ok(match packing.width {
        0 => push_each::<0>(values, least, bytes),
        1 => push_each::<1>(values, least, bytes),
        2 => push_each::<2>(values, least, bytes),
        4 => push_each::<4>(values, least, bytes),
        _ => push_each::<8>(values, least, bytes),
    })
}
