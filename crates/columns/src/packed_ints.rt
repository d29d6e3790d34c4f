// The numbers of an int column, packed.
ghost use Rattle.std.specs.Prelude.{◌≡◌, ◌≤◌, ◌<◌, ◌+◌, ◌++◌, ℕ, [], IfOk, Some, length, slice_get, slice_index_or, drop, take};
ghost use Rattle.rdf_values.specs.{cut};
ghost use Rattle.columns.specs.Packings.{AreNumbers, IsBlock, cluster_values, packed_of, packing_of};
ghost use Rattle.columns.specs.Joins.{joined};

use crate::bytes::{number_at, push_packed, read_packed};
use crate::cuts::Cuts;
use crate::packing::Packing;
use crate::pieces::gather;
use rdf_values::{Memory, Numbers};
use std::alloc::Global;
use std::marker::Model;

/// How a cluster's numbers are packed, where their bytes begin, and how many they are.
#[derive(Clone, Copy)]
pub(crate) struct PackedCluster {
    packing: Packing,
    begin: usize,
    entries: u32,
}

/// The numbers of a column by cluster. Each cluster's bytes stand behind those of the one before.
#[derive(Drop)]
pub(crate) struct PackedInts {
    blocks: Vec<PackedCluster>,
    bytes: Vec<u8>,
}

impl Model for PackedInts {
    ghost use Rattle.std.specs.Prelude.{List, ℤ, map};
    ghost use Rattle.columns.specs.Packings.{AreBlocks, block_values};

    ghost Value = { List (List ℤ) };

    ghost view = { λ p. map (block_values p.bytes.items) p.blocks.items };

    ghost invariant = { λ p. AreBlocks p.bytes.items p.blocks.items (map (block_values p.bytes.items) p.blocks.items) };
}

// Appends the bytes of a cluster's numbers, and tells where they stand.
#[tactic(auto, using(crate::proofs::BlockSteps::packing_width, crate::proofs::BlockSteps::block_made))]
fn pack_cluster(values: &[i64], bytes: Vec<u8>) -> Result<(PackedCluster, Vec<u8>), Memory>
    requires some { 0 < length values.now }
    requires few { length values.now ≤ 1000000 }
    ensures block { IfOk result (λ g. IsBlock g.1.items g.0 values.now) }
    ensures grown { IfOk result (λ g. g.1.items ≡ bytes.items ++ packed_of values.now) }
{
    let packing = Packing::of(values);
    let block = PackedCluster {
        packing,
        begin: bytes.len(),
        entries: values.len() as u32,
    };
    let bytes = push_packed(values, packing, bytes)?;
    Ok((block, bytes))
}

/// The numbers of a column in pieces, packed by cluster.
#[tactic(auto, using(crate::proofs::BlockSteps::cluster_within))]
pub(crate) fn pack(alloc: Global, pieces: &[Numbers], cuts: &Cuts) -> Result<PackedInts, Memory>
    requires size { length (joined pieces.now) ≡ cuts.now.entries }
    requires few { length (joined pieces.now) ≤ 1000000 }
    ensures { IfOk result (λ p. p ≡ cluster_values (cut cuts.now.entries cuts.now.size cuts.now.marks) (joined pieces.now)) }
{
    let mut blocks = Vec::new(alloc);
    let mut bytes = Vec::new(alloc);
    let mut gathered = Vec::new(alloc);
    for cluster in 0..cuts.count() {
        let range = cuts.range(cluster);
        gather(pieces, range.lo as usize, range.hi as usize, &mut gathered)?;
        let (block, grown) = pack_cluster(gathered.as_slice(), bytes)?;
        bytes = grown;
        blocks.push(block)?;
    }
    Ok(PackedInts { blocks, bytes })
}

impl PackedInts {
    /// How a cluster's numbers are packed.
    pub(crate) fn packing(&self, cluster: usize) -> Packing
        requires { cluster < length self.now }
        ensures { result ≡ packing_of (slice_index_or self.now cluster []) }
    {
        self.blocks[cluster].packing
    }

    /// The bytes of a cluster's numbers.
    pub(crate) fn packed(&self, cluster: usize) -> &[u8]
        requires { cluster < length self.now }
        ensures { result.now ≡ packed_of (slice_index_or self.now cluster []) }
    {
        let block = &self.blocks[cluster];
        let size = block.entries as usize * block.packing.width as usize;
        &self.bytes[block.begin..block.begin + size]
    }

    // How a cluster's numbers are packed, and their bytes from a place on, with all that stand behind these.
    #[tactic(auto, using(crate::proofs::InPieces::there, crate::proofs::InPieces::bytes_from))]
    fn packed_from(&self, cluster: usize, place: usize) -> (Packing, &[u8])
        requires cluster { cluster < length self.now }
        requires place { place ≤ length (slice_index_or self.now cluster []) }
        ensures { (n : ℕ) → place + n ≤ length (slice_index_or self.now cluster []) → AreNumbers result.0 result.1.now n (take n (drop place (slice_index_or self.now cluster []))) }
    {
        let block = &self.blocks[cluster];
        let begin = block.begin + place * block.packing.width as usize;
        (block.packing, &self.bytes[begin..])
    }

    /// Reads numbers of a cluster, from a place on.
    pub(crate) fn read(&self, cluster: usize, from: usize, numbers: &mut [i64])
        requires cluster { cluster < length self.now }
        requires within { from + length numbers.old ≤ length (slice_index_or self.now cluster []) }
        ensures { numbers.new ≡ take (length numbers.old) (drop from (slice_index_or self.now cluster [])) }
    {
        let (packing, bytes) = self.packed_from(cluster, from);
        read_packed(bytes, packing, numbers);
    }

    /// A number of a cluster, both counted from 0.
    pub(crate) fn at(&self, cluster: usize, place: usize) -> i64
        requires cluster { cluster < length self.now }
        requires place { place < length (slice_index_or self.now cluster []) }
        ensures { slice_get (slice_index_or self.now cluster []) place ≡ Some result }
    {
        let (packing, bytes) = self.packed_from(cluster, place);
        let difference = number_at(bytes, 0, packing.width);
        packing.least.wrapping_add_unsigned(difference)
    }
}
