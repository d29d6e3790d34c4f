// Buckets over the edges of an axis.
ghost use Rattle.std.specs.Prelude.{◌≡◌, ◌<◌, ◌≤◌, ℕ, IfOk, OnOk, length, slice_index};
ghost use Rattle.histograms.specs.{bucket_of, IsAxis, KeepsBuckets};

use std::alloc::{AllocError, Global};

/// The most buckets of an axis, so that they stay in the nearest cache.
const MOST_BUCKETS: u64 = 4_096;

/// Buckets of one width, a power of two, from the first edge on: where a value lies is known but for the edges in its bucket.
#[derive(Debug, Drop)]
pub(crate) struct Buckets {
    pub(crate) first: i64,
    pub(crate) last: i64,
    shift: u32,
    /// For each bucket how many edges lie in those below it.
    starts: Vec<u32>,
}

// The bucket of a number from the first edge on.
fn bucket_of(first: i64, shift: u32, value: i64) -> u64
    requires { shift < 64 }
    ensures { result ≡ bucket_of first shift value }
{
    value.abs_diff(first) >> shift
}

// The least width, as a power of two, by which there are fewer buckets than so many.
fn shift_for(span: u64, most: u64) -> u32
    ensures { result < 64 }
{
    for shift in 0..63 {
        if span >> shift < most {
            return shift;
        }
    }
    63
}

// Lets each bucket up to this one begin with a cell, where it has none yet.
fn begin_up_to(starts: &mut Vec<u32>, bucket: u64, cell: u32) -> Result<(), AllocError>
    ensures kept { OnOk result ((b : ℕ) → b < length starts.old.items → slice_index starts.new.items b ≡ slice_index starts.old.items b) }
    ensures begun { OnOk result ((b : ℕ) → length starts.old.items ≤ b → b < length starts.new.items → slice_index starts.new.items b ≡ cell) }
    ensures longer { OnOk result (length starts.old.items ≤ length starts.new.items) }
    ensures reached { OnOk result (bucket < length starts.new.items) }
{
    while starts.len() as u64 <= bucket {
        starts.push(cell)?;
    }
    Ok(())
}

impl Buckets {
    /// The buckets of an axis.
    pub(crate) fn new(alloc: Global, edges: &[i64]) -> Result<Buckets, AllocError>
        requires { IsAxis edges.now }
        ensures { IfOk result (λ buckets. KeepsBuckets edges.now buckets) }
    {
        let first = edges[0];
        let last = edges[edges.len() - 1];
        let most = MOST_BUCKETS.min(4 * edges.len() as u64);
        let shift = shift_for(last.abs_diff(first), most);
        let mut starts = Vec::new(alloc);
        for (cell, edge) in edges.iter().enumerate() {
            begin_up_to(&mut starts, bucket_of(first, shift, *edge), cell as u32)?;
        }
        Ok(Buckets {
            first,
            last,
            shift,
            starts,
        })
    }

    /// How many edges lie in the buckets below a value's.
    pub(crate) fn start(&self, value: i64) -> u32
        requires shift { self.now.shift < 64 }
        requires bucket { bucket_of self.now.first self.now.shift value < length self.now.starts.items }
        ensures { result ≡ slice_index self.now.starts.items (bucket_of self.now.first self.now.shift value) }
    {
        self.starts[bucket_of(self.first, self.shift, value) as usize]
    }
}
