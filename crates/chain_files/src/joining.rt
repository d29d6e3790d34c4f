// Joining the loops of parts.
ghost use Rattle.std.specs.Prelude.{◌≡◌, IfOk};
ghost use Rattle.chain_files.specs.Joining.{
  CanJoin,
  CanJoinAll,
  are_loops,
  is_faulty,
  joined_loop,
  joined_loops,
  joined_part,
  joined_parts,
};

use crate::part::{Part, PartFields};
use crate::part_loop::PartLoop;
use rdf_values::{ListOf, Memory};
use shard_lines::{PassShape, have_shapes, joined_lines};
use std::alloc::Global;

/// Whether these are the loops of the script whose passes have these shapes, up to the last one or to the first one with a
/// fault.
pub fn are_loops(loops: &[ListOf<PassShape>], found: &[PartLoop]) -> bool
    ensures { result ≡ are_loops loops.now found.now }
{
    for (i, one) in found.iter().enumerate() {
        if i >= loops.len() {
            return false;
        }
        match one {
            PartLoop::Whole(lines) => {
                if !have_shapes(loops[i].as_slice(), lines.as_slice()) {
                    return false;
                }
            }
            PartLoop::Faulted(fault) => return (fault.pass as usize) < loops[i].len(),
        }
    }
    found.len() >= loops.len()
}

// What a loop comes to in earlier files and in later ones.
fn joined_loop(
    alloc: Global,
    shapes: &[PassShape],
    earlier: PartLoop,
    later: &PartLoop,
) -> Result<PartLoop, Memory>
    ensures { IfOk result (λ one. one ≡ joined_loop shapes.now earlier later.now) }
{
    match earlier {
        PartLoop::Faulted(fault) => Ok(PartLoop::Faulted(fault)),
        PartLoop::Whole(lines) => match later {
            PartLoop::Faulted(fault) => Ok(PartLoop::Faulted(*fault)),
            PartLoop::Whole(others) => {
                let all = joined_lines(alloc, shapes, lines, others.as_slice())?;
                Ok(PartLoop::Whole(all))
            }
        },
    }
}

fn is_faulty(one: &PartLoop) -> bool
    ensures { result ≡ is_faulty one.now }
{
    matches!(one, PartLoop::Faulted(_))
}

/// The loops of earlier files and of later ones together, up to the first faulty one; `loops` has the shapes of each loop's
/// passes.
pub fn joined_loops(
    alloc: Global,
    loops: &[ListOf<PassShape>],
    earlier: ListOf<PartLoop>,
    later: &[PartLoop],
) -> Result<ListOf<PartLoop>, Memory>
    ensures { IfOk result (λ all. all ≡ joined_loops loops.now earlier later.now) }
{
    let mut all = ListOf::new(alloc);
    let mut number = 0;
    for one in earlier.into_vec() {
        if number >= loops.len() || number >= later.len() {
            return Ok(all);
        }
        let one = joined_loop(alloc, loops[number].as_slice(), one, &later[number])?;
        let over = is_faulty(&one);
        all.push(one)?;
        if over {
            return Ok(all);
        }
        number += 1;
    }
    Ok(all)
}

/// The part of the files of both parts, where the second begins with the file at which the first ends.
pub fn join_parts(
    alloc: Global,
    loops: &[ListOf<PassShape>],
    first: Part,
    second: Part,
) -> Result<Part, Memory>
    requires { CanJoin loops.now first second }
    ensures { IfOk result (λ part. part ≡ joined_part loops.now first second) }
{
    let first = first.into_fields();
    let second = second.into_fields();
    let all = joined_loops(alloc, loops, first.loops, second.loops.as_slice())?;
    Ok(Part::new(PartFields {
        first_file: first.first_file,
        end_file: second.end_file,
        entries: first.entries + second.entries,
        script: first.script,
        columns: first.columns,
        loops: all,
    }))
}

/// The part of the files of all parts, each of which begins with the file at which the one before it ends.
pub fn join_all(
    alloc: Global,
    loops: &[ListOf<PassShape>],
    first: Part,
    others: ListOf<Part>,
) -> Result<Part, Memory>
    requires { CanJoinAll loops.now first others }
    ensures { IfOk result (λ part. part ≡ joined_parts loops.now first others) }
{
    let mut all = first;
    for part in others.into_vec() {
        all = join_parts(alloc, loops, all, part)?;
    }
    Ok(all)
}
