// The event loops of a script and the loop that each Print runs.
ghost use Rattle.std.specs.Prelude.{◌≡◌, ◌≤◌, ◌+◌, ◌++◌, ◌∷◌, length, map, Some, IfOk, IfSome, OnOk, ◌<◌};
ghost use Rattle.std.specs.List.{position};
ghost use Rattle.rdf_values.specs.{same, Statement};
ghost use Rattle.graph_numbers.specs.{numbered_pass};
ghost use Rattle.graph.specs.{AreLoops, AreNamedInTurn, BeginsWith, has, history, members_from, passes_of_rows, statements};

use crate::amounts::has_variations;
use crate::before::Before;
use crate::lookup::result_count;
use crate::sets::VarSet;
use crate::tables::ResultRow;
use graph_numbers::Pass;
use rdf_values::{Line, ListOf, Memory, Name, Statement};

/// The passes of each loop; for each Print its result and the loop that fills it; and for each result that is filled its loop.
#[derive(Drop)]
pub struct LoopTables {
    pub loops: Vec<ListOf<Pass>>,
    pub prints: Vec<u32>,
    pub filling: Vec<u32>,
    pub fillers: Vec<u32>,
}

impl LoopTables {
    /// Adds a Print after the lines before it: where its result isn't filled yet, it runs a loop over all results that wait.
    fn add_print(&mut self, script: &Before<'_>, before: &[Line], name: &Name) -> Result<(), Memory>
        requires named { AreNamedInTurn (Statement.Print name.now ∷ statements before.now) }
        requires begins { BeginsWith (history script.now) (statements before.now) }
        requires lines { length before.now ≤ 256 }
        requires old { AreLoops (history script.now) (statements before.now) self.old }
        ensures { OnOk result (AreLoops (history script.now) (Statement.Print name.now ∷ statements before.now) self.new) }
    {
        let results = script.tables.results.as_slice();
        let Some(n) = number_of(results, name) else {
            unreachable!()
        };
        let filled = self.fillers.len();
        if n >= filled {
            let booked = result_count(before);
            let open = &results[filled..booked];
            let mut passes = ListOf::new(script.alloc);
            let variations = script.tables.variations.len();
            push_passes(&mut passes, script.lines, variations, filled as u32, open)?;
            let place = self.loops.len() as u32;
            self.loops.push(passes)?;
            self.fillers.resize(booked, place)?;
        }
        self.prints.push(n as u32)?;
        self.filling.push(self.fillers[n])?;
        Ok(())
    }
}

#[tactic(auto, using(crate::proofs::Looped::begins_further, crate::proofs::Looped::no_lines, crate::proofs::Looped::none_yet))]
pub(crate) fn loop_tables(script: &Before<'_>, lines: &[Line]) -> Result<LoopTables, Memory>
    requires named { AreNamedInTurn (statements lines.now) }
    requires begins { BeginsWith (history script.now) (statements lines.now) }
    requires lines { length lines.now ≤ 256 }
    ensures { IfOk result (AreLoops (history script.now) (statements lines.now)) }
{
    let Some((last, rest)) = lines.split_first() else {
        return Ok(LoopTables {
            loops: Vec::new(script.alloc),
            prints: Vec::new(script.alloc),
            filling: Vec::new(script.alloc),
            fillers: Vec::new(script.alloc),
        });
    };
    let mut tables = loop_tables(script, rest)?;
    if let Statement::Print { result } = &last.statement {
        tables.add_print(script, rest, result)?;
    }
    Ok(tables)
}

#[tactic(auto, using(crate::proofs::Walking::position_within))]
fn number_of(results: &[ResultRow], name: &Name) -> Option<usize>
    ensures value { result ≡ position (λ r. same r.name name.now) results.now }
    ensures within { IfSome result (λ n. n < length results.now) }
{
    results.iter().position(|row| row.name.is(name))
}

/// Appends the passes of a result under those of so many variations from v on that are in the set.
fn push_varied(out: &mut ListOf<Pass>, n: u32, set: VarSet, v: u32, left: u32) -> Result<(), Memory>
    requires { v + left ≤ 128 }
    ensures { OnOk result (out.new ≡ out.old ++ map (λ w. numbered_pass n (Some w)) (members_from (has set) v left)) }
{
    if left == 0 {
        return Ok(());
    }
    if set.contains(v) {
        out.push(Pass {
            result: n,
            variation: Some(v),
        })?;
    }
    push_varied(out, n, set, v + 1, left - 1)
}

fn push_passes(
    passes: &mut ListOf<Pass>,
    lines: &[Line],
    variations: u32,
    n: u32,
    results: &[ResultRow],
) -> Result<(), Memory>
    requires few { variations ≤ 128 }
    requires room { n + length results.now ≤ 4294967295 }
    ensures { OnOk result (passes.new ≡ passes.old ++ passes_of_rows (statements lines.now) variations n results.now) }
{
    let Some((first, rest)) = results.split_first() else {
        return Ok(());
    };
    passes.push(Pass {
        result: n,
        variation: None,
    })?;
    if has_variations(lines, &first.name) {
        push_varied(passes, n, first.set, 0, variations)?;
    }
    push_passes(passes, lines, variations, n + 1, rest)
}
