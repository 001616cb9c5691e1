//! Reachability in a directed graph, by a worklist.

ghost use Rattle.std.specs.Prelude.{◌≡◌, ℕ, ◌<◌, false, length, map, IfOk, slice_index_or};
ghost use Rattle.fancy_regex_info.specs.Reachability.{has, through, rows};

use std::alloc::{AllocError, Global};

/// Marks each vertex that can be visited from `starts`, which are visited themselves; `edges[k]` lists the successors of
/// vertex `k`. Numbers that are no vertex are ignored. Fails only if memory runs out.
pub(crate) fn reachable(
    alloc: Global,
    edges: &[Vec<usize>],
    starts: &[usize],
) -> Result<Vec<bool>, AllocError>
    ensures length { IfOk result (λ seen. length seen.items ≡ length edges.now) }
    ensures marks { IfOk result (λ seen. (k : ℕ) → k < length edges.now
        → slice_index_or seen.items k false ≡ has (through (rows edges.now) (length edges.now) starts.now) k) }
{
    let mut seen = vec![in alloc; false; edges.len()]?;
    let mut open = Vec::from_slice(alloc, starts)?;
    while let Some(place) = open.pop() {
        if place < seen.len() && !seen[place] {
            seen[place] = true;
            open.extend_from_slice(&edges[place])?;
        }
    }
    Ok(seen)
}
