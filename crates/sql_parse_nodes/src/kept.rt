//! Parts of trees, never with more levels than a statement may have.
//!
//! Functions that nest hand parts on from the heap, as `Kept<Boxed<T>>`: a frame holds several, and a
//! text may open 400 constructs in one another.
ghost use Rattle.std.specs.Prelude.{◌≡◌, [], ◌∷◌, ◌++◌, IfOk};
ghost use Rattle.sql_parse_nodes.specs.Kept as spec;

use std::alloc::Global;
use val_types::{Boxed, List, NoMemory};

/// The greatest number of levels of a statement.
const DEEPEST: u32 = 200;

/// A part of a tree with its number of levels.
#[derive(Drop)]
pub struct Levelled<T> {
    pub part: T,
    pub levels: u32,
}

/// A part of a tree, or nothing where it has more than `DEEPEST` levels: a tree that is too deep for
/// a statement is read on, and never held.
pub type Kept<T> = Option<Levelled<T>>;

/// A node made of kept parts, on the heap, with their levels.
#[macro_export]
macro_rules! node {
    ($alloc:expr, $kept:expr, $parts:pat => $node:expr) => {{
        let Some(k) = $kept else {
            return Ok(None);
        };
        let $parts = k.part;
        let part = Boxed::new($alloc, $node)?;
        let levels = k.levels;
        Ok(Some(Levelled { part, levels }))
    }};
}

/// Another part made of kept parts, with their levels.
#[macro_export]
macro_rules! held {
    ($kept:expr, $parts:pat => $part:expr) => {{
        let k = $kept?;
        let $parts = k.part;
        let levels = k.levels;
        let part = $part;
        Some(Levelled { part, levels })
    }};
}

/// Two parts side by side.
pub fn beside<A: Drop, B: Drop>(a: Kept<A>, b: Kept<B>) -> Kept<(A, B)>
    ensures { result ≡ spec.beside a b }
{
    match (a, b) {
        (Some(a), Some(b)) => Some(Levelled {
            part: (a.part, b.part),
            levels: a.levels.max(b.levels),
        }),
        _ => None,
    }
}

/// A part with one level more.
pub fn above<T: Drop>(k: Kept<T>) -> Kept<T>
    ensures { result ≡ spec.above k }
{
    match k {
        Some(k) if k.levels < DEEPEST => Some(Levelled {
            part: k.part,
            levels: k.levels + 1,
        }),
        _ => None,
    }
}

/// A list of one part.
pub fn alone<T: Drop>(alloc: Global, item: Kept<T>) -> Result<Kept<List<T>>, NoMemory>
    ensures { IfOk result (λ r. r ≡ spec.in_place (λ x. x ∷ []) item) }
{
    let Some(item) = item else {
        return Ok(None);
    };
    let mut part = List::new(alloc);
    part.push(item.part)?;
    let levels = item.levels;
    Ok(Some(Levelled { part, levels }))
}

/// A list with one part more at its end.
pub fn push<T: Drop>(list: Kept<List<T>>, item: Kept<T>) -> Result<Kept<List<T>>, NoMemory>
    ensures { IfOk result (λ r. r ≡ spec.in_place (λ p. p.0 ++ p.1 ∷ []) (spec.beside list item)) }
{
    let Some(k) = beside(list, item) else {
        return Ok(None);
    };
    let (mut part, item) = k.part;
    part.push(item)?;
    let levels = k.levels;
    Ok(Some(Levelled { part, levels }))
}

/// A part that stood on the heap.
pub fn unboxed<T: Drop>(k: Kept<Boxed<T>>) -> Kept<T>
    ensures { result ≡ k }
{
    let Levelled { part, levels } = k?;
    let part = part.into_inner();
    Some(Levelled { part, levels })
}

/// A part, put on the heap.
pub fn on_heap<T: Drop>(alloc: Global, k: Kept<T>) -> Result<Kept<Boxed<T>>, NoMemory>
    ensures { IfOk result (λ r. r ≡ k) }
{
    let Some(k) = k else {
        return Ok(None);
    };
    let part = Boxed::new(alloc, k.part)?;
    let levels = k.levels;
    Ok(Some(Levelled { part, levels }))
}

/// A list of one part that stood on the heap. By way of `push_boxed`, which so has more than one
/// caller and is not copied into their frames.
pub fn alone_boxed<T: Drop>(alloc: Global, item: Kept<Boxed<T>>) -> Result<Kept<List<T>>, NoMemory>
    ensures { IfOk result (λ r. r ≡ spec.in_place (λ x. x ∷ []) item) }
{
    let list = push_boxed(empty(alloc), item)?;
    Ok(list)
}

/// A list with one part more at its end, which stood on the heap. Not inlined, since the frames of
/// those that nest would grow.
#[inline(never)]
pub fn push_boxed<T: Drop>(
    list: Kept<List<T>>,
    item: Kept<Boxed<T>>,
) -> Result<Kept<List<T>>, NoMemory>
    ensures { IfOk result (λ r. r ≡ spec.in_place (λ p. p.0 ++ p.1 ∷ []) (spec.beside list item)) }
{
    push(list, unboxed(item))
}

/// A list of no parts.
pub fn empty<T: Drop>(alloc: Global) -> Kept<List<T>>
    ensures { result ≡ spec.empty }
{
    Some(Levelled {
        part: List::new(alloc),
        levels: 0,
    })
}
