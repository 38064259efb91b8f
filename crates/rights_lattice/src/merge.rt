//! The order of marks, and the merge of two rising lists in one walk over both.
ghost use Rattle.std.specs.Prelude.{◌≡◌, ℕ, List, [], ◌∷◌, ◌++◌, length, IfOk, IsTrue};
ghost use Rattle.rights_lattice.specs.Cells.{key_cmp, Valued};
ghost use Rattle.rights_lattice.specs.Marks.{are_rising_marks, are_rising_names, AreMarks};
ghost use Rattle.rights_lattice.specs.Merging.{HasNext, IsFurther, IsMerged, IsMergedNames, IsMergeOf, IsMergeOfNames};

use crate::event::Event;
use crate::mark::Mark;
use std::alloc::{AllocError, Global};
use std::cmp::Ordering;

/// The order of marks: by event, then by cell.
pub fn key_order(a: &Mark, b: &Mark) -> Ordering
    ensures { result ≡ key_cmp (a.now.event, a.now.cell) (b.now.event, b.now.cell) }
{
    a.event.cmp(&b.event).then(a.cell.cmp(&b.cell))
}

// The next mark of a merge, and the places after it.
#[derive(Clone, Copy, Debug)]
struct Next {
    mark: Mark,
    left: usize,
    right: usize,
}

// The next mark of the merge of `a` from `left` on and `b` from `right` on.
fn next_of(a: &[Mark], left: usize, b: &[Mark], right: usize) -> Next
    requires has_next { HasNext (length a.now) (length b.now) left right }
    requires left_marks { AreMarks a.now }
    requires right_marks { AreMarks b.now }
    ensures further { IsFurther left right result.left result.right }
    ensures merged { (out : List Valued)
        → IsMerged a.now b.now out left right
        → IsMerged a.now b.now (out ++ result.mark ∷ []) result.left result.right }
{
    if right == b.len() {
        return Next {
            mark: a[left],
            left: left + 1,
            right,
        };
    }
    if left == a.len() {
        return Next {
            mark: b[right],
            left,
            right: right + 1,
        };
    }
    let x = a[left];
    let y = b[right];
    match key_order(&x, &y) {
        Ordering::Less => Next {
            mark: x,
            left: left + 1,
            right,
        },
        Ordering::Greater => Next {
            mark: y,
            left,
            right: right + 1,
        },
        Ordering::Equal => Next {
            mark: Mark {
                event: x.event,
                cell: x.cell,
                value: x.value.max(y.value),
            },
            left: left + 1,
            right: right + 1,
        },
    }
}

/// The greater of each cell of two rising lists.
pub fn merge_marks(alloc: Global, a: &[Mark], b: &[Mark]) -> Result<Vec<Mark>, AllocError>
    requires left_marks { AreMarks a.now }
    requires right_marks { AreMarks b.now }
    requires left_rises { IsTrue (are_rising_marks a.now) }
    requires right_rises { IsTrue (are_rising_marks b.now) }
    ensures merged { IfOk result (λ marks. IsMergeOf a.now b.now marks.items) }
{
    let mut merged = Vec::new(alloc);
    let mut left = 0;
    let mut right = 0;
    while left < a.len() || right < b.len() {
        let next = next_of(a, left, b, right);
        merged.push(next.mark)?;
        left = next.left;
        right = next.right;
    }
    Ok(merged)
}

// The next name of a merge, and the places after it.
#[derive(Clone, Copy, Debug)]
struct NextName {
    name: Event,
    left: usize,
    right: usize,
}

// The next name of the merge of `a` from `left` on and `b` from `right` on.
fn next_name_of(a: &[Event], left: usize, b: &[Event], right: usize) -> NextName
    requires has_next { HasNext (length a.now) (length b.now) left right }
    ensures further { IsFurther left right result.left result.right }
    ensures merged { (out : List (List ℕ))
        → IsMergedNames a.now b.now out left right
        → IsMergedNames a.now b.now (out ++ result.name ∷ []) result.left result.right }
{
    if right == b.len() {
        return NextName {
            name: a[left],
            left: left + 1,
            right,
        };
    }
    if left == a.len() {
        return NextName {
            name: b[right],
            left,
            right: right + 1,
        };
    }
    let x = a[left];
    let y = b[right];
    match x.cmp(&y) {
        Ordering::Less => NextName {
            name: x,
            left: left + 1,
            right,
        },
        Ordering::Greater => NextName {
            name: y,
            left,
            right: right + 1,
        },
        Ordering::Equal => NextName {
            name: x,
            left: left + 1,
            right: right + 1,
        },
    }
}

/// The names of two rising lists.
pub fn merge_names(alloc: Global, a: &[Event], b: &[Event]) -> Result<Vec<Event>, AllocError>
    requires left_rises { IsTrue (are_rising_names a.now) }
    requires right_rises { IsTrue (are_rising_names b.now) }
    ensures merged { IfOk result (λ names. IsMergeOfNames a.now b.now names.items) }
{
    let mut merged = Vec::new(alloc);
    let mut left = 0;
    let mut right = 0;
    while left < a.len() || right < b.len() {
        let next = next_name_of(a, left, b, right);
        merged.push(next.name)?;
        left = next.left;
        right = next.right;
    }
    Ok(merged)
}
