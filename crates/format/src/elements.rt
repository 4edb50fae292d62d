//! Which elements are good: one whole tree, not too deep, with good names.
ghost use Rattle.std.specs.Prelude.{◌≡◌, ℕ, ◌+◌, ◌-◌, ◌<◌, ◌≤◌, length, Some, nat_le, slice_index};
ghost use Rattle.rules.specs.Searches.{first_failing};
ghost use Rattle.rules.specs.Trees.{Tree, size, levels, forest, first_tree};
ghost use Rattle.format.specs.declared.records.ElementRecord.{ElementRecord};
ghost use Rattle.format.specs.Good.{whole_end, first_bad_element};

use crate::check::{MAX_DEPTH, first_unfair};
use crate::decode::Records;
use crate::layout::Layout;
use crate::opens::OpenElements;
use crate::records::ElementRecord;
use crate::search::earlier;

// Where the tree of element 0 ends, if it is whole. What is pending are the trees that are still to come.
fn tree_end(elements: &Records<'_, ElementRecord>) -> Option<u16>
    requires { length elements.now ≤ 1024 }
    ensures { result ≡ whole_end (first_tree (forest (λ e. e.children) elements.now)) }
{
    let mut pending: usize = 1;
    for place in 0..elements.count() {
        pending = pending - 1 + elements.get(place as usize).children as usize;
        if pending == 0 {
            return Some(place + 1);
        }
    }
    None
}

// The first element that lies too deep, where the tree of element 0 has all elements.
fn first_deep(elements: &Records<'_, ElementRecord>) -> Option<u16>
    ensures { (t : Tree ElementRecord) → first_tree (forest (λ e. e.children) elements.now) ≡ Some t → size t ≡ length elements.now → result ≡ first_failing (λ p. nat_le (slice_index (levels 1 t) p) 32) 0 (length elements.now) }
{
    let mut opens: OpenElements<usize, 33> = OpenElements::new();
    opens.open(1, 1);
    for place in 0..elements.count() {
        let level = opens.innermost()?;
        if level > MAX_DEPTH {
            return Some(place);
        }
        opens.take_child();
        let children = elements.get(place as usize).children;
        if children > 0 {
            opens.open(children, level + 1);
        }
    }
    None
}

// The first bad element.
pub(crate) fn first_bad_element(
    elements: &Records<'_, ElementRecord>,
    layout: Layout,
) -> Option<u16>
    requires { length elements.now ≤ 1024 }
    ensures { result ≡ first_bad_element layout elements.now }
{
    let count = elements.count();
    if count == 0 {
        return None;
    }
    let Some(end) = tree_end(elements) else {
        return Some(0);
    };
    if end < count {
        return Some(end);
    }
    earlier(first_unfair(elements, layout, 1), first_deep(elements))
}
