//! The words that every promise is written in: trees, types, leaves, plans. They stand in specs/; the functions here
//! carry the laws that pin them.
#![tactic(auto)]

ghost use Rattle.std.specs.Prelude.{ℕ};
ghost use Rattle.rules.specs.ClipLaws.{ClipsExact};
ghost use Rattle.rules.specs.PlanLaws.{PlansExact};
ghost use Rattle.rules.specs.Sample.{SampleStands};
ghost use Rattle.rules.specs.Trees.{WrittenRead};

/// A table that a whole tree is written to gives that tree back, whatever the records are.
pub fn tables_read_back<R>()
    ensures { (children : R → ℕ) → WrittenRead children }
{}

/// The plan of every list of expressions, and of every filter, over every list of leaves whose roots never fall: its leaves
/// ascend and are exactly those that are to be read, and its fields are what is kept of the roots that are read.
pub fn plans_are_exact()
    ensures { PlansExact }
{}

/// A clip, void or not, keeps exactly the leaves that lie below a pair that is kept entire, and the clipped type has exactly
/// these leaves, in order.
pub fn clips_are_exact()
    ensures { ClipsExact }
{}

/// The eleven cases of the sample file.
pub fn sample_stands()
    ensures { SampleStands }
{}
