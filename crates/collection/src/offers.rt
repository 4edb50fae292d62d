//! What a collection takes.
ghost use Rattle.std.specs.Prelude.{◌≡◌, ◌+◌, ◌<◌, ◌≤◌, ◌++◌, length, take, MatchResult};
ghost use Rattle.format.specs.declared.fault.Fault.TheVariants.{TablesFull};
ghost use Rattle.collection.specs.Views.{Pushed, held, with_expression, with_casts, with_accesses};

use crate::state::{Collection, Counts, Records};
use access::{CastColumnAccess, StructFieldAccess};
use sheet::Fault;

// Writes items to a table behind those that it holds, if there is room for them. Tells how many it holds then.
fn append<T: Copy>(
    table: &mut [T],
    held: usize,
    items: &[T],
    expression: usize,
) -> Result<usize, Fault>
    requires { held ≤ length table.old }
    ensures { MatchResult result
        (λ count. (count ≡ held + length items.now) × (count ≤ length table.old) × (take count table.new ≡ take held table.old ++ items.now))
        (λ e. (e ≡ TablesFull expression) × (length table.old < held + length items.now) × (take held table.new ≡ take held table.old)) }
{
    if table.len() - held < items.len() {
        return Err(Fault::TablesFull { expression });
    }
    let count = held + items.len();
    table[held..count].copy_from_slice(items);
    Ok(count)
}

// One call for each table: each has a count and an equation of its own.
impl Collection {
    // One expression more, unless 64 are there.
    fn push_expression(&mut self, records: &mut Records, expression: u16) -> Result<(), Fault>
        ensures { ◌≡◌ {A = Pushed} (result, held self.new records.new) (with_expression (held self.old records.old) expression) }
    {
        self.counts.expressions = append(
            &mut records.expressions,
            self.counts.expressions,
            &[expression],
            expression as usize,
        )?;
        Ok(())
    }

    // Casts more, as long as there are at most 64.
    fn push_casts(
        &mut self,
        records: &mut Records,
        casts: &[CastColumnAccess],
        expression: usize,
    ) -> Result<(), Fault>
        ensures { ◌≡◌ {A = Pushed} (result, held self.new records.new) (with_casts (held self.old records.old) expression casts.now) }
    {
        self.counts.casts = append(&mut records.casts, self.counts.casts, casts, expression)?;
        Ok(())
    }

    // Accesses more, as long as there are at most 256.
    fn push_accesses(
        &mut self,
        records: &mut Records,
        accesses: &[StructFieldAccess],
        expression: usize,
    ) -> Result<(), Fault>
        ensures { ◌≡◌ {A = Pushed} (result, held self.new records.new) (with_accesses (held self.old records.old) expression accesses.now) }
    {
        self.counts.accesses = append(
            &mut records.accesses,
            self.counts.accesses,
            accesses,
            expression,
        )?;
        Ok(())
    }
}

// Puts the counts of a collection back on every way out, unless what was recorded is accepted.
struct Guard<'a> {
    collection: &'a mut Collection,
    before: Counts,
}

impl Drop for Guard<'_> {
    fn drop(self)
        ensures { self.exit.0.now.counts ≡ self.entry.before }
    {
        let Guard { collection, before } = self;
        collection.counts = before;
    }
}

impl Guard<'_> {
    fn accept(self)
        ensures { self.exit.0.now ≡ self.entry.collection.now }
    {
        let Guard {
            collection: _,
            before: _,
        } = self;
    }
}
