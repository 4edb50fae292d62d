//! Why a call is refused.
ghost use Rattle.std.specs.Prelude.{◌≡◌};
ghost use Rattle.format.specs.Faults.{fault_number, fault_place};

/// The refusals of all calls. docs/FAULTS.md says which call tells which, and in what order. A section is told by the layout's
/// number, of which `place` is made.
#[derive(Clone, Copy, Debug, PartialEq, Eq)]
pub enum Fault {
    /// The length, the form, or where a section lies; section 0 is the header.
    BadExtent { section: u16 },
    /// A section has more records than it may.
    TooMany { section: u16 },
    /// The first record that breaks a rule.
    BadRecord { section: u16, record: u16 },
    /// The sheet has no such expression.
    NoExpression { expression: usize },
    /// One more than a collection's tables hold.
    TablesFull { expression: usize },
    /// A column's index, or a listed root, is not below the number of roots.
    NoRoot { expression: usize },
    /// A buffer is too short.
    ShortBuffer,
    /// Value nodes that are no record of the file; the first bad one.
    BadValue { node: usize },
    /// A column's name is not in the record.
    NoColumn { node: u16 },
    /// A step of `get_field` that leads nowhere.
    NoField { node: u16 },
    /// A value that a cast does not take.
    NoCast { node: u16 },
    /// A function host's own fault.
    Host { number: u16, node: u16 },
}

impl Fault {
    /// The number by which docs/FAULTS.md tells the refusal.
    pub fn number(self) -> u16
        ensures { result ≡ fault_number self }
    {
        match self {
            Fault::BadExtent { .. } => 1,
            Fault::TooMany { .. } => 2,
            Fault::BadRecord { .. } => 3,
            Fault::NoExpression { .. } => 4,
            Fault::TablesFull { .. } => 5,
            Fault::NoRoot { .. } => 6,
            Fault::ShortBuffer => 7,
            Fault::BadValue { .. } => 8,
            Fault::NoColumn { .. } => 51,
            Fault::NoField { .. } => 52,
            Fault::NoCast { .. } => 53,
            Fault::Host { number, .. } => number,
        }
    }

    /// What the refusal is about: a section and a record in one number, an expression, a node.
    pub fn place(self) -> usize
        ensures { result ≡ fault_place self }
    {
        match self {
            Fault::BadExtent { section } | Fault::TooMany { section } => section as usize * 65536,
            Fault::BadRecord { section, record } => section as usize * 65536 + record as usize,
            Fault::NoExpression { expression }
            | Fault::TablesFull { expression }
            | Fault::NoRoot { expression } => expression,
            Fault::ShortBuffer => 0,
            Fault::BadValue { node } => node,
            Fault::NoColumn { node }
            | Fault::NoField { node }
            | Fault::NoCast { node }
            | Fault::Host { node, .. } => node as usize,
        }
    }
}
