//! Which root a name means.
ghost use Rattle.std.specs.Prelude.{◌≡◌};
ghost use Rattle.std.specs.Str.{bytes_eq};
ghost use Rattle.rules.specs.Types.{first_named};
ghost use Rattle.sheet.specs.SheetTrees.{file_in, root_name};

use crate::sheet::Sheet;
use format::{RootRecord, TypeRecord};

impl Sheet {
    fn is_root_named(&self, root: usize, name: &[u8]) -> bool
        ensures { result ≡ bytes_eq (root_name self.now root) name.now }
    {
        let place = self.record::<RootRecord>(root).type_place as usize;
        self.name(self.record::<TypeRecord>(place).name) == name
    }

    /// The first root that bears a name, or none where no root does.
    pub fn root_named(&self, name: &[u8]) -> Option<usize>
        ensures { result ≡ first_named name.now 0 (file_in self.now) }
    {
        (0..self.count::<RootRecord>()).find(|root| self.is_root_named(*root, name))
    }
}
