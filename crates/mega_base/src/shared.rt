//! A value that is held once and lent, so that a copy shares it.
ghost use Rattle.std.specs.Prelude.{◌≡◌, IfOk};

use crate::copied::{Copied, NoMemory};
use std::alloc::Global;
use std::cmp::Ordering;
use std::fmt;
use std::marker::Model;
use std::ops::Deref;
use std::rc::Rc;

/// A value that is held once and lent: a copy shares it. Contracts see the value.
#[derive(Drop)]
pub struct Shared<T> {
    held: Rc<T>,
}

impl<T> Model for Shared<T> {
    ghost Value = { T };

    ghost view = { λ s. s.held.value };
}

impl<T: Drop> Shared<T> {
    /// This value, with no copy.
    pub fn new(alloc: Global, value: T) -> Result<Shared<T>, NoMemory>
        ensures { IfOk result (λ made. made ≡ value) }
    {
        let held = Rc::new(alloc, value)?;
        Ok(Shared { held })
    }
}

impl<T> Deref for Shared<T> {
    type Target = T;

    ghost deref_gives = { λ s x. x ≡ s };

    fn deref(&self) -> &T
        ensures { result.now ≡ self.now }
    {
        &self.held
    }
}

impl<T: Drop> Copied for Shared<T> {
    fn copy(&self, _alloc: Global) -> Result<Shared<T>, NoMemory> {
        let held = self.held.clone()?;
        Ok(Shared { held })
    }
}

impl<T: fmt::Debug> fmt::Debug for Shared<T> {
    fn fmt<W: fmt::Write>(&self, f: &mut fmt::Formatter<W>) -> fmt::Result {
        (**self).fmt(f)
    }
}

impl<T: PartialEq> PartialEq for Shared<T> {
    ghost eq = { T.eq };

    ghost laws = { T.laws };

    fn eq(&self, other: &Shared<T>) -> bool {
        **self == **other
    }
}

impl<T: Eq> Eq for Shared<T> {
    ghost laws = { T.Eq.laws };
}

impl<T: PartialOrd> PartialOrd for Shared<T> {
    ghost partial_cmp = { T.partial_cmp };

    ghost laws = { T.PartialOrd.laws };

    fn partial_cmp(&self, other: &Shared<T>) -> Option<Ordering> {
        (**self).partial_cmp(&**other)
    }
}

impl<T: Ord> Ord for Shared<T> {
    ghost cmp = { T.cmp };

    ghost total = { T.total };

    ghost matches_partial_cmp = { T.matches_partial_cmp };

    ghost matches_eq = { T.matches_eq };

    fn cmp(&self, other: &Shared<T>) -> Ordering {
        (**self).cmp(&**other)
    }
}
