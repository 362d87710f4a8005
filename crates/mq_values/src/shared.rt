ghost use Rattle.std.specs.Prelude.{◌≡◌, [], IfOk};

use crate::items::Items;
use crate::memory::Memory;
use std::alloc::{AllocError, Global};
use std::marker::Model;
use std::sync::Arc;

/// A list that many hold at once. A copy of it copies no item. Contracts see it as the list of its items.
#[derive(Debug, Drop)]
pub struct Shared<T> {
    items: Option<Arc<Vec<T>>>,
}

impl<T> Model for Shared<T> {
    ghost use Rattle.std.specs.Prelude.{List};
    ghost use Rattle.std.specs.Coded.{coded_list};
    ghost use Rattle.mq_values.specs.Shared.{items_behind};

    ghost Value = { List T };

    ghost coded = { coded_list T.code };

    ghost view = { λ s. items_behind s.items };
}

impl<T> Shared<T> {
    /// The empty list. It takes no memory.
    pub fn empty() -> Shared<T>
        ensures { result ≡ [] }
    {
        Shared { items: None }
    }

    pub fn as_slice(&self) -> &[T]
        ensures { result.now ≡ self.now }
    {
        match &self.items {
            None => &[],
            Some(items) => items.as_slice(),
        }
    }
}

impl<T: Drop> Shared<T> {
    /// The list of `items`, to be shared from now on.
    pub fn new(alloc: Global, items: Items<T>) -> Result<Shared<T>, Memory>
        ensures { IfOk result (λ s. s ≡ items) }
    {
        if items.is_empty() {
            return Ok(Shared::empty());
        }
        Ok(Shared {
            items: Some(Arc::new(alloc, items.into_vec())?),
        })
    }

    /// The same list once more. Its items are not copied.
    pub fn copy(&self) -> Result<Shared<T>, Memory>
        ensures { IfOk result (λ s. s ≡ self.now) }
    {
        match &self.items {
            None => Ok(Shared::empty()),
            Some(items) => Ok(Shared {
                items: Some(Arc::try_clone(items)?),
            }),
        }
    }
}

impl<T: Drop> Clone for Shared<T> {
    ghost is_clone = { λ a b. b ≡ a };

    fn clone(&self) -> Result<Shared<T>, AllocError> {
        match self.copy() {
            Ok(copy) => Ok(copy),
            Err(_) => Err(AllocError),
        }
    }
}
