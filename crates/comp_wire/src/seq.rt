//! A list that the writers' types own.

ghost use Rattle.std.specs.Prelude.{◌≡◌, List};

use std::marker::Model;

/// A list of items. The writers' types hold their parts in it, and reach themselves through it; contracts see the list.
#[derive(Drop)]
pub struct Seq<T> {
    kept: Vec<T>,
}

impl<T> Model for Seq<T> {
    ghost use Rattle.std.specs.Prelude.{List};
    ghost use Rattle.std.specs.Coded.{coded_list};

    ghost Value = { List T };

    ghost coded = { coded_list T.code };

    ghost view = { λ s. s.kept.items };
}

impl<T> Seq<T> {
    /// The list of a vector's items. It takes no memory.
    pub fn from_vec(items: Vec<T>) -> Seq<T>
        ensures same_items { result ≡ items.items }
    {
        Seq { kept: items }
    }

    /// The items as a vector. It takes no memory.
    pub fn into_vec(self) -> Vec<T>
        ensures same_items { result.items ≡ self }
    {
        self.kept
    }

    /// The items.
    pub fn as_slice(&self) -> &[T]
        ensures same_items { result.now ≡ self.now }
    {
        self.kept.as_slice()
    }
}
