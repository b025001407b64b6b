//! Names in the order of their declarations, each with what it stands for.

ghost use Rattle.std.specs.Prelude.{◌≡◌, [], ◌∷◌, ◌++◌, ◌<◌, length, IfOk, IfSome, false, position, bytes_eq};
ghost use Rattle.tap_names.specs.Tables.{entries_of, standing_for, is_among, names_in};

use indexmap::IndexMap;
use std::alloc::Global;
use tap_base::NoMemory;

/// Names in the order of their declarations, each with what it stands for.
#[derive(Drop)]
pub struct Table<V> {
    pub items: IndexMap<String, V>,
}

impl<V: Copy + Drop> Table<V> {
    /// A table without names.
    pub fn new(alloc: Global) -> Table<V>
        ensures { entries_of result ≡ [] }
    {
        Table {
            items: IndexMap::new(alloc),
        }
    }

    /// What the name stands for; `None` where it isn't declared.
    pub fn find(&self, name: &str) -> Option<V>
        ensures { result ≡ standing_for name.now (entries_of self.now) }
    {
        self.items.get(name).copied()
    }

    /// The place of the name among the names, counted from 0; `None` where it isn't declared.
    pub fn number(&self, name: &str) -> Option<usize>
        ensures value { result ≡ position (λ x. bytes_eq name.now x) (names_in (entries_of self.now)) }
        ensures within { IfSome result (λ k. k < length (entries_of self.now)) }
    {
        self.items.get_index_of(name)
    }

    /// Whether the name is declared.
    pub fn has(&self, name: &str) -> bool
        ensures { result ≡ is_among name.now (names_in (entries_of self.now)) }
    {
        self.items.contains_key(name)
    }

    /// How many names are declared.
    pub fn len(&self) -> usize
        ensures { result ≡ length (entries_of self.now) }
    {
        self.items.len()
    }

    /// Declares a name behind the others. The name is new. `NoMemory` comes from refused memory alone.
    pub fn declare(&mut self, alloc: Global, name: &str, value: V) -> Result<(), NoMemory>
        requires { is_among name.now (names_in (entries_of self.old)) ≡ false }
        ensures { IfOk result (λ _. entries_of self.new ≡ entries_of self.old ++ (name.now, value) ∷ []) }
    {
        let name = String::from_str(alloc, name)?;
        self.items.insert(name, value)?;
        Ok(())
    }
}
