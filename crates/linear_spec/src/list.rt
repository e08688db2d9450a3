//! Lists that grow at their end.
ghost use Rattle.std.specs.Prelude.{◌≡◌, ◌+◌, ◌-◌, ◌<◌, ◌≤◌, ◌↔◌, [], ◌∷◌, ◌++◌, length, take, IsOk, IsSome, IfSome, IfNone, OnOk, OnErr, slice_get, slice_index_or};
ghost use Rattle.std.specs.Option.{option_copied, option_to_list};
ghost use Rattle.std.specs.Borrow.{sem};
ghost use Rattle.std.specs.Iterator.Runs.{EveryRun, ItemsAre};
ghost use Rattle.std.specs.Vec.Iter.{into_iter_items, into_iter_steps};

use gf16::Memory;
use std::alloc::Global;
use std::marker::Model;

/// A list that grows at its end.
///
/// Contracts see the items in order and, beside them, the spare room: how many more items go in with no allocation.
#[derive(Debug, Drop)]
pub struct List<T> {
    items: Vec<T>,
    spare: usize,
}

impl<T> Model for List<T> {
    ghost use Rattle.std.specs.Prelude.{◌+◌, ◌≤◌, vec_len};
    ghost use Rattle.std.specs.Vec.{vec_capacity};
    ghost use Rattle.linear_spec.specs.List.{ListValue, list_code};

    ghost Value = { ListValue T };

    ghost coded = { list_code T.code };

    ghost view = { λ l. record { items = l.items.items; spare = l.spare } };

    ghost invariant = { λ l. vec_len l.items + l.spare ≤ vec_capacity l.items };
}

impl<T> List<T> {
    ghost use Rattle.linear_spec.specs.ListLends.{lends_slice, lends_item};

    /// The empty list, which takes no memory.
    pub fn new(alloc: Global) -> List<T>
        ensures { result.items ≡ [] }
    {
        List {
            items: Vec::new(alloc),
            spare: 0,
        }
    }

    /// The number of items.
    pub fn len(&self) -> usize
        ensures { result ≡ length self.now.items }
    {
        self.items.len()
    }

    /// How many more items `put` may take.
    pub fn spare(&self) -> usize
        ensures { result ≡ self.now.spare }
    {
        self.spare
    }

    /// Makes room for `room` more items. On refusal the list is as before.
    pub fn reserve(&mut self, room: usize) -> Result<(), Memory>
        ensures items { self.new.items ≡ self.old.items }
        ensures room { OnOk result (room ≤ self.new.spare) }
        ensures kept { self.old.spare ≤ self.new.spare }
        ensures succeeds { room ≤ self.old.spare → IsOk result }
    {
        self.items.reserve(room)?;
        self.spare = self.spare.max(room);
        Ok(())
    }

    /// The item at a place, or `None` past the end.
    pub fn get(&self, at: usize) -> Option<&T>
        ensures value { option_copied result ≡ slice_get self.now.items at }
        ensures variant { IsSome result ↔ (at < length self.now.items) }
    {
        self.items.get(at)
    }

    /// The item at a place, for writing, or `None` past the end.
    pub fn get_mut(&mut self, at: usize) -> Option<&mut T>
        ensures* writes_back { sem 𝓛 (lends_item T.row self.entry at result) }
        ensures variant { IsSome result ↔ (at < length self.old.items) }
        ensures value { IfSome result (λ item. item.now ≡ slice_index_or self.old.items at item.now) }
    {
        self.items.get_mut(at)
    }

    /// Takes the last item out, or answers `None` where there is none.
    pub fn pop(&mut self) -> Option<T>
        ensures items { self.old.items ≡ self.new.items ++ option_to_list result }
        ensures variant { IsSome result ↔ (0 < length self.old.items) }
        ensures spare { self.old.spare ≤ self.new.spare }
        ensures counted { self.new.spare ≡ self.old.spare + length (option_to_list result) }
    {
        let item = self.items.pop()?;
        self.spare += 1;
        Some(item)
    }

    /// The items.
    pub fn as_slice(&self) -> &[T]
        ensures { result.now ≡ self.now.items }
    {
        self.items.as_slice()
    }

    /// The items, for writing: the length stays.
    pub fn as_mut_slice(&mut self) -> &mut [T]
        ensures* writes_back { sem 𝓛 (lends_slice T.row self.entry result) }
        ensures value { result.now ≡ self.old.items }
    {
        self.items.as_mut_slice()
    }
}

impl<T: Drop> List<T> {
    /// Keeps the first `len` items, or all where there are no more.
    pub fn truncate(&mut self, len: usize)
        ensures items { self.new.items ≡ take len self.old.items }
        ensures spare { self.new.spare + length self.new.items ≡ self.old.spare + length self.old.items }
    {
        let before = self.items.len();
        self.items.truncate(len);
        self.spare += before - self.items.len();
    }

    /// The items by value, in order.
    pub fn into_iter(self) -> std::vec::IntoIter<T, Global>
        ensures items { into_iter_items result ≡ self.items }
        ensures runs { EveryRun (into_iter_steps {X = T} {Z = Global}) (λ p. ItemsAre p (into_iter_items p.from)) }
    {
        self.items.into_iter()
    }

    /// Appends an item. On refusal the list is as before, and the item is dropped.
    pub fn push(&mut self, item: T) -> Result<(), Memory>
        ensures ok { OnOk result (self.new.items ≡ self.old.items ++ item ∷ []) }
        ensures err { OnErr result (self.new.items ≡ self.old.items) }
        ensures spare { self.old.spare ≤ self.new.spare + 1 }
        ensures succeeds { 0 < self.old.spare → IsOk result }
    {
        self.items.push(item)?;
        self.spare = self.spare.saturating_sub(1);
        Ok(())
    }

    /// Appends an item into spare room, and takes no memory.
    pub fn put(&mut self, item: T)
        requires { 0 < self.old.spare }
        ensures items { self.new.items ≡ self.old.items ++ item ∷ [] }
        ensures spare { self.new.spare + 1 ≡ self.old.spare }
    {
        self.items.push(item).unwrap();
        self.spare -= 1;
    }
}

impl<T: Copy> List<T> {
    /// Appends all of these items. On refusal the list is as before.
    pub fn extend_from_slice(&mut self, items: &[T]) -> Result<(), Memory>
        ensures ok { OnOk result (self.new.items ≡ self.old.items ++ items.now) }
        ensures err { OnErr result (self.new.items ≡ self.old.items) }
        ensures spare { self.old.spare ≤ self.new.spare + length items.now }
        ensures succeeds { length items.now ≤ self.old.spare → IsOk result }
    {
        self.items.extend_from_slice(items)?;
        self.spare = self.spare.saturating_sub(items.len());
        Ok(())
    }
}
