ghost use Rattle.std.specs.Prelude.{◌≡◌, ◌+◌, ◌≤◌, ◌<◌, [], ◌∷◌, ◌++◌, length, take, drop, is_ok, IfSome, OnOk, OnErr, MatchOption, nat_eq, nat_le, nat_lt};

use std::marker::Model;

/// There is no room for what was to be put there.
#[derive(Clone, Copy, PartialEq, Eq, Debug)]
pub struct Full;

/// A vector of at most `CAP` items, which lie in the value itself. It never allocates, and is copied as an array is.
// The toolchain's `ArrayVec` is not copied as a value, and its `clone` may fail.
#[derive(Clone, Copy)]
pub struct InlineVec<T, const CAP: usize> {
    cells: [T; CAP],
    len: usize,
}

impl<T, const CAP: usize> Model for InlineVec<T, CAP> {
    ghost use Rattle.std.specs.Prelude.{◌≡◌, ◌≤◌, ◌++◌, length, take, drop};
    ghost use Rattle.std.proofs.Common.{arith, take-append-drop, length-take-le};
    ghost use Rattle.inline_vec.specs.Items.{Items, items_code};

    ghost Value = { Items T };

    ghost coded = { items_code T.code };

    ghost view = { λ v. record { items = take v.len v.cells; spare = drop v.len v.cells } };

    // Callers see the items and not this, so that `fits` says it again where one needs it.
    ghost invariant = { λ v. (v.len ≤ CAP) × (length v.cells ≡ CAP) };

    ghost inverse = { λ v. record { cells = v.items ++ v.spare; len = length v.items } };

    ghost inverse_ok = { λ v h i. record {
      cells = take-append-drop v.len v.cells i;
      len = length-take-le v.len v.cells (omega (arith, h.0, h.1)) i;
    } };
}

impl<T: Copy, const CAP: usize> InlineVec<T, CAP> {
    /// No items. The free places hold the filler.
    pub fn new(filler: T) -> InlineVec<T, CAP>
        ensures { result.items ≡ [] }
    {
        InlineVec {
            cells: [filler; CAP],
            len: 0,
        }
    }

    /// The items, if there is room for them.
    pub fn from_slice(filler: T, items: &[T]) -> Option<InlineVec<T, CAP>>
        ensures cases { MatchOption result (CAP < length items.now) (λ v. v.items ≡ items.now) }
        ensures fits { IfSome result (λ v. length v.items ≤ CAP) }
    {
        // Tested first: no place is filled where there is no room.
        if items.len() > CAP {
            return None;
        }
        let mut cells = [filler; CAP];
        cells[..items.len()].copy_from_slice(items);
        Some(InlineVec {
            cells,
            len: items.len(),
        })
    }

    /// The first `len` items of the array, if it has so many.
    pub fn from_array(cells: [T; CAP], len: usize) -> Option<InlineVec<T, CAP>>
        ensures cases { MatchOption result (CAP < len) (λ v. v.items ≡ take len cells) }
        ensures fits { IfSome result (λ v. length v.items ≤ CAP) }
    {
        // No `then_some`: it would make the vector before the test.
        if len <= CAP {
            Some(InlineVec { cells, len })
        } else {
            None
        }
    }

    /// The items, in order.
    pub fn as_slice(&self) -> &[T]
        ensures value { result.now ≡ self.now.items }
        ensures fits { length result.now ≤ CAP }
    {
        &self.cells[..self.len]
    }

    /// The number of items.
    pub fn len(&self) -> usize
        ensures value { result ≡ length self.now.items }
        ensures fits { result ≤ CAP }
    {
        self.as_slice().len()
    }

    /// Whether there is no item.
    pub fn is_empty(&self) -> bool
        ensures { result ≡ nat_eq (length self.now.items) 0 }
    {
        self.len == 0
    }

    /// Whether there is no room left.
    pub fn is_full(&self) -> bool
        ensures { result ≡ nat_le CAP (length self.now.items) }
    {
        self.len >= CAP
    }

    /// One item more. Where there is no room for it, nothing changes.
    pub fn try_push(&mut self, item: T) -> Result<(), Full>
        ensures variant { is_ok result ≡ nat_lt (length self.old.items) CAP }
        ensures ok { OnOk result (self.new.items ≡ self.old.items ++ item ∷ []) }
        ensures err { OnErr result (self.new ≡ self.old) }
        ensures capped { self.new.items ≡ take CAP (self.old.items ++ item ∷ []) }
        ensures fits { length self.new.items ≤ CAP }
    {
        if self.is_full() {
            return Err(Full);
        }
        self.cells[self.len] = item;
        self.len += 1;
        Ok(())
    }

    /// These items behind those that stand. Where there is no room for all, nothing changes.
    pub fn try_extend(&mut self, more: &[T]) -> Result<(), Full>
        ensures variant { is_ok result ≡ nat_le (length self.old.items + length more.now) CAP }
        ensures ok { OnOk result (self.new.items ≡ self.old.items ++ more.now) }
        ensures err { OnErr result (self.new ≡ self.old) }
        ensures fits { length self.new.items ≤ CAP }
    {
        if more.len() > CAP - self.len {
            return Err(Full);
        }
        let end = self.len + more.len();
        let cells = &mut self.cells[..];
        cells[self.len..end].copy_from_slice(more);
        self.len = end;
        Ok(())
    }

    /// Writes the part over the first items. Where it is longer than all of them, nothing changes.
    pub fn overwrite_front(&mut self, part: &[T]) -> Result<(), Full>
        ensures variant { is_ok result ≡ nat_le (length part.now) (length self.old.items) }
        ensures ok { OnOk result (self.new.items ≡ part.now ++ drop (length part.now) self.old.items) }
        ensures err { OnErr result (self.new ≡ self.old) }
        ensures fits { length self.new.items ≤ CAP }
    {
        if part.len() > self.len {
            return Err(Full);
        }
        self.cells[..part.len()].copy_from_slice(part);
        Ok(())
    }

    /// Leaves no item.
    pub fn clear(&mut self)
        ensures { self.new.items ≡ [] }
    {
        self.len = 0;
    }
}
