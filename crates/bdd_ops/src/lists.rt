//! The lists of levels that answers are about.

ghost use Rattle.std.specs.Prelude.{◌≡◌, [], ◌∷◌, ◌++◌, OnOk, ◌<◌, ◌≤◌, ◌↔◌, ℕ, length, IfOk, IfSome, IsTrue, true, slice_index_or};
ghost use Rattle.bdd_ops.specs.Functions.{is_among};
ghost use Rattle.bdd_ops.specs.Contents.{list_at};

use crate::level_list::{LevelList, list_of};
use crate::work::Work;
use bdd_store::StoreFault;

impl Work {
    /// The place of a list of levels from one place on and before another.
    fn find_between(&self, levels: &[u32], from: usize, end: usize) -> Option<usize>
        requires { end ≤ length self.now.lists }
        ensures { IfSome result (λ i. (i < length self.now.lists) × (list_at self.now i ≡ levels.now)) }
    {
        for i in from..end {
            if self.lists[i].is(levels) {
                return Some(i);
            }
        }
        None
    }

    /// The place of a list of levels among those that answers are about. It is looked for behind the one that was asked for
    /// last first, since most are asked for in turns.
    fn find_list(&self, levels: &[u32]) -> Option<usize>
        ensures { IfSome result (λ i. (i < length self.now.lists) × (list_at self.now i ≡ levels.now)) }
    {
        let count = self.lists.len();
        let next = self.next.min(count);
        match self.find_between(levels, next, count) {
            Some(place) => Some(place),
            None => self.find_between(levels, 0, next),
        }
    }

    /// Forgets all answers and what lists they are about.
    fn forget(&mut self)
        ensures table { self.new.state.table ≡ self.old.state.table }
        ensures kept { self.new.state.kept ≡ self.old.state.kept }
        ensures stack { self.new.state.stack ≡ self.old.state.stack }
        ensures lists { self.new.lists ≡ [] }
    {
        self.store.forget();
        self.lists.clear();
    }

    /// Adds a list.
    fn push_list(&mut self, list: LevelList) -> Result<(), StoreFault>
        requires { length self.old.lists < 256 }
        ensures pushed { OnOk result (self.new.lists ≡ self.old.lists ++ list.levels.items ∷ []) }
        ensures state { self.new.state ≡ self.old.state }
        ensures memory { result ≡ Err StoreFault.Full → ⊥ }
    {
        match self.lists.push(list) {
            Ok(()) => Ok(()),
            Err(_) => Err(StoreFault::Memory),
        }
    }

    /// Makes a list.
    fn new_list(&self, levels: &[u32]) -> Result<LevelList, StoreFault>
        ensures given { IfOk result (λ list. list.levels.items ≡ levels.now) }
        ensures memory { result ≡ Err StoreFault.Full → ⊥ }
    {
        match list_of(self.alloc, levels) {
            Ok(list) => Ok(list),
            Err(_) => Err(StoreFault::Memory),
        }
    }

    /// How many lists there are.
    fn list_count(&self) -> usize
        ensures { result ≡ length self.now.lists }
    {
        self.lists.len()
    }

    /// Adds a list that answers will be about.
    fn add_list(&mut self, levels: &[u32]) -> Result<usize, StoreFault>
        requires { length self.old.lists < 256 }
        ensures given { IfOk result (λ i. (i < length self.new.lists) × (list_at self.new i ≡ levels.now)) }
        ensures state { self.new.state ≡ self.old.state }
        ensures memory { result ≡ Err StoreFault.Full → ⊥ }
    {
        let place = self.list_count();
        let list = self.new_list(levels)?;
        self.push_list(list)?;
        Ok(place)
    }

    /// Whether there is room for one more list.
    fn has_room(&self) -> bool
        ensures { IsTrue result ↔ (length self.now.lists < 256) }
    {
        self.lists.len() < 256
    }

    /// The place of a list of levels, which is added where it isn't there. At 256 lists the answers are forgotten.
    pub(crate) fn list(&mut self, levels: &[u32]) -> Result<usize, StoreFault>
        ensures given { IfOk result (λ i. (i < length self.new.lists) × (list_at self.new i ≡ levels.now)) }
        ensures table { self.new.state.table ≡ self.old.state.table }
        ensures kept { self.new.state.kept ≡ self.old.state.kept }
        ensures stack { self.new.state.stack ≡ self.old.state.stack }
        ensures memory { result ≡ Err StoreFault.Full → ⊥ }
    {
        if let Some(place) = self.find_list(levels) {
            self.next = place.saturating_add(1);
            return Ok(place);
        }
        if !self.has_room() {
            self.forget();
        }
        let place = self.add_list(levels)?;
        self.next = place.saturating_add(1);
        Ok(place)
    }

    /// Whether a level is in a list.
    pub(crate) fn covers(&self, list: usize, level: u32) -> bool
        requires { list < length self.now.lists }
        ensures { result ≡ is_among level (list_at self.now list) }
    {
        let list = &self.lists[list];
        let place = level as usize;
        place < list.among.len() && list.among[place]
    }

    /// Whether all levels of a list are before this one.
    pub(crate) fn is_past(&self, list: usize, level: u32) -> bool
        requires { list < length self.now.lists }
        ensures { IsTrue result → (m : ℕ) → is_among m (list_at self.now list) ≡ true → m < level }
    {
        self.lists[list].end <= level as usize
    }

    /// The level that a list gives for another.
    pub(crate) fn target(&self, list: usize, level: u32) -> u32
        requires list { list < length self.now.lists }
        requires known { level < length (list_at self.now list) }
        ensures { result ≡ slice_index_or (list_at self.now list) level level }
    {
        self.lists[list].levels[level as usize]
    }
}
