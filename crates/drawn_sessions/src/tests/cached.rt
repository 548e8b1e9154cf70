//! The cache of the plain model. Keys that one edit puts into it are put in some order, which
//! nothing promises: so which of them a full cache drops is known only when they come into use
//! again.

use super::trees::{Key, Tree, key_with};
use h264_types::pictures::AuId;
use stand_in_session::{Session, Shown};
use std::alloc::{AllocError, Global};
use std::mem;

/// Keys that were put by one edit. So many of them are still there.
#[derive(Drop)]
struct Group {
    trees: Vec<Tree>,
    kept: usize,
}

/// The cached keys: those that were put last are first.
#[derive(Drop)]
pub(super) struct Cached {
    capacity: usize,
    groups: Vec<Group>,
    /// Whether some order of the keys agrees with all that was shown.
    pub(super) is_possible: bool,
    /// How many keys came into use again.
    pub(super) restored: u32,
}

impl Cached {
    /// A cache with room for so many keys.
    pub(super) fn new(alloc: Global, capacity: usize) -> Cached {
        Cached {
            capacity,
            groups: Vec::new(alloc),
            is_possible: true,
            restored: 0,
        }
    }

    /// Takes out the keys that are in use, and holds those of them that were there still.
    pub(super) fn leave(
        &mut self,
        alloc: Global,
        session: &Session,
        keys: &[Key],
        held: &mut Vec<Tree>,
    ) -> Result<(), AllocError> {
        for group in mem::replace(&mut self.groups, Vec::new(alloc)) {
            let left = self.left_of(alloc, session, keys, held, group)?;
            self.groups.push(left)?;
        }
        Ok(())
    }

    /// What is left of a group. The session shows which of those that are in use were there still.
    fn left_of(
        &mut self,
        alloc: Global,
        session: &Session,
        keys: &[Key],
        held: &mut Vec<Tree>,
        group: Group,
    ) -> Result<Group, AllocError> {
        let Group { trees, kept } = group;
        let dropped = trees.len().saturating_sub(kept);
        let (mut ready, mut pending) = (0usize, 0usize);
        let mut left = Vec::new(alloc);
        for tree in trees {
            match key_with(keys, tree) {
                None => left.push(tree)?,
                Some(key) if is_ready(session, key.id) => {
                    held.push(tree)?;
                    ready = ready.saturating_add(1);
                    self.restored = self.restored.saturating_add(1);
                }
                Some(_) => pending = pending.saturating_add(1),
            }
        }
        self.is_possible = self.is_possible && ready <= kept && pending <= dropped;
        Ok(Group {
            trees: left,
            kept: kept.saturating_sub(ready),
        })
    }

    /// Puts keys that were held, in some order, and drops what there is no room for, those put last
    /// last.
    pub(super) fn put(&mut self, alloc: Global, gone: Vec<Tree>) -> Result<(), AllocError> {
        let groups = mem::replace(&mut self.groups, Vec::new(alloc));
        let kept = gone.len();
        let mut capacity = self.add(Group { trees: gone, kept }, self.capacity)?;
        for group in groups {
            capacity = self.add(group, capacity)?;
        }
        Ok(())
    }

    /// Drops all keys.
    pub(super) fn clear(&mut self) {
        self.groups.clear();
    }

    /// Keeps as much of a group as there is room for; the room that is left.
    fn add(&mut self, group: Group, capacity: usize) -> Result<usize, AllocError> {
        let Group { trees, kept } = group;
        let kept = kept.min(capacity);
        if kept > 0 {
            self.groups.push(Group { trees, kept })?;
        }
        Ok(capacity.saturating_sub(kept))
    }
}

/// Whether the picture of the unit of an id is shown.
fn is_ready(session: &Session, id: AuId) -> bool {
    matches!(session.show(id), Shown::Ready(_))
}
