//! Names of leaves by a hash of their keys. A name is a hint: nothing is promised of it, so no call fails for memory, and
//! the names for which there is no place are lost.

use crate::secret::Secret;
use art_keyed::map::TreeMap;
use art_keys::laws::NoPrefixesBytes;
use art_nodes::node::{AsBytes, LeafPtr};
use art_reading::lookup::KeyQuery;
use std::alloc::{AllocError, Global};

const FEWEST: u32 = 16;

const MOST: u32 = 1 << 28;

// Up to four names. The low bits of each are a slot, and those above are of the hash of its key. A zero is no name.
type Bucket = [u32; 4];

/// A table of hints.
#[derive(Drop)]
pub(crate) struct Hints {
    alloc: Global,
    secret: Secret,
    buckets: Vec<Bucket>,
    // How many buckets there are: a power of two, or none.
    count: u32,
}

impl Hints {
    /// Returns an empty table, without an allocation.
    pub(crate) fn new(alloc: Global, secret: Secret) -> Self {
        Hints {
            alloc,
            secret,
            buckets: Vec::new(alloc),
            count: 0,
        }
    }

    /// Returns a table of the leaves of a map.
    pub(crate) fn of<K: NoPrefixesBytes + Drop, V: Drop, const P: usize>(
        map: &TreeMap<K, V, P>,
        secret: Secret,
    ) -> Self {
        let map = map.as_byte_map();
        let mut hints = Hints::new(map.allocator(), secret);
        for _ in 0..32 {
            hints.make_room(map.len());
        }
        let mut last = None;
        for _ in 0..map.len() {
            let Some((leaf, key)) = map.named_after(last) else {
                break;
            };
            hints.put(hints.hash_of(key.as_bytes()), leaf);
            last = Some(leaf);
        }
        hints
    }

    /// Returns the table that `of` returns, of the same hashes.
    pub(crate) fn again<K: NoPrefixesBytes + Drop, V: Drop, const P: usize>(
        &self,
        map: &TreeMap<K, V, P>,
    ) -> Self {
        Hints::of(map, self.secret)
    }

    /// Returns the hash of the key that is asked for.
    #[inline(always)]
    pub(crate) fn hash_of<Q: KeyQuery>(&self, query: Q) -> u64 {
        let (bytes, last) = query.parts();
        match (last, bytes.split_last()) {
            (Some(last), _) => self.secret.hash(bytes, last),
            (None, Some((last, front))) => self.secret.hash(front, *last),
            (None, None) => 0,
        }
    }

    /// Returns the name of a leaf that may have a key with this hash.
    #[inline(always)]
    pub(crate) fn leaf_at(&self, hash: u64) -> Option<LeafPtr> {
        let bucket = self.buckets.get(self.index_of(hash))?;
        let (tag, mask) = (self.tag_of(hash), self.slot_mask());
        for entry in bucket {
            if *entry & !mask == tag {
                return Some(LeafPtr::from_slot(*entry & mask));
            }
        }
        None
    }

    /// Returns the name of the leaf of a key that is about to be looked up or inserted, if a hint leads to it, and keeps it.
    /// A key of which nothing is known is taken for a new one: kept is the name that its leaf gets if none was removed.
    #[inline(always)]
    pub(crate) fn foresee<Q: KeyQuery, K: NoPrefixesBytes + Drop, V: Drop, const P: usize>(
        &mut self,
        map: &TreeMap<K, V, P>,
        query: Q,
    ) -> Option<LeafPtr> {
        let map = map.as_byte_map();
        self.make_room(map.len());
        let hash = self.hash_of(query);
        let known = self.leaf_at(hash);
        if known.is_some() {
            let near = map.leaf_near(known, query);
            self.learn(hash, known, near);
            return near;
        }
        if let Ok(slot) = u32::try_from(map.len()) {
            self.put(hash, LeafPtr::from_slot(slot));
        }
        None
    }

    /// Keeps the name of a leaf, if it is another one than was known of its key.
    #[inline(always)]
    pub(crate) fn learn(&mut self, hash: u64, known: Option<LeafPtr>, leaf: Option<LeafPtr>) {
        if known != leaf {
            if let Some(leaf) = leaf {
                self.put(hash, leaf);
            }
        }
    }

    /// Keeps the name of a leaf under the hash of its key, if there is a place for it.
    pub(crate) fn put(&mut self, hash: u64, leaf: LeafPtr) {
        let (tag, mask) = (self.tag_of(hash), self.slot_mask());
        let index = self.index_of(hash);
        let Some(bucket) = self.buckets.get_mut(index) else {
            return;
        };
        if leaf.slot > mask {
            return;
        }
        for place in 0..4 {
            if bucket[place] == 0 || bucket[place] & !mask == tag {
                bucket[place] = tag | leaf.slot;
                return;
            }
        }
    }

    /// Forgets the leaf of a key with this hash.
    pub(crate) fn forget(&mut self, hash: u64) {
        let (tag, mask) = (self.tag_of(hash), self.slot_mask());
        let index = self.index_of(hash);
        let Some(bucket) = self.buckets.get_mut(index) else {
            return;
        };
        for place in 0..4 {
            if bucket[place] & !mask == tag {
                bucket[place] = 0;
            }
        }
    }

    /// Forgets all names.
    pub(crate) fn clear(&mut self) {
        self.buckets = Vec::new(self.alloc);
        self.count = 0;
    }

    /// Makes the table larger if it is small for so many names and memory allows.
    pub(crate) fn make_room(&mut self, len: usize) {
        if len < 3 * self.count as usize || self.count >= MOST {
            return;
        }
        if let Ok(buckets) = self.doubled() {
            self.buckets = buckets;
            self.count = if self.count == 0 {
                FEWEST
            } else {
                2 * self.count
            };
        }
    }

    // Returns a table with the same names, twice as large.
    fn doubled(&self) -> Result<Vec<Bucket>, AllocError> {
        if self.count == 0 {
            return vec![in self.alloc; [0; 4]; FEWEST as usize];
        }
        let mask = self.slot_mask();
        let mut buckets = Vec::with_capacity(self.alloc, 2 * self.count as usize)?;
        for bucket in &self.buckets {
            let (low, high) = halves(bucket, mask);
            buckets.push(low)?;
            buckets.push(high)?;
        }
        Ok(buckets)
    }

    // The bucket of a hash.
    #[inline(always)]
    fn index_of(&self, hash: u64) -> usize {
        ((hash >> 32) * self.count as u64 >> 32) as usize
    }

    // The bits of a hash that stand beside a slot. Those above them are the number of its bucket.
    #[inline(always)]
    fn tag_of(&self, hash: u64) -> u32 {
        (((hash >> 32) * self.count as u64) & 0xFFFF_FFFF) as u32 & !self.slot_mask()
    }

    // The bits of a slot: two for the places of a bucket, and one more than number the buckets.
    #[inline(always)]
    fn slot_mask(&self) -> u32 {
        self.count.wrapping_mul(8).wrapping_sub(1)
    }
}

// The two buckets into which a bucket is split. The first bit of a hash beside a slot says which one has the name.
fn halves(bucket: &Bucket, mask: u32) -> (Bucket, Bucket) {
    let (mut low, mut high) = ([0; 4], [0; 4]);
    let slots = mask.wrapping_mul(2).wrapping_add(1);
    for place in 0..4 {
        let entry = bucket[place];
        let moved = (entry & mask) | (entry.wrapping_shl(1) & !slots);
        if entry >> 31 == 0 {
            low[place] = moved;
        } else {
            high[place] = moved;
        }
    }
    (low, high)
}
