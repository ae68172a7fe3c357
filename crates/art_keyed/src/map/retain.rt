//! Removal of the pairs that a closure does not select.
ghost use Rattle.art_map.specs.MapRetain.{RetainsAllPairs, RetainsPairs};

use super::TreeMap;
use art_keys::laws::NoPrefixesBytes;

impl<K: NoPrefixesBytes + Drop, V: Drop, const P: usize> TreeMap<K, V, P> {
    /// Keeps the pairs for which the closure returns true, and removes the others. The closure is called once for each
    /// pair, in the order of the keys. It may change the value in place. It is dropped at the end, so only the contract
    /// of `retain_by_ref` rules out further calls. It never fails, and costs what `retain` of a `ByteMap` does.
    pub fn retain<F: FnMut(&K, &mut V) -> bool>(&mut self, f: F)
        requires { F.IsAlwaysCallable f }
        ensures pairs { RetainsAllPairs F.FnMut f self.old self.new }
    {
        self.map.retain(f)
    }

    /// Does what `retain` does, with a closure that the caller keeps. The closure is called exactly once for each pair:
    /// its last state is the one that these calls lead to.
    pub fn retain_by_ref<F: FnMut(&K, &mut V) -> bool>(&mut self, f: &mut F)
        requires { F.IsAlwaysCallable f.old }
        ensures pairs { RetainsPairs F.FnMut f.old self.old self.new f.new }
        ensures callable { F.IsAlwaysCallable f.new }
    {
        self.map.retain_by_ref(f)
    }
}
