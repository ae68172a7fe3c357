//! Removal of the keys that a closure does not select.
ghost use Rattle.std.specs.Fn.{CalledAt};
ghost use Rattle.art_map.specs.MapRetain.{Retains, RetainsAll};

use super::TreeSet;
use art_keys::laws::NoPrefixesBytes;

impl<K: NoPrefixesBytes + Drop, const P: usize> TreeSet<K, P> {
    /// Keeps the keys for which the closure returns true, and removes the others. The closure is called once for each
    /// key, in their order. It is dropped at the end, so only the contract of `retain_by_ref` rules out further calls.
    /// It never fails.
    pub fn retain<F: FnMut(&K) -> bool>(&mut self, f: F)
        requires { F.IsAlwaysCallable f }
        ensures keys { RetainsAll (CalledAt F.FnMut) f self.old self.new }
    {
        self.set.retain(f)
    }

    /// Does what `retain` does, with a closure that the caller keeps, as `retain_by_ref` of a `ByteMap`.
    pub fn retain_by_ref<F: FnMut(&K) -> bool>(&mut self, f: &mut F)
        requires { F.IsAlwaysCallable f.old }
        ensures keys { Retains (CalledAt F.FnMut) f.old self.old self.new f.new }
        ensures callable { F.IsAlwaysCallable f.new }
    {
        self.set.retain_by_ref(f)
    }
}
