//! Keeping the keys for which a closure returns true.
ghost use Rattle.std.specs.Prelude.{◌≡◌};
ghost use Rattle.std.specs.Fn.{CalledAt};
ghost use Rattle.art_map.specs.MapRetain.{Retains, RetainsAll};

use super::ByteSet;
use art_nodes::node::AsBytes;

impl<K: AsBytes + Drop, const P: usize> ByteSet<K, P> {
    /// Keeps the keys for which the closure returns true, and removes the others. The closure is called once for each
    /// key, in ascending order. It is dropped at the end, so only the contract of `retain_by_ref` rules out further
    /// calls. It never fails. It costs what `retain` of a `ByteMap` does.
    pub fn retain<F: FnMut(&K) -> bool>(&mut self, mut f: F)
        requires { F.IsAlwaysCallable f }
        ensures keys { RetainsAll (CalledAt F.FnMut) f self.old self.new }
    {
        self.retain_by_ref(&mut f);
    }

    /// Does what `retain` does, with a closure that the caller keeps, as `retain_by_ref` of a `ByteMap` does.
    pub fn retain_by_ref<F: FnMut(&K) -> bool>(&mut self, f: &mut F)
        requires { F.IsAlwaysCallable f.old }
        ensures keys { Retains (CalledAt F.FnMut) f.old self.old self.new f.new }
        ensures callable { F.IsAlwaysCallable f.new }
    {
        self.map.retain_by_ref(
            &mut |key: &K, _: &mut ()| -> bool
                requires { F.IsAlwaysCallable f.now }
                ensures callable { F.IsAlwaysCallable f.exit.now }
                ensures called { F.step f.entry.now key.entry result f.exit.now }
                ensures same { f.exit.ghost_name ≡ f.entry.ghost_name }
            { f(key) },
        )
    }
}
