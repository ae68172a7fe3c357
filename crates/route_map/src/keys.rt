//! Networks as keys: the number, and then the length.
ghost use Rattle.std.specs.Prelude.{◌≡◌};
ghost use Rattle.prefix_table.specs.Networks.{IsNetwork};
ghost use Rattle.route_map.specs.Routes.{key_of, network_of};

use art_keys::joined_array::JoinedArray;
use art_keys::unsigned::{U8Key, U32Key, U128Key};
use prefix_table::network::Network;

/// A network of version 4 in 5 bytes.
pub type FourKey = JoinedArray<U32Key, U8Key, 5>;

/// A network of version 6 in 17 bytes.
pub type SixKey = JoinedArray<U128Key, U8Key, 17>;

/// Returns the key of a network of version 4.
pub fn four_key(network: Network) -> FourKey
    requires network { IsNetwork network }
    requires version { network.version ≡ 4 }
    ensures { result ≡ key_of network }
{
    let number = U32Key::from(network.number as u32);
    JoinedArray::join(&number, &U8Key::from(network.length))
}

/// Returns the key of a network of version 6.
pub fn six_key(network: Network) -> SixKey
    requires network { IsNetwork network }
    requires version { network.version ≡ 6 }
    ensures { result ≡ key_of network }
{
    let number = U128Key::from(network.number);
    JoinedArray::join(&number, &U8Key::from(network.length))
}

/// Returns the network of version 4 of a key.
pub fn network_of_four(key: &FourKey) -> Network
    ensures { result ≡ network_of 4 key.now }
{
    Network {
        number: u128::from(key.first().get()),
        version: 4,
        length: key.second().get(),
    }
}

/// Returns the network of version 6 of a key.
pub fn network_of_six(key: &SixKey) -> Network
    ensures { result ≡ network_of 6 key.now }
{
    Network {
        number: key.first().get(),
        version: 6,
        length: key.second().get(),
    }
}
