//! A table of routes.
ghost use Rattle.std.specs.Prelude.{◌≡◌, []};
ghost use Rattle.std.specs.Option.{option_map};
ghost use Rattle.ip_routes.specs.Routes.{IsAnswer};

use crate::lines::{Place, line_at};
use prefix_table::table::PrefixTable;
use std::alloc::Global;
use std::marker::Model;
use std::net::IpAddr;

/// Routes, of which no two have the same network. Contracts see the list of their networks and lines.
#[derive(Drop)]
pub struct Routes {
    pub(crate) text: Vec<u8>,
    pub(crate) networks: PrefixTable<Place>,
}

impl Model for Routes {
    ghost use Rattle.std.specs.Prelude.{List, ℕ};
    ghost use Rattle.prefix_table.specs.declared.network.Network.{Network};
    ghost use Rattle.ip_routes.specs.Sources.{ArePlaced, answers_of};

    ghost Value = { List (Network × List ℕ) };

    ghost view = { λ t. answers_of t.text.items t.networks };

    ghost invariant = { λ t. ArePlaced t.text.items t.networks };
}

impl Routes {
    /// Returns no route, without an allocation.
    pub fn new(alloc: Global) -> Self
        ensures { result ≡ [] }
    {
        Routes {
            text: Vec::new(alloc),
            networks: PrefixTable::new(alloc),
        }
    }

    /// Returns the line of the longest route that covers an address, or `None` if none does. It allocates nothing.
    pub fn find(&self, address: &IpAddr) -> Option<&[u8]>
        ensures { IsAnswer self.now address.now (option_map (λ line. line.now) result) }
    {
        match self.networks.longest_match(address) {
            Some((_network, place)) => Some(line_at(&self.text, *place)),
            None => None,
        }
    }
}
