//! Calls of a whole tile, with values known beforehand.
ghost use Rattle.street_tile.specs.Prelude.{IsTileOf};

use crate::lanes::network;
use std::alloc::Global;
use std::process::Abort;
use std::test::Fail;
use street_base::Starved;
use street_lanes::LaneTotals;
use street_net::Network;
use street_tile::Tile;

/// Whether car 0 is on the tile.
fn finds(alloc: Global, net: &Network, tile: &Tile) -> Result<bool, Starved>
    requires { IsTileOf net.now tile.now }
{
    Ok(tile.find(alloc, net, 0)?.is_some())
}

/// Nobody is on the tile.
fn check_nobody(rt: &(impl Abort + AllocGlobal), net: &Network, tile: &Tile) -> Result<(), Fail>
    requires { IsTileOf net.now tile.now }
{
    let nobody = LaneTotals {
        cells: 0,
        buffers: 0,
        waiting: 0,
    };
    assert_eq!(rt; tile.totals(), nobody);
    assert!(rt; !finds(rt.alloc(), net, tile)?);
    Ok(())
}

/// The network is cut into one tile, which is new.
fn check_new(rt: &(impl Abort + AllocGlobal), net: &Network) -> Result<(), Fail> {
    let tiles = Tile::cut(rt.alloc(), net, 1)?;
    assert!(rt; tiles.len() == 1);
    check_nobody(rt, net, &tiles[0])
}

#[test]
fn nobody_is_on_a_new_tile(rt: HostRuntime) -> Result<(), Fail> {
    let net = network(rt.alloc())?;
    check_new(&rt, &net)
}
