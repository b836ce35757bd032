//! Where the vehicle of a number is on one lane, as the reply to a `vehicle` command tells it. A tile calls it for the lanes on
//! which the vehicle may be.
ghost use Rattle.std.specs.Prelude.{◌≡◌, ◌<◌, length, None, IfOk};
ghost use Rattle.street_base.specs.Prelude.{link_at, vehicle_of, remaining_plan, remaining_ids};
ghost use Rattle.street_lanes.specs.Lanes.{IsOf};
ghost use Rattle.street_lanes.specs.Prelude.{told_in_cell, told_in_buffer, told_waiting, TellsWhere, TellsWhether};
ghost use Rattle.street_yard.specs.Prelude.{viewed};

use crate::lanes::Lanes;
use crate::lists::{buffer_list, cells_list, waiting_list};
use crate::search::seek;
use std::alloc::{AllocError, Global};
use street_base::{CarNo, LinkIx, Listing, NetSpec, Place, Starved, Whereabouts};
use street_net::Network;
use street_yard::CarView;

/// The identifier of the link at a position, or 0 where the network has none.
fn link_id(net: &NetSpec, link: LinkIx) -> u64
    ensures { result ≡ (link_at net.now link).id }
{
    match net.links.as_slice().get(link.position()) {
        Some(spec) => spec.id,
        None => 0,
    }
}

/// The links of a car's plan from its present link on, by their positions.
fn remaining_plan<'a>(car: &CarView<'a>) -> &'a [LinkIx]
    ensures { result.now ≡ remaining_plan (vehicle_of (viewed car.now)) }
{
    let plan = car.plan.as_slice();
    &plan[usize::from(car.at).min(plan.len())..]
}

/// The identifiers of the links of a car's plan from its present link on.
///
/// # Errors
/// Memory for them was refused.
fn remaining_ids(
    alloc: Global,
    net: &NetSpec,
    car: &CarView<'_>,
) -> Result<Listing<u64>, AllocError>
    ensures { IfOk result (λ ids. ids ≡ remaining_ids net.now (vehicle_of (viewed car.now))) }
{
    let plan = remaining_plan(car);
    let mut ids = Vec::with_capacity(alloc, plan.len())?;
    for link in plan {
        ids.push(link_id(net, *link))?;
    }
    Ok(Listing::from_vec(ids))
}

/// What is told of a car in a cell of the lane at this place.
///
/// # Errors
/// Memory for its plan was refused.
fn told_in_cell(
    alloc: Global,
    net: &NetSpec,
    at: Place,
    car: &CarView<'_>,
) -> Result<Whereabouts, AllocError>
    ensures { IfOk result (λ told. told ≡ told_in_cell net.now at (viewed car.now)) }
{
    Ok(Whereabouts::Cell {
        link: link_id(net, at.link),
        lane: u64::from(at.lane),
        cell: u64::from(car.cell),
        speed: u64::from(car.speed),
        size: u64::from(car.size.cells()),
        plan: remaining_ids(alloc, net, car)?,
    })
}

/// What is told of a car in the buffer of the lane at this place.
///
/// # Errors
/// Memory for its plan was refused.
fn told_in_buffer(
    alloc: Global,
    net: &NetSpec,
    at: Place,
    car: &CarView<'_>,
) -> Result<Whereabouts, AllocError>
    ensures { IfOk result (λ told. told ≡ told_in_buffer net.now at (viewed car.now)) }
{
    Ok(Whereabouts::Buffer {
        link: link_id(net, at.link),
        lane: u64::from(at.lane),
        ready: u64::from(car.step),
        speed: u64::from(car.speed),
        size: u64::from(car.size.cells()),
        plan: remaining_ids(alloc, net, car)?,
    })
}

/// What is told of a car that waits on the lane at this place.
///
/// # Errors
/// Memory for its plan was refused.
fn told_waiting(
    alloc: Global,
    net: &NetSpec,
    at: Place,
    car: &CarView<'_>,
) -> Result<Whereabouts, AllocError>
    ensures { IfOk result (λ told. told ≡ told_waiting net.now at (viewed car.now)) }
{
    Ok(Whereabouts::Waiting {
        link: link_id(net, at.link),
        lane: u64::from(at.lane),
        depart: u64::from(car.step),
        size: u64::from(car.size.cells()),
        plan: remaining_ids(alloc, net, car)?,
    })
}

impl Lanes {
    /// Where the vehicle with the number `number` is on the lane `lane` of the tile, if it is there; what is told holds where
    /// it stands there at most once. Takes memory for the plan that it answers.
    ///
    /// # Errors
    /// Memory for the plan was refused.
    pub fn find_on(
        &self,
        alloc: Global,
        net: &Network,
        lane: usize,
        number: CarNo,
    ) -> Result<Option<Whereabouts>, Starved>
        requires lane { lane < length self.now.lanes }
        requires of { IsOf net.now self.now }
        ensures found { IfOk result (TellsWhere net.now self.now lane number) }
        ensures there { IfOk result (TellsWhether self.now lane number) }
    {
        let spec = net.spec();
        let at = self.extents[lane].at;
        let hint = self.hints.key_of(number);
        if let Some(key) = seek(&self.yard, cells_list(lane), number, hint) {
            return Ok(Some(told_in_cell(alloc, spec, at, &self.yard.car(key))?));
        }
        if let Some(key) = seek(&self.yard, buffer_list(lane), number, hint) {
            return Ok(Some(told_in_buffer(alloc, spec, at, &self.yard.car(key))?));
        }
        if let Some(key) = seek(&self.yard, waiting_list(lane), number, hint) {
            return Ok(Some(told_waiting(alloc, spec, at, &self.yard.car(key))?));
        }
        Ok(None)
    }
}
