//! Callers of the arena and of the closed cells, with which their pages begin.

use std::alloc::{AllocError, Global};
use std::test::Fail;
use street_base::{Car, CarNo, CellNo, LinkIx, Plan, Size, Starved};
use street_gap::{Closures, cells_up_to, obstacle_ahead};
use street_yard::{ListId, Yard};

/// Two cars come onto a list, and the second one leaves it: its number, and how many are left.
fn second_leaves(alloc: Global, first: Car, second: Car) -> Result<(CarNo, usize), Starved> {
    let list = ListId(0);
    let mut yard = Yard::new(alloc, 1)?;
    yard.reserve(2)?;
    let front = yard.admit_reserved(first);
    let back = yard.admit_reserved(second);
    yard.push_back(list, front);
    yard.push_back(list, back);
    yard.unlink(back);
    let car = yard.take(back);
    Ok((car.number, yard.list_len(list)))
}

/// How many cells are free ahead of a cell, of a lane whose cells 10 to 19 are closed but for cell 12.
fn cells_to_works(alloc: Global, cell: CellNo) -> Result<Option<CellNo>, Starved> {
    let mut closures = Closures::new(alloc);
    closures.close(10, 19)?;
    closures.reopen(12, 12)?;
    let entrance = obstacle_ahead(&closures, !closures.is_empty(), None, cell);
    Ok(cells_up_to(entrance, cell))
}

/// A vehicle of this number, one cell long, with its front in this cell.
fn car(alloc: Global, number: CarNo, cell: CellNo) -> Result<Car, AllocError> {
    let Some(size) = Size::new(1) else {
        unreachable!();
    };
    Ok(Car {
        plan: Box::new(
            alloc,
            Plan::from_vec(Vec::from_slice(alloc, &[LinkIx::new(0)])?),
        )?,
        number,
        cell,
        step: 0,
        at: 0,
        speed: 0,
        size,
    })
}

#[test]
fn the_second_of_two_leaves(rt: HostRuntime) -> Result<(), Fail> {
    let (first, second) = (car(rt.alloc(), 7, 0)?, car(rt.alloc(), 8, 0)?);
    assert!(rt; second_leaves(rt.alloc(), first, second)? == (8, 1));
    Ok(())
}

#[test]
fn works_end_where_a_cell_is_open(rt: HostRuntime) -> Result<(), Fail> {
    assert!(rt; cells_to_works(rt.alloc(), 4)? == Some(5));
    assert!(rt; cells_to_works(rt.alloc(), 12)? == Some(0));
    assert!(rt; cells_to_works(rt.alloc(), 13)?.is_none());
    Ok(())
}
