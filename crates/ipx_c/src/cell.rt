//! Where a machine lies in memory, in a form that C can keep.
//!
//! This is the only place with a raw pointer. What ends a cell stands here too: `into_box` hands its machine on, and `close` asks
//! that it has none. A cell isn't `Drop`, and no other module sees its fields or those of `Parts`, so none can lose a machine.
ghost use Rattle.std.specs.Prelude.{◌≡◌, Option, None, Some, IsSome};
ghost use Rattle.std.specs.Coded.{coded_option};
ghost use Rattle.std.specs.Box.Ownership.{box_owns};
ghost use Rattle.ipx_c.specs.inside.Holds.{holds};
ghost use Rattle.ipx_c.specs.contracts.keyed_machine.KeyedMachine.{the_row as keyed_row};
ghost use Rattle.ipx_c.specs.contracts.machine.Machine.{the_row as router_row};
ghost use Rattle.ipx_c.specs.contracts.segment_machine.SegmentMachine.{the_row as segment_row};
ghost use Rattle.ipx_c.specs.contracts.tunnel_machine.TunnelMachine.{the_row as tunnel_row};
ghost use Rattle.ipx_c.specs.declared.keyed_machine.KeyedMachine.{KeyedMachine};
ghost use Rattle.ipx_c.specs.declared.machine.Machine.{Machine};
ghost use Rattle.ipx_c.specs.declared.segment_machine.SegmentMachine.{SegmentMachine};
ghost use Rattle.ipx_c.specs.declared.tunnel_machine.TunnelMachine.{TunnelMachine};

use crate::keyed_machine::KeyedMachine;
use crate::machine::Machine;
use crate::segment_machine::SegmentMachine;
use crate::tunnel_machine::TunnelMachine;
use std::alloc::{Allocator, Global};
use std::marker::Model;

/// A box taken apart: its pointer and its allocator, and the value that lies there. It owns what the box owned.
struct Parts<T, A: Allocator> {
    at: *mut T,
    alloc: A,
    pub ghost value: { T },
}

impl<T, A: Allocator> Model for Parts<T, A> {
    ghost also_owns = { λ p. box_owns (A.dealloc_token p.alloc) T.row p.at p.value };
}

impl<T, A: Allocator> Parts<T, A> {
    /// Takes a box apart.
    fn of(boxed: Box<T, A>) -> Parts<T, A>
    where
        T: Drop,
        ensures { result.value ≡ boxed.value }
    {
        let (at, alloc) = Box::into_raw_with_allocator(boxed);
        Parts { at, alloc }
    }

    /// Puts the box together again.
    fn into_box(self) -> Box<T, A>
        ensures { result.value ≡ self.value }
    {
        let Parts { at, alloc } = self;
        unsafe { Box::from_raw(alloc, at) }
    }
}

/// A pointer to a machine, which it owns, or to nothing.
pub struct Cell<M> {
    at: *mut M,
    alloc: Global,
    pub ghost machine: { Option M } by { coded_option M.code },
}

impl<M> Model for Cell<M> {
    ghost also_owns = { λ c. holds M.row c.alloc c.at c.machine };
}

impl<M> Cell<M> {
    /// A cell without a machine.
    pub(crate) fn none(alloc: Global) -> Cell<M>
        ensures { result.machine ≡ None }
    {
        Cell {
            at: std::ptr::null_mut(),
            alloc,
        }
    }

    /// A cell with the machine of a box.
    pub(crate) fn of(machine: Box<M>) -> Cell<M>
    where
        M: Drop,
        ensures { result.machine ≡ Some machine.value }
    {
        Cell::of_parts(Parts::of(machine))
    }

    /// The box of a cell that has a machine.
    pub(crate) fn into_box(self) -> Box<M>
        requires { IsSome self.machine }
        ensures { self.machine ≡ Some result.value }
    {
        self.into_parts().into_box()
    }

    /// Ends a cell without a machine.
    pub(crate) fn close(self)
        requires { self.machine ≡ None }
    {
        let Cell { at: _, alloc: _ } = self;
    }

    /// A cell with what a box was taken apart to.
    fn of_parts(parts: Parts<M, Global>) -> Cell<M>
        ensures { result.machine ≡ Some parts.value }
    {
        let Parts { at, alloc } = parts;
        Cell { at, alloc }
    }

    /// What the box of a cell that has a machine is taken apart to.
    fn into_parts(self) -> Parts<M, Global>
        requires { IsSome self.machine }
        ensures { self.machine ≡ Some result.value }
    {
        let Cell { at, alloc } = self;
        Parts { at, alloc }
    }
}

/// The cell of a router, as C keeps it: to C it is a pointer whose type it doesn't know. It has no type parameter, since nothing
/// with one crosses to C.
#[repr(C)]
pub struct RouterCell {
    at: *mut u8,
    alloc: Global,
    pub ghost machine: { Option Machine } by { coded_option router_row.coded },
}

impl Model for RouterCell {
    ghost also_owns = { λ c. holds router_row c.alloc c.at c.machine };
}

impl RouterCell {
    /// The same cell, for C.
    pub(crate) fn of(cell: Cell<Machine>) -> RouterCell
        ensures { result.machine ≡ cell.machine }
    {
        let Cell { at, alloc } = cell;
        RouterCell {
            at: at as *mut u8,
            alloc,
        }
    }

    /// The same cell, from C.
    pub(crate) fn into_cell(self) -> Cell<Machine>
        ensures { result.machine ≡ self.machine }
    {
        let RouterCell { at, alloc } = self;
        Cell {
            at: at as *mut Machine,
            alloc,
        }
    }
}

unsafe impl Send for RouterCell {}

/// The cell of a tunnel, as C keeps it.
#[repr(C)]
pub struct TunnelCell {
    at: *mut u8,
    alloc: Global,
    pub ghost machine: { Option TunnelMachine } by { coded_option tunnel_row.coded },
}

impl Model for TunnelCell {
    ghost also_owns = { λ c. holds tunnel_row c.alloc c.at c.machine };
}

impl TunnelCell {
    /// The same cell, for C.
    pub(crate) fn of(cell: Cell<TunnelMachine>) -> TunnelCell
        ensures { result.machine ≡ cell.machine }
    {
        let Cell { at, alloc } = cell;
        TunnelCell {
            at: at as *mut u8,
            alloc,
        }
    }

    /// The same cell, from C.
    pub(crate) fn into_cell(self) -> Cell<TunnelMachine>
        ensures { result.machine ≡ self.machine }
    {
        let TunnelCell { at, alloc } = self;
        Cell {
            at: at as *mut TunnelMachine,
            alloc,
        }
    }
}

unsafe impl Send for TunnelCell {}

/// The cell of a tunnel with keyed nodes, as C keeps it.
#[repr(C)]
pub struct KeyedCell {
    at: *mut u8,
    alloc: Global,
    pub ghost machine: { Option KeyedMachine } by { coded_option keyed_row.coded },
}

impl Model for KeyedCell {
    ghost also_owns = { λ c. holds keyed_row c.alloc c.at c.machine };
}

impl KeyedCell {
    /// The same cell, for C.
    pub(crate) fn of(cell: Cell<KeyedMachine>) -> KeyedCell
        ensures { result.machine ≡ cell.machine }
    {
        let Cell { at, alloc } = cell;
        KeyedCell {
            at: at as *mut u8,
            alloc,
        }
    }

    /// The same cell, from C.
    pub(crate) fn into_cell(self) -> Cell<KeyedMachine>
        ensures { result.machine ≡ self.machine }
    {
        let KeyedCell { at, alloc } = self;
        Cell {
            at: at as *mut KeyedMachine,
            alloc,
        }
    }
}

unsafe impl Send for KeyedCell {}

/// The cell of a segment, as C keeps it.
#[repr(C)]
pub struct SegmentCell {
    at: *mut u8,
    alloc: Global,
    pub ghost machine: { Option SegmentMachine } by { coded_option segment_row.coded },
}

impl Model for SegmentCell {
    ghost also_owns = { λ c. holds segment_row c.alloc c.at c.machine };
}

impl SegmentCell {
    /// The same cell, for C.
    pub(crate) fn of(cell: Cell<SegmentMachine>) -> SegmentCell
        ensures { result.machine ≡ cell.machine }
    {
        let Cell { at, alloc } = cell;
        SegmentCell {
            at: at as *mut u8,
            alloc,
        }
    }

    /// The same cell, from C.
    pub(crate) fn into_cell(self) -> Cell<SegmentMachine>
        ensures { result.machine ≡ self.machine }
    {
        let SegmentCell { at, alloc } = self;
        Cell {
            at: at as *mut SegmentMachine,
            alloc,
        }
    }
}

unsafe impl Send for SegmentCell {}
