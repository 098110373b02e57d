//! The handle by which C holds a machine.
ghost use Rattle.std.specs.Prelude.{◌≡◌, Option, None, Some, is_some};
ghost use Rattle.std.specs.Option.{option_map};

use crate::cell::{Cell, KeyedCell, RouterCell, SegmentCell, TunnelCell};
use crate::keyed_machine::KeyedMachine;
use crate::machine::Machine;
use crate::segment_machine::SegmentMachine;
use crate::tunnel_machine::TunnelMachine;
use std::alloc::Global;
use std::mem::replace;

/// A machine, or none. It isn't `Drop`, so no call can let go of a machine that one has.
pub struct Handle<M> {
    made: bool,
    pub cell: Cell<M>,
    ghost agrees: { made ≡ is_some cell.machine },
}

impl<M> Handle<M> {
    /// A handle without a machine.
    pub(crate) fn none(alloc: Global) -> Handle<M>
        ensures { result.cell.machine ≡ None }
    {
        Handle {
            made: false,
            cell: Cell::none(alloc),
        }
    }

    /// A handle with that machine.
    pub(crate) fn of(machine: Box<M>) -> Handle<M>
    where
        M: Drop,
        ensures { result.cell.machine ≡ Some machine.value }
    {
        Handle {
            made: true,
            cell: Cell::of(machine),
        }
    }

    /// The machine, if there is one.
    pub(crate) fn into_box(self) -> Option<Box<M>>
        ensures { option_map (λ b. b.value) result ≡ self.cell.machine }
    {
        let Handle { made, cell } = self;
        if made {
            Some(cell.into_box())
        } else {
            cell.close();
            None
        }
    }

    /// Ends a handle without a machine.
    fn close(self)
        requires { self.cell.machine ≡ None }
    {
        let Handle { made: _, cell } = self;
        cell.close();
    }
}

/// A handle as C keeps it: a struct of its own for each kind of machine, since nothing with a type parameter crosses to C.
pub(crate) trait Crosses: Sized {
    type Machine: Drop;

    ghost machine: { Self → Option Self.Machine };

    /// The same handle, for C.
    fn of(handle: Handle<Self::Machine>) -> Self
        ensures { Self.machine result ≡ handle.cell.machine };

    /// The same handle, from C.
    fn into_handle(self) -> Handle<Self::Machine>
        ensures { result.cell.machine ≡ Self.machine self };
}

/// The machine of a handle, if it has one; the handle then has none.
pub(crate) fn taken_out<H: Crosses>(alloc: Global, handle: &mut H) -> Option<Box<H::Machine>>
    ensures machine { option_map (λ b. b.value) result ≡ H.machine handle.old }
    ensures empty { H.machine handle.new ≡ None }
{
    replace(handle, H::of(Handle::none(alloc)))
        .into_handle()
        .into_box()
}

/// Puts a machine into a handle that has none.
pub(crate) fn put_in<H: Crosses>(handle: &mut H, machine: Box<H::Machine>)
    requires { H.machine handle.old ≡ None }
    ensures { H.machine handle.new ≡ Some machine.value }
{
    let empty = replace(handle, H::of(Handle::of(machine)));
    empty.into_handle().close();
}

/// The handle of a router, as C keeps it. All bytes 0 are one without a router.
#[repr(C)]
pub struct RouterHandle {
    made: bool,
    pub cell: RouterCell,
    ghost agrees: { made ≡ is_some cell.machine },
}

impl Crosses for RouterHandle {
    type Machine = Machine;

    ghost machine = { λ handle. handle.cell.machine };

    fn of(handle: Handle<Machine>) -> RouterHandle
        ensures { result.cell.machine ≡ handle.cell.machine }
    {
        let Handle { made, cell } = handle;
        RouterHandle {
            made,
            cell: RouterCell::of(cell),
        }
    }

    fn into_handle(self) -> Handle<Machine>
        ensures { result.cell.machine ≡ self.cell.machine }
    {
        let RouterHandle { made, cell } = self;
        Handle {
            made,
            cell: cell.into_cell(),
        }
    }
}

/// The handle of a tunnel, as C keeps it. All bytes 0 are one without a tunnel.
#[repr(C)]
pub struct TunnelHandle {
    made: bool,
    pub cell: TunnelCell,
    ghost agrees: { made ≡ is_some cell.machine },
}

impl Crosses for TunnelHandle {
    type Machine = TunnelMachine;

    ghost machine = { λ handle. handle.cell.machine };

    fn of(handle: Handle<TunnelMachine>) -> TunnelHandle
        ensures { result.cell.machine ≡ handle.cell.machine }
    {
        let Handle { made, cell } = handle;
        TunnelHandle {
            made,
            cell: TunnelCell::of(cell),
        }
    }

    fn into_handle(self) -> Handle<TunnelMachine>
        ensures { result.cell.machine ≡ self.cell.machine }
    {
        let TunnelHandle { made, cell } = self;
        Handle {
            made,
            cell: cell.into_cell(),
        }
    }
}

/// The handle of a tunnel with keyed nodes, as C keeps it. All bytes 0 are one without a tunnel.
#[repr(C)]
pub struct KeyedHandle {
    made: bool,
    pub cell: KeyedCell,
    ghost agrees: { made ≡ is_some cell.machine },
}

impl Crosses for KeyedHandle {
    type Machine = KeyedMachine;

    ghost machine = { λ handle. handle.cell.machine };

    fn of(handle: Handle<KeyedMachine>) -> KeyedHandle
        ensures { result.cell.machine ≡ handle.cell.machine }
    {
        let Handle { made, cell } = handle;
        KeyedHandle {
            made,
            cell: KeyedCell::of(cell),
        }
    }

    fn into_handle(self) -> Handle<KeyedMachine>
        ensures { result.cell.machine ≡ self.cell.machine }
    {
        let KeyedHandle { made, cell } = self;
        Handle {
            made,
            cell: cell.into_cell(),
        }
    }
}

/// The handle of a segment, as C keeps it. All bytes 0 are one without a segment.
#[repr(C)]
pub struct SegmentHandle {
    made: bool,
    pub cell: SegmentCell,
    ghost agrees: { made ≡ is_some cell.machine },
}

impl Crosses for SegmentHandle {
    type Machine = SegmentMachine;

    ghost machine = { λ handle. handle.cell.machine };

    fn of(handle: Handle<SegmentMachine>) -> SegmentHandle
        ensures { result.cell.machine ≡ handle.cell.machine }
    {
        let Handle { made, cell } = handle;
        SegmentHandle {
            made,
            cell: SegmentCell::of(cell),
        }
    }

    fn into_handle(self) -> Handle<SegmentMachine>
        ensures { result.cell.machine ≡ self.cell.machine }
    {
        let SegmentHandle { made, cell } = self;
        Handle {
            made,
            cell: cell.into_cell(),
        }
    }
}
