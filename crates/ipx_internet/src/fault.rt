//! Why an internet refuses what it is asked.

use ipx_router::Router;
use std::fmt;
use thiserror::Error;

/// Why a router isn't added, or an event doesn't happen.
///
/// ```
/// match internet.event(7, Event::Second) {
///     Ok(outcome) => println!(rt; "{outcome}")?,
///     Err(InternetFault::NoSuchPort) => println!(rt; "there is no router 7")?,
///     Err(fault) => println!(rt; "{fault}")?,
/// }
/// // prints there is no router 7
/// ```
#[derive(Clone, Copy, Debug, PartialEq, Eq, Error)]
pub enum InternetFault {
    #[error("a port of another router has the same network and node")]
    SameNode,
    #[error("no such router or port")]
    NoSuchPort,
    #[error("out of memory")]
    Memory,
}

/// Why there is no trace.
///
/// See the example of [`Trace`](crate::Trace).
#[derive(Clone, Copy, Debug, PartialEq, Eq, Error)]
pub enum TraceFault {
    #[error("no such router or port")]
    NoSuchPort,
    #[error("more receptions than the limit")]
    Limit,
    #[error("out of memory")]
    Memory,
}

/// A router that isn't added, handed back, and why.
///
/// ```
/// if let Err(AddRefused { router, fault }) = internet.add(router) {
///     println!(rt; "{fault}; {} ports come back", router.ports())?;
/// }
/// // prints a port of another router has the same network and node; 2 ports come back
/// ```
#[derive(Drop)]
pub struct AddRefused<const P: usize, const R: usize, const S: usize> {
    pub router: Router<P, R, S>,
    pub fault: InternetFault,
}

/// Why it isn't added.
impl<const P: usize, const R: usize, const S: usize> fmt::Debug for AddRefused<P, R, S> {
    fn fmt<W: fmt::Write>(&self, f: &mut fmt::Formatter<W>) -> fmt::Result {
        f.debug_struct("AddRefused")
            .field("fault", &self.fault)
            .finish_non_exhaustive()
    }
}
