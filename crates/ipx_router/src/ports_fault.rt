//! Why ports make no router.
use thiserror::Error;

/// Why ports don't make a router: the first that applies.
///
/// ```
/// match Router::<2, 50, 8>::check(ports) {
///     Ok(()) => println!(rt; "a router can have these ports")?,
///     Err(PortsFault::SameNetwork) => println!(rt; "a router joins two networks")?,
///     Err(fault) => println!(rt; "{fault}")?,
/// }
/// // prints a router can have these ports
/// ```
#[derive(Clone, Copy, Debug, PartialEq, Eq, Hash, Error)]
pub enum PortsFault {
    /// There are no ports.
    #[error("no port")]
    NoPort,
    /// There are more than the router can have.
    #[error("more ports than a router can have")]
    TooMany,
    /// Two are on one network.
    #[error("two ports on one network")]
    SameNetwork,
}
