//! The fault of a text that isn't the digits of a number.
use thiserror::Error;

/// A text is not exactly as many hexadecimal digits as a network (eight) or a node (twelve) has.
///
/// See the example of [`Network`](crate::Network).
#[derive(Clone, Copy, Debug, PartialEq, Eq, Error)]
#[error("not the hexadecimal digits of a network or a node")]
pub struct NotHex;
