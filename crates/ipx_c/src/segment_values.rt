//! The structs of a segment that cross to C, as its header has them.

/// The setting of a segment, as C gives it.
#[repr(C)]
#[derive(Clone, Copy)]
pub struct SegmentSetting {
    pub network: u32,
    /// The router's node.
    pub node: [u8; 6],
    /// How many links it has.
    pub links: u8,
    /// The most stations that are known at one time.
    pub capacity: u16,
}

/// A link, as C gives it.
#[repr(C)]
#[derive(Clone, Copy)]
pub struct LinkValues {
    /// Whether it is down, a cable or sure.
    pub kind: u8,
    /// The most stations of it that are known at one time, unless it is down.
    pub share: u16,
}

/// A station.
#[repr(C)]
#[derive(Clone, Copy)]
pub struct StationRecord {
    pub node: [u8; 6],
    /// Where it is.
    pub link: u8,
    /// Whether that link proved it.
    pub is_sure: bool,
    /// How many seconds longer it is known, unless it is sure or heard there again.
    pub seconds_left: u16,
}
