use disk::Area;

/// What a host is to do to its areas.
#[derive(Clone, Copy, Debug, PartialEq, Eq)]
pub enum DeviceCall {
    /// The area is written to.
    Write(Area),
    Sync(Area),
}
