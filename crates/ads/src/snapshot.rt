//! The snapshots that a control plane serves.

/// A resource: its name, and the bytes of its filter's message (`envoy.extensions.filters.http.rbac.v3.RBAC`), which
/// are not read.
#[derive(Debug, Drop)]
pub struct Resource {
    /// The name of the resource, which is the filter's name.
    pub name: String,
    /// The bytes of the filter's message.
    pub filter: Vec<u8>,
}

/// Resources that are served together, under one version.
#[derive(Debug, Drop)]
pub struct Snapshot {
    /// The resources, in the order in which they are sent.
    pub resources: Vec<Resource>,
}
