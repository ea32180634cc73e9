//! The parts of a request.
use attributes::Conn;

/// The parts of a request, as `attributes::Request::new` takes them.
#[derive(Debug, Drop)]
pub struct Parts {
    /// The method.
    pub method: String,
    /// The target.
    pub target: String,
    /// The field lines in order of arrival, each a name in lower case and a value.
    pub lines: Vec<(String, String)>,
    /// The facts of the connection.
    pub conn: Conn,
}
